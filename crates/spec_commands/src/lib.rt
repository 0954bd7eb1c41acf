//! What the commands that read a workload say of a text. `specs/` has the definitions; there is no
//! code.
#![tactic(auto)]

pub mod worked_commands;
