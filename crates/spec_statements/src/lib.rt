//! What statements mean. `specs/` has the definitions: the check, rows, locks, the reply, the effect,
//! and the machine of one thread. The module `laws` has laws of them, and the others worked rows,
//! which show what the definitions give.
#![tactic(auto)]

pub mod laws;
pub mod worked_checks;
pub mod worked_statements;
