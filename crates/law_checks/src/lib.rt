//! Laws of the check: what it gives is well typed.
#![tactic(auto)]

pub mod laws;
