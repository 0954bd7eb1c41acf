//! Laws of the cells that checked expressions have. Each is the contract of a function that does nothing.
#![tactic(auto)]

pub mod laws;
