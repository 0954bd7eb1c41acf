//! Laws of agreement: databases that agree on what a statement locks cannot be told apart by it. Each
//! law is the contract of a function that does nothing.
#![tactic(auto)]

pub mod laws;
