//! Laws of a transaction's writes: what they replace is what the statement does to every database that
//! was seen. Each law is the contract of a function that does nothing.
#![tactic(auto)]

pub mod laws;
