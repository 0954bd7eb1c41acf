//! Laws of statements over valid databases: effects keep a database valid and identifiers grow by
//! one at most, locks come with their parents, and what others share stays. Each law is the contract
//! of a function that does nothing.
#![tactic(auto)]

pub mod laws;
