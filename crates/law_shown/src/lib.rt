//! Laws of what holdings show: it is a database, and a statement can't tell it from the databases for
//! which the holdings stand. Each law is the contract of a function that does nothing.
#![tactic(auto)]

pub mod laws;
