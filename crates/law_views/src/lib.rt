//! Laws of views: what is right for one database that a view stands for is right for each. Each law
//! is the contract of a function that does nothing.
#![tactic(auto)]

pub mod laws;
