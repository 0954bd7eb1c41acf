//! Laws that tie a table of locks to histories. Each law is the contract of a function that does
//! nothing.
#![tactic(auto)]

pub mod laws;
