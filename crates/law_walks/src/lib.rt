//! Laws of sessions that walk through their scripts while others do the same.
//!
//! Each law is the contract of a function that does nothing. `specs/` has the words.
#![tactic(auto)]

pub mod laws;
