//! Laws of sessions: what every walk of a script has.
//!
//! Each law is the contract of a function that does nothing. `specs/` of `spec_sessions` has the words.
#![tactic(auto)]

pub mod laws;
