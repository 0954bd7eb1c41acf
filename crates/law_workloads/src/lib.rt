//! Laws of workloads: what a text's workload has, whatever the text.
//!
//! Each law is the contract of a function that does nothing. `specs/` of `spec_workloads` has the words.
#![tactic(auto)]

pub mod laws;
