//! Laws of histories: a legal history is serializable in the order of its commits, its live
//! transactions are steady, and what was seen stays. Each law is the
//! contract of a function that does nothing.
#![tactic(auto)]

pub mod laws;
pub mod worked_histories;
