//! The way of one statement through its phases: what it asks for next, over what its transaction sees, and
//! what it comes to at last.
#![tactic(auto)]

mod course;
mod errors;
pub mod laws;

pub use course::{Coming, Course};
