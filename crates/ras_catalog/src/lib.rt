//! What the names of a statement stand for, and the rules of whole statements.
#![tactic(auto)]

mod bodies;
mod catalog;
mod copies;
mod fault;
mod sources;

pub use bodies::{bool_condition, result_body, whole_body, written_axes, written_body};
pub use catalog::Catalog;
pub use fault::CheckError;
pub use sources::{once_each, same_iterator};
