//! The check of a statement over the collections that a store or a view has.
#![tactic(auto)]

mod check;
mod collections;
mod named;

pub use check::{check_in_store, check_in_view, check_over};
pub use collections::Collections;
