//! The rows of a checked statement as a view shows them, and their plans.
#![tactic(auto)]

mod array;
mod asked;
mod cut;
pub mod laws;
mod parts;
mod plan;
mod plans;
mod rows;
mod shaped;
mod stop;
mod writing;

pub use array::ShownArray;
pub use plan::{Plan, domains_of, plan_row};
pub use plans::plan_rows;
pub use rows::{Rows, row_of};
pub use shaped::shape_condition;
pub use stop::Stop;
pub use writing::Writing;
