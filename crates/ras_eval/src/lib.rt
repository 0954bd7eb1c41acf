//! Which rows of a statement pass its condition, and what the statement computes in them.
#![tactic(auto)]

mod arrays;
mod calls;
mod cells;
mod evaluation;
mod passing;
mod prepared;
mod purpose;
mod select;
mod stops;
mod writes;

pub use calls::{evaluate, passing_rows};
pub use evaluation::compute;
pub use passing::rows_that_pass;
pub use ras_store::{Computed, RowSet, Write};
