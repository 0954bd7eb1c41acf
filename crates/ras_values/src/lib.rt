//! The cells of a checked expression over the arrays of a row.
#![tactic(auto)]

mod arrays;
mod boxes;
mod error;
mod extents;
mod heads;
mod joins;
mod moves;
mod names;
mod node;
mod operations;
mod outcomes;
mod places;
mod points;
mod positions;
mod preparation;
mod statics;
mod tally;
mod walk;

pub use arrays::Arrays;
pub use error::CellError;
pub use node::{Node, Part, Position};
pub use points::Points;
pub use preparation::prepare;
pub use walk::cell;
