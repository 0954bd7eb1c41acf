//! The shape of a checked expression over domains, or its first shape fault.
#![tactic(auto)]

pub mod common;
pub mod concat;
pub mod cuts;
pub mod domains;
pub mod form;
pub mod joins;
pub mod look;
mod shapes;
pub mod shift;
pub mod sizes;
mod walk;
pub mod ways;

pub use cuts::Cut;
pub use form::{Form, ShapeError};
pub use shapes::{index_cuts, shape};
