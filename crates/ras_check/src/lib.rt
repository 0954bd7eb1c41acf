//! The check of statements: each expression with its kind, or the first fault.
#![tactic(auto)]

mod joins;
mod laws;
mod lists;
mod names;
mod parts;
mod scope;
mod statement;
mod walk;

pub use laws::what_the_check_gives_is_well_typed;
pub use ras_catalog::CheckError;
pub use ras_shape::{Form, ShapeError, shape};
pub use scope::{Place, Scope};
pub use statement::check;
