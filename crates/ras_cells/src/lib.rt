//! Cells and what is computed on them: numbers of exact meaning, truth values, null.
#![tactic(auto)]

mod atom;
mod cell;
pub mod laws;
mod numbers;
mod operations;
mod run;
mod stored;
#[cfg(test)]
mod tests;

pub use atom::Atom;
pub use cell::{Cell, CellFault, CellType, NullSet, Numbers};
pub use numbers::{Op1, Op2, apply1_to_number, apply2_to_numbers, cast_number};
pub use operations::{apply1, apply2, cast, outcome1, outcome2};
pub use run::Run;
pub use stored::{default_cell, read_stored, to_stored};

/// The most components that a cell may have.
pub const MAX_COMPONENTS: usize = 8;

/// The most intervals that a null set may have.
pub const MAX_NULLS: usize = 8;
