//! Operations on runs of cells. The operation is looked at once a run, faults are found by one flag
//! a block and looked for only where it is raised, and null flags are joined by themselves.
#![tactic(auto)]

mod binary;
mod blocks;
mod nulls;
mod numbers;
mod overlays;
#[cfg(test)]
mod tests;
mod unary;
mod widening;

pub use binary::run2;
pub use unary::{run_cast, run1};
pub use widening::widen;
