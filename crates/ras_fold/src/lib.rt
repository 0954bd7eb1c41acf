//! Summaries of numbers and faults: exact folds that are made in pieces and merged in any grouping.
#![tactic(auto)]

mod kept;
pub mod laws;
mod number;
mod runs;
mod summary;
mod sums;
#[cfg(test)]
mod tests;

pub use summary::Summary;

/// The most numbers that may be added to one summary.
pub const MAX_NUMBERS: u32 = 16_777_216;
