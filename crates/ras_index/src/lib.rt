//! The index of an array's tiles: a map from places of the grid to values. A place that was made
//! ready takes a value without memory.
#![tactic(auto)]

mod index;
pub mod laws;
mod room;
mod slot;
#[cfg(test)]
mod tests;

pub use index::TileIndex;
