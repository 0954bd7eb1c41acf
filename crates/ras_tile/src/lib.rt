//! Tiles, the unit of storage: boxes of points with a list of numbers at each point.
#![tactic(auto)]

mod lane;
pub mod laws;
mod plane;
mod planes;
mod rows;
#[cfg(test)]
mod tests;
mod tile;

pub use tile::Tile;
