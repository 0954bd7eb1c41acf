//! The grid of tiles: in which tile a point lies, which box a tile has, and which tiles a region
//! meets. And lists of tiles cut into runs, one for each worker.
#![tactic(auto)]

mod grid;
pub mod laws;
mod runs;
#[cfg(test)]
mod tests;

pub use grid::{Extents, count_meeting, tile_box, tile_of, tiles_meeting};
pub use runs::cut;
