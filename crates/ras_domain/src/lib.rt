//! Points, boxes and lock names: the words that the other crates share.
#![tactic(auto)]

mod boxes;
pub mod laws;
mod list;
mod lock;
mod name;
mod region;
mod rows;
#[cfg(test)]
mod tests;

pub use list::List;
pub use lock::{LockList, LockName, Mode};
pub use name::{Name, Text};
pub use region::{Bounds, DomainFault, Interval, Point, Region};

/// The most axes that an array may have.
pub const MAX_AXES: usize = 6;

/// The most points that a region may have: 2^24.
pub const MAX_POINTS: u64 = 16_777_216;

/// The most cells that a tile may have.
pub const MAX_TILE_CELLS: u64 = 65_536;
