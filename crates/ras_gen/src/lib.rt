//! Generated workloads: a seed and a size give the text of a large workload, and the same
//! text each time.
#![tactic(auto)]

mod draws;
pub mod laws;
mod square;
#[cfg(test)]
mod tests;
mod workload;

pub use draws::MAX_SEED;
pub use workload::{MAX_SIZE, SESSIONS, workload_text};
