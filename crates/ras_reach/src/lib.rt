//! What an expression reads of its arrays, and the locks that a statement asks for, phase by phase.
#![tactic(auto)]

mod boxes;
mod calls;
mod first;
mod forms;
mod intervals;
mod keys;
mod locks;
mod moves;
mod numbers;
mod phases;
mod reached;
mod reads;
mod statics;
mod tiles;
mod variables;
mod walk;
mod writes;

pub use calls::needs;
pub use first::{NeedsFault, first_needs};
pub use phases::{body_needs, condition_needs, domain_needs};
pub use reached::{ReachedBox, reach};
