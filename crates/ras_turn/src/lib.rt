//! A turn over a state that several threads change one after another. Who holds the turn has the
//! state; who leaves it hands the state back, with entries of its own added to the state's list.
#![tactic(auto)]

mod chronicle;
mod held;
pub mod log;
mod pass;
mod rule;
#[cfg(test)]
mod tests;
mod turn;
mod view;

pub use chronicle::Chronicle;
pub use held::Held;
pub use pass::Pass;
pub use turn::Turn;
