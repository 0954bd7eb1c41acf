//! The committed state of the database and the history of its events.
#![tactic(auto)]

mod asked;
mod journal;
mod state;

pub use asked::Asked;
pub use state::Core;
