//! The walk of a session through its script: what comes of each event, and which lines come without one.
#![tactic(auto)]

mod events;
pub mod laws;
mod lines;
mod place;

pub use events::after_event;
pub use lines::after_line;
pub use place::{Closed, Happened, Item, Opened, Place, Step};
