//! What a live transaction sees and changes: its view of the database, with its own writes over it.
#![tactic(auto)]

mod cells;
mod copies;
mod forms;
mod growth;
mod rows;
mod tiles;
mod work;
mod written;

pub use work::Work;
