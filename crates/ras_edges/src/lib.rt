//! The outside as the program sees it: sources of bytes, sinks of bytes, and gates. Each fault of
//! a source or a sink raises a count that contracts can see.
#![tactic(auto)]

mod failing;
mod gate;
mod gathering;
mod holding;
mod memory;
mod piece;
mod sink;
mod source;
mod standard;

pub use failing::{FailingSink, FailingSource};
pub use gate::{Gate, GatePlace, OpenGate};
pub use gathering::GatheringSink;
pub use holding::HoldingGate;
pub use memory::{MemorySink, MemorySource};
pub use piece::{Piece, write_pieces};
pub use sink::{Sink, write_whole};
pub use source::{Failed, Source};
pub use standard::{StdSink, StdSource};

#[cfg(test)]
mod tests;
