//! The settings that a command's words give, or the first fault in them.
#![tactic(auto)]

mod command;
mod form;
pub mod laws;
mod number;
mod read;
mod schedule;
mod settings;
#[cfg(test)]
mod tests;
mod values;

pub use command::CommandName;
pub use form::OptionName;
pub use number::Numbers;
pub use read::read_words;
pub use settings::{Schedule, Settings, WordsFault};

/// The most workers that may evaluate a statement: far more than a machine has processors.
pub const MAX_WORKERS: u32 = 64;

/// The workers where no number is given.
pub const USUAL_WORKERS: u32 = 1;

/// The greatest seed of a generated workload: the greatest whole number of 31 bits.
pub const MAX_SEED: u32 = 2_147_483_647;

/// The seed where no number is given.
pub const USUAL_SEED: u32 = 1;

/// The greatest size of a generated workload, which keeps its text far below what may be read.
pub const MAX_SIZE: u32 = 1_000;

/// The size where no number is given.
pub const USUAL_SIZE: u32 = 8;

/// The greatest number of a session in a schedule: a workload has at most this many sessions.
pub const MAX_SESSION: u32 = 64;

/// The most steps of a schedule, repeats written out, so that it's soon gone through.
pub const MAX_STEPS: u32 = 1_000_000;
