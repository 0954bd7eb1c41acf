//! The program as one call: words and bytes in, a status and bytes out.
#![tactic(auto)]

mod answer;
mod command;
mod judge;
mod read_all;
mod run;
#[cfg(test)]
mod tests;
mod texts;

pub use run::{rasq_main, rasq_quiet, refuse_memory};

/// The most bytes that are read: 64 MiB.
pub const MOST_BYTES: usize = 67_108_864;
