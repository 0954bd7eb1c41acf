//! Runs of a workload: all its sessions at once, step by step.
#![tactic(auto)]

mod running;
mod runs;
mod stepping;

pub use runs::{run_keeping, run_scheduled, run_shared};
