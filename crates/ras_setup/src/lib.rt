//! Reads workloads: a text's types and sessions, and the database that its setup leaves.
#![tactic(auto)]

mod base;
mod changes;
mod ended;
mod fault;
pub mod laws;
mod read;
mod statement;

pub use fault::{SetupFault, WorkloadRefusal};
pub use read::{read_whole_workload, read_workload};
