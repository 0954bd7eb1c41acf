//! Workload texts: which outline a text has or which line breaks it, which workload an outline has,
//! and the text that checks each statement. `specs/` has the definitions; there is no code.
#![tactic(auto)]

pub mod laws;
pub mod worked_outlines;
pub mod worked_workloads;
