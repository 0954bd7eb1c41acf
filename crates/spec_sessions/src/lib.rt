//! Sessions: how one walks through its script, which outcomes of a run are made by such walks, and in
//! which order a schedule takes their steps. `specs/` has the definitions; there is no code.
#![tactic(auto)]

pub mod worked_reports;
pub mod worked_walks;
