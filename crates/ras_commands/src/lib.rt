//! What the program's commands write beside the report: the check of each statement of a workload,
//! and the line that refuses a text. Nothing is allocated once the writing has begun.
#![tactic(auto)]

mod check;
mod checks;
mod refusal;
mod write;

pub use check::check_workload;
pub use checks::{Checks, StatementCheck};
pub use refusal::write_refusal;
pub use write::write_checks;
