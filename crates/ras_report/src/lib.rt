//! Writes the report of a run: the lines of each session, and the history, an event a line. It is
//! written piece by piece, without memory. The parts that other texts share, as those of faults, are
//! public too.
#![tactic(auto)]

mod answers;
mod events;
mod faults;
mod find;
mod lines;
mod locks;
mod points;
mod refusals;
mod report;
mod values;

pub use answers::write_answer;
pub use faults::{write_cell_fault, write_check_fault, write_shape_fault, write_syntax_fault};
pub use locks::write_locks;
pub use refusals::{write_refused_line, write_setup_answer};
pub use report::write_report;
