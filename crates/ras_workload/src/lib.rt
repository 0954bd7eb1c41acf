//! Reads workload texts: the types that a text declares and the statements of its setup and of its
//! sessions, or the first line that breaks it.
#![tactic(auto)]

mod cells;
mod drafts;
mod fault;
mod headings;
mod intervals;
mod lines;
mod nulls;
mod outline;
mod piece;
mod pieces;
mod scripts;
mod section;
mod sections;
mod tile_extents;
mod type_lines;
mod type_parts;
mod type_tokens;
mod types;

pub use fault::WorkloadFault;
pub use outline::{Outline, read_outline};
