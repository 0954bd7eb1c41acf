//! The table of the locks that transactions hold.
#![tactic(auto)]

mod holders;
mod names;
mod owners;
mod table;

pub use holders::Holder;
pub use table::LockTable;
