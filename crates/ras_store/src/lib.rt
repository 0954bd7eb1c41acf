//! Databases as they are kept: collections by name, arrays by identifier, tiles by place. What a
//! transaction takes of one, and what it changes.
#![tactic(auto)]

mod array;
mod change;
mod collection;
mod contents;
mod identifiers;
pub mod laws;
mod piece;
mod rows;
mod store;
mod view;
mod workload;
mod write;
mod written;

pub use change::{Change, Changes};
pub use collection::CollectionInfo;
pub use identifiers::Identifiers;
pub use piece::Piece;
pub use rows::RowSet;
pub use store::Store;
pub use view::View;
pub use workload::Workload;
pub use write::{Computed, Write};
pub use written::{NothingWritten, WrittenNames};
