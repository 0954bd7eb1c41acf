use ras_domain::{List, Region};
use ras_syntax::{CellList, RowList};

/// What a statement does to one array.
#[derive(Debug, Drop)]
pub struct Write {
    /// The array's identifier.
    pub oid: u64,
    /// The domain that the array has afterwards.
    pub grown: Region,
    /// Where it is written.
    pub region: Region,
    /// The cells that are written, in row-major order.
    pub cells: CellList,
}

/// What a statement comes to before anything is stored: the rows of a select, or what is written.
#[derive(Debug, Drop)]
pub enum Computed {
    Rows(RowList),
    Writes(List<Write>),
}
