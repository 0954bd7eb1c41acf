//! Why there is no cell.
ghost use Rattle.std.specs.Prelude.{◌≡◌};
ghost use Rattle.ras_values.specs.declared.error.CellError.TheVariants.{Fault, Memory};

use ras_cells::CellFault;
use std::alloc::{AllocError, AllocFailed};

/// Why an expression has no cell at a point.
#[derive(Clone, Copy, Debug, PartialEq, Eq)]
pub enum CellError {
    /// The expression has this fault there.
    Fault(CellFault),
    /// There is not enough memory.
    Memory,
}

impl From<CellFault> for CellError {
    ghost from_gives = { λ fault e. e ≡ Fault fault };

    fn from(fault: CellFault) -> CellError {
        CellError::Fault(fault)
    }
}

impl From<AllocError> for CellError {
    ghost from_gives = { λ _ e. e ≡ Memory };

    fn from(_: AllocError) -> CellError {
        CellError::Memory
    }
}

impl<T: Drop> From<AllocFailed<T>> for CellError {
    ghost from_gives = { λ _ e. e ≡ Memory };

    fn from(_: AllocFailed<T>) -> CellError {
        CellError::Memory
    }
}
