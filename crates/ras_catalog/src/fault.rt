ghost use Rattle.std.specs.Prelude.{◌≡◌};
ghost use Rattle.ras_catalog.specs.declared.fault.CheckError.TheVariants.{Memory};

use ras_syntax::{CheckFault, Span};
use std::alloc::AllocError;

/// Why a statement was not checked.
#[derive(Clone, Copy, Debug, PartialEq, Eq)]
pub enum CheckError {
    /// Its first fault, with the part of the text that it speaks of.
    Fault { span: Span, fault: CheckFault },
    /// There is not enough memory, or a list is too long to be counted.
    Memory,
}

impl From<AllocError> for CheckError {
    ghost from_gives = { λ _ e. e ≡ Memory };

    fn from(_: AllocError) -> CheckError {
        CheckError::Memory
    }
}
