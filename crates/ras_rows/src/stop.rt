//! Why the work on a statement stops.
ghost use Rattle.std.specs.Prelude.{◌≡◌};
ghost use Rattle.ras_rows.specs.Stops.{stop_of};
ghost use Rattle.ras_rows.specs.declared.stop.Stop.TheVariants.{Memory};

use ras_shape::ShapeError;
use ras_syntax::Answer;
use std::alloc::{AllocError, AllocFailed};

/// Why the work on a statement stops before its end.
#[derive(Debug, Drop)]
pub enum Stop {
    /// The statement has this answer.
    Answer(Answer),
    /// There is not enough memory.
    Memory,
}

impl From<AllocError> for Stop {
    ghost from_gives = { λ _ stop. stop ≡ Memory };

    fn from(_: AllocError) -> Stop {
        Stop::Memory
    }
}

impl<T: Drop> From<AllocFailed<T>> for Stop {
    ghost from_gives = { λ _ stop. stop ≡ Memory };

    fn from(_: AllocFailed<T>) -> Stop {
        Stop::Memory
    }
}

/// The stop at a shape fault in the row of this number.
pub(crate) fn stop_in_row(row: u64, error: ShapeError) -> Stop
    ensures { result ≡ stop_of row error }
{
    match error {
        ShapeError::Fault { span, fault } => Stop::Answer(Answer::Shape { row, span, fault }),
        ShapeError::Memory => Stop::Memory,
    }
}
