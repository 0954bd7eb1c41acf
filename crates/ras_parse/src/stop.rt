ghost use Rattle.std.specs.Prelude.{◌≡◌};
ghost use Rattle.ras_parse.specs.declared.stop.Stop.TheVariants.{Memory};

use std::alloc::AllocError;

/// Why a production was not read.
#[derive(Clone, Copy, Debug, PartialEq, Eq)]
pub enum Stop {
    /// The next token is wrong.
    Unexpected,
    /// There is not enough memory.
    Memory,
}

impl From<AllocError> for Stop {
    ghost from_gives = { λ _ e. e ≡ Memory };

    fn from(_: AllocError) -> Stop {
        Stop::Memory
    }
}
