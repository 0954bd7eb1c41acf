ghost use Rattle.std.specs.Prelude.{◌≡◌};
ghost use Rattle.ras_workload.specs.declared.fault.WorkloadFault.TheVariants.{Memory};

use std::alloc::AllocError;

/// Why a text is no workload. Lines are counted from 1.
#[derive(Clone, Copy, Debug, PartialEq, Eq)]
pub enum WorkloadFault {
    /// A heading that isn't due, a session's name that is taken, or text outside a section.
    BadHeading { line: u64 },
    /// A type line of another form, or a type that may not be declared behind the earlier ones.
    BadType { line: u64 },
    /// The heading of one session more than there may be.
    TooManySessions { line: u64 },
    /// The first statement of a section beyond the most that there may be.
    TooManyStatements { line: u64 },
    /// No line breaks the text, but it ends without the heading `#end`.
    NoEnd,
    /// There is not enough memory.
    Memory,
}

impl From<AllocError> for WorkloadFault {
    ghost from_gives = { λ _ e. e ≡ Memory };

    fn from(_: AllocError) -> WorkloadFault {
        WorkloadFault::Memory
    }
}
