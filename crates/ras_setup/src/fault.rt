//! Why a text is no workload.
ghost use Rattle.std.specs.Prelude.{◌≡◌};
ghost use Rattle.ras_setup.specs.declared.fault.Stop.TheVariants.{Memory as MemoryStop};
ghost use Rattle.ras_setup.specs.declared.fault.WorkloadRefusal.TheVariants.{Outline};
ghost use Rattle.ras_setup.specs.Runs.{refusal_of};

use ras_syntax::{Answer, SyntaxFault};
use ras_workload::WorkloadFault;
use std::alloc::AllocError;

/// Why a setup fails at a statement.
#[derive(Debug, Drop)]
pub enum SetupFault {
    /// The text is no statement.
    Syntax(SyntaxFault),
    /// It has any answer but that it is done.
    Answer(Answer),
    /// It is a session word.
    Word,
}

/// Why a text is no workload.
#[derive(Debug, Drop)]
pub enum WorkloadRefusal {
    /// The text has no outline; or there is not enough memory, for the outline or for the setup
    /// ([`WorkloadFault::Memory`]).
    Outline(WorkloadFault),
    /// The setup's statement of this number, counted from 1, is the first that isn't done.
    SetupFailed { statement: u32, fault: SetupFault },
}

impl From<WorkloadFault> for WorkloadRefusal {
    ghost from_gives = { λ fault e. e ≡ Outline fault };

    fn from(fault: WorkloadFault) -> WorkloadRefusal {
        WorkloadRefusal::Outline(fault)
    }
}

/// Why a statement of a setup isn't run.
#[derive(Debug, Drop)]
pub(crate) enum Stop {
    /// The setup fails at it.
    Fault(SetupFault),
    /// There is not enough memory.
    Memory,
}

impl From<AllocError> for Stop {
    ghost from_gives = { λ _ e. e ≡ MemoryStop };

    fn from(_: AllocError) -> Stop {
        Stop::Memory
    }
}

/// Why there is no workload where the statement of a number isn't run.
pub(crate) fn refusal(statement: u32, stop: Stop) -> WorkloadRefusal
    ensures { result ≡ refusal_of statement stop }
{
    match stop {
        Stop::Fault(fault) => WorkloadRefusal::SetupFailed { statement, fault },
        Stop::Memory => WorkloadRefusal::Outline(WorkloadFault::Memory),
    }
}
