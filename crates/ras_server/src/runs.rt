//! Runs by a schedule, on one thread.
ghost use Rattle.std.specs.Prelude.{IfOk};
ghost use Rattle.std.specs.Arc.{arc_value};
ghost use Rattle.ras_core.specs.States.{AreProgramsOf};
ghost use Rattle.ras_server.specs.Runs.{HasPrograms, IsRunOf, IsRunTo, scripts_of};
ghost use Rattle.spec_histories.specs.History.{Programs};

use crate::running::Running;
use ras_outcome::Outcome;
use ras_store::{Store, Workload};
use std::alloc::{AllocError, Global};
use std::sync::Arc;
use std::thread::Threads;

/// Runs all sessions of a workload by a schedule, as `run_shared` does. It also gives the committed
/// database at the end.
pub fn run_keeping<Rt: Threads + Sync>(
    rt: &Rt,
    alloc: Global,
    workload: Arc<Workload>,
    schedule: &[(u32, u32)],
    workers: u32,
) -> Result<(Outcome, Store), AllocError>
    requires witness { HasPrograms (arc_value workload) }
    ensures { IfOk result (λ found. (programs : Programs) → AreProgramsOf (arc_value workload) programs
        → IsRunTo programs (scripts_of (arc_value workload)) schedule.now found.0 found.1) }
{
    let mut run = Running::new(alloc, workload)?;
    run.follow(rt, alloc, schedule, workers)?;
    run.go_to_ends(rt, alloc, workers)?;
    run.close(alloc)
}

/// Runs all sessions of a workload by a schedule, which is a list of sessions, each with how often its turn
/// comes. At its turn a session goes one step; a number of no session, or of one that is through, is skipped.
/// Then the sessions go to their ends, one after another. The error is want of memory.
pub fn run_shared<Rt: Threads + Sync>(
    rt: &Rt,
    alloc: Global,
    workload: Arc<Workload>,
    schedule: &[(u32, u32)],
    workers: u32,
) -> Result<Outcome, AllocError>
    requires witness { HasPrograms (arc_value workload) }
    ensures { IfOk result (λ outcome. (programs : Programs) → AreProgramsOf (arc_value workload) programs
        → IsRunOf programs (scripts_of (arc_value workload)) schedule.now outcome) }
{
    let (outcome, _) = run_keeping(rt, alloc, workload, schedule, workers)?;
    Ok(outcome)
}

/// The same for a workload that is not shared.
pub fn run_scheduled<Rt: Threads + Sync>(
    rt: &Rt,
    alloc: Global,
    workload: Workload,
    schedule: &[(u32, u32)],
    workers: u32,
) -> Result<Outcome, AllocError>
    requires witness { HasPrograms workload }
    ensures { IfOk result (λ outcome. (programs : Programs) → AreProgramsOf workload programs
        → IsRunOf programs (scripts_of workload) schedule.now outcome) }
{
    let workload = Arc::new(alloc, workload)?;
    run_shared(rt, alloc, workload, schedule, workers)
}
