//! Workloads of texts.
ghost use Rattle.std.specs.Prelude.{◌<◌, ◌^◌, All, length};
ghost use Rattle.ras_setup.specs.Found.{FindsPlaced, FindsWorkload};
ghost use Rattle.ras_setup.specs.Runs.{SetsUp};
ghost use Rattle.ras_workload.specs.Outlines.{outline_seen};
ghost use Rattle.spec_commands.specs.Commands.{whole_workload_of};
ghost use Rattle.spec_workloads.specs.Outline.{IsOutline};
ghost use Rattle.spec_workloads.specs.Setup.{workload_of, workload_of_outline};

use crate::base::base_of;
use crate::ended::check_end;
use crate::fault::WorkloadRefusal;
use ras_edges::Gate;
use ras_store::Workload;
use ras_workload::{Outline, read_outline};
use std::alloc::Global;
use std::thread::Threads;

/// The workload of an outline.
fn set_up<Rt: Threads + Sync, G: Gate>(
    rt: &Rt,
    alloc: Global,
    outline: Outline,
    workers: u32,
    gate: &G,
) -> Result<Workload, WorkloadRefusal>
    requires outline { IsOutline (outline_seen outline) }
    requires short { All (λ text. length text < 2 ^ 32) outline.setup }
    ensures { SetsUp (workload_of_outline (outline_seen outline)) result }
{
    let Outline {
        types,
        setup,
        scripts,
    } = outline;
    let base = base_of(rt, alloc, &types, setup.as_slice(), workers, gate)?;
    Ok(Workload {
        types,
        base,
        scripts,
    })
}

/// The workload of a text of fewer than 2^32 bytes, and the place behind the line of its heading `#end`; what
/// follows isn't looked at. The setup's statements are run one after another, each on up to so many threads. The
/// error is the first line that breaks the text, or else the first statement of the setup that isn't done; or want of
/// memory.
pub fn read_workload<Rt: Threads + Sync, G: Gate>(
    rt: &Rt,
    alloc: Global,
    text: &[u8],
    workers: u32,
    gate: &G,
) -> Result<(Workload, usize), WorkloadRefusal>
    requires { length text.now < 2 ^ 32 }
    ensures { FindsPlaced (workload_of text.now) result }
{
    let (outline, behind) = read_outline(alloc, text)?;
    let workload = set_up(rt, alloc, outline, workers, gate)?;
    Ok((workload, behind))
}

/// The workload of a whole text of fewer than 2^32 bytes: behind its heading `#end` stand blanks alone, which is
/// judged before the setup is run. The rest is as for [`read_workload`].
pub fn read_whole_workload<Rt: Threads + Sync, G: Gate>(
    rt: &Rt,
    alloc: Global,
    text: &[u8],
    workers: u32,
    gate: &G,
) -> Result<Workload, WorkloadRefusal>
    requires { length text.now < 2 ^ 32 }
    ensures { FindsWorkload (whole_workload_of text.now) result }
{
    let (outline, behind) = read_outline(alloc, text)?;
    check_end(text, behind)?;
    set_up(rt, alloc, outline, workers, gate)
}
