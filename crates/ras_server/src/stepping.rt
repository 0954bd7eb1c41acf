//! One step of one session.
ghost use Rattle.std.specs.Prelude.{◌≡◌, List as ListOf, IfOk, not};
ghost use Rattle.ras_server.specs.Requests.{is_ended};
ghost use Rattle.ras_server.specs.Running.{ComesOfStep, IsReady};
ghost use Rattle.ras_server.specs.Runs.{HasPrograms};
ghost use Rattle.spec_sessions.specs.Walk.{Step};

use ras_core::Core;
use ras_edges::OpenGate;
use ras_session::laws::prepared_requests_may_be_served;
use ras_session::{Request, Session, serve};
use std::alloc::{AllocError, Global};
use std::thread::Threads;

/// Whether nothing more is requested.
fn is_end(request: &Request) -> bool
    ensures { result ≡ is_ended request.now }
{
    matches!(request, Request::Ended)
}

/// A session steps once, if it isn't through, and says whether it did. The error is want of memory.
pub(crate) fn step<Rt: Threads + Sync>(
    rt: &Rt,
    alloc: Global,
    core: &mut Core,
    session: &mut Session,
    workers: u32,
) -> Result<bool, AllocError>
    requires witness { HasPrograms core.old.workload }
    requires ready { (steps : ListOf Step) × IsReady core.old steps session.old }
    ensures { IfOk result (λ goes_on. (steps : ListOf Step) → IsReady core.old steps session.old
        → ComesOfStep core.old core.new session.old steps session.new goes_on) }
{
    let request = session.prepare(rt, alloc, core.workload(), workers, &OpenGate)?;
    let ended = is_end(&request);
    prepared_requests_may_be_served();
    let reply = serve(alloc, core, request);
    let _events = core.events();
    session.take_reply(alloc, reply)?;
    Ok(!ended)
}
