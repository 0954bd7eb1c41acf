//! A request, served by the core.
ghost use Rattle.std.specs.Prelude.{◌≡◌, IsTrue, OnErr, OnOk};
ghost use Rattle.ras_session.specs.Served.{IsServable, IsServed};
ghost use Rattle.ras_session.specs.declared.request.Request.TheVariants as requests;

use crate::request::{CoreReply, Request};
use ras_core::{Asked, Core};
use ras_domain::LockList;
use ras_store::Changes;
use ras_syntax::Answer;
use std::alloc::Global;

fn begin(alloc: Global, core: &mut Core, session: u32, statement: u32) -> CoreReply
    requires { IsServable core.old (requests.Begin session statement) }
    ensures { IsServed core.old core.new (requests.Begin session statement) result }
{
    match core.begin(alloc, session, statement) {
        Ok(t) => CoreReply::Begun(t),
        Err(_) => CoreReply::Memory,
    }
}

/// Makes room for the closing of the statement before it asks.
fn ask(
    alloc: Global,
    core: &mut Core,
    t: u32,
    statement: u32,
    phase: u8,
    list: LockList,
) -> CoreReply
    requires { IsServable core.old (requests.Ask t statement phase list) }
    ensures { IsServed core.old core.new (requests.Ask t statement phase list) result }
{
    let Ok(()) = core.reserve(alloc, t, statement) else {
        return CoreReply::Memory;
    };
    match core.ask(alloc, t, statement, phase, list) {
        Asked::Granted(piece) => CoreReply::Granted(piece),
        Asked::Refused { lock: _, holder: _ } => CoreReply::Refused,
        Asked::Memory => CoreReply::Memory,
    }
}

/// Makes room for the answer before it is given.
fn finish(alloc: Global, core: &mut Core, t: u32, statement: u32, answer: Answer) -> CoreReply
    requires { IsServable core.old (requests.Finish t statement answer) }
    ensures { IsServed core.old core.new (requests.Finish t statement answer) result }
{
    let Ok(()) = core.reserve(alloc, t, statement) else {
        return CoreReply::Memory;
    };
    core.finish(t, statement, answer);
    CoreReply::Finished
}

fn commit(alloc: Global, core: &mut Core, t: u32, changes: Changes) -> CoreReply
    requires { IsServable core.old (requests.Commit t changes) }
    ensures { IsServed core.old core.new (requests.Commit t changes) result }
{
    match core.commit(alloc, t, changes) {
        Ok(number) => CoreReply::Committed(number),
        Err(_) => CoreReply::Memory,
    }
}

/// Makes the core's call that a request names, with one event at most. For `Begin`, `Ask`, `Finish` and
/// `Commit` the reply may be `Memory`, and then there is no event. It never is for a `Finish` of a statement
/// for whose answer there is room.
pub fn serve(alloc: Global, core: &mut Core, request: Request) -> CoreReply
    requires { IsServable core.old request }
    ensures { IsServed core.old core.new request result }
{
    match request {
        Request::Begin { session, statement } => begin(alloc, core, session, statement),
        Request::Ask {
            t,
            statement,
            phase,
            list,
        } => ask(alloc, core, t, statement, phase, list),
        Request::Finish {
            t,
            statement,
            answer,
        } => finish(alloc, core, t, statement, answer),
        Request::GiveUp { t, statement } => {
            core.give_up(t, statement);
            CoreReply::Nothing
        }
        Request::Commit { t, changes } => commit(alloc, core, t, changes),
        Request::Abort { t } => {
            core.abort(t);
            CoreReply::Aborted
        }
        Request::Local => CoreReply::Nothing,
        Request::Ended => CoreReply::Nothing,
    }
}
