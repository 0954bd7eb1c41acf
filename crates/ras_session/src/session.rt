//! A session that walks through its script.
ghost use Rattle.std.specs.Prelude.{◌≡◌, List as ListOf, [], IfOk, IsTrue, OnOk, Some};
ghost use Rattle.ras_syntax.specs.declared.types.Script.{Script};
ghost use Rattle.ras_store.specs.declared.workload.Workload.{Workload as WorkloadSeen};
ghost use Rattle.spec_histories.specs.History.{History, Programs, nth};
ghost use Rattle.spec_sessions.specs.Outcomes.{IsWholeWalkOf};
ghost use Rattle.spec_sessions.specs.Walk.{ReadScript, Step, is_over};
ghost use Rattle.ras_core.specs.States.{AreProgramsOf, CoreState, IsLegalState};
ghost use Rattle.ras_session.specs.Prepared.{IsPreparedFor, IsPreparedRequest, StepsTo};
ghost use Rattle.ras_session.specs.Served.{IsServed};
ghost use Rattle.ras_session.specs.Tied.{IsTied, script_in, walked_by};
ghost use Rattle.ras_session.specs.declared.request.Request.{Request as RequestSeen};

use crate::request::{CoreReply, Request};
use ras_course::Course;
use ras_domain::List;
use ras_edges::Gate;
use ras_outcome::AnswerLine;
use ras_store::Workload;
use ras_syntax::Statement;
use ras_walk::{Happened, Place};
use ras_work::Work;
use std::alloc::{AllocError, Global};
use std::thread::Threads;

/// A session: how far it has walked through its script, its lines so far, and the work of its transaction
/// that lives. Each call is handed the workload that the script is part of.
#[derive(Drop)]
pub struct Session {
    /// Its number among the workload's scripts, counted from 1.
    pub(crate) number: u32,
    /// The number of the next statement, counted from 1.
    pub(crate) next: u32,
    pub(crate) place: Place,
    pub(crate) lines: List<AnswerLine>,
    pub(crate) work: Work,
    pub(crate) course: Course,
    /// The next statement, once it was read.
    pub(crate) statement: Option<Statement>,
    /// Whether the answer that was requested last is no fault.
    pub(crate) good: bool,
}

impl Session {
    /// The session of a workload's script of this number, before its first step. It allocates nothing.
    pub fn new(alloc: Global, number: u32) -> Session
        ensures number { result.number ≡ number }
        ensures tied { (programs : Programs) (workload : WorkloadSeen) (script : Script) → AreProgramsOf workload programs
            → nth number workload.scripts ≡ Some script → IsTied programs (script_in workload number) [] [] result }
    {
        Session {
            number,
            next: 1,
            place: Place::Free { attempts: None },
            lines: List::new(alloc),
            work: Work::new(alloc),
            course: Course::new(),
            statement: None,
            good: false,
        }
    }

    /// The request of its next step. A line that comes without an event is told by this call, which then
    /// answers `Local`. `Ended` comes exactly where the walk is over. The error is want of memory; it ends the
    /// run.
    pub fn prepare<Rt: Threads + Sync, G: Gate>(
        &mut self,
        rt: &Rt,
        alloc: Global,
        workload: &Workload,
        workers: u32,
        gate: &G,
    ) -> Result<Request, AllocError>
        ensures number { self.new.number ≡ self.old.number }
        ensures prepared { IfOk result (IsPreparedFor workload.now self.old self.new) }
    {
        match self.place {
            Place::Free { attempts: _ } => self.prepare_free(alloc, workload),
            Place::Lost => Err(AllocError),
            Place::Inside { opened, granted: _ } => {
                self.prepare_inside(rt, alloc, workload, workers, gate, opened)
            }
            Place::Leaving { opened } => Ok(Request::Abort { t: opened.t }),
            Place::Own { t, granted: _ } => {
                self.prepare_own(rt, alloc, workload, workers, gate, t)
            }
            Place::Ending { t, closed } => Ok(self.prepare_ending(alloc, t, closed)),
        }
    }

    /// Takes the reply to the last request: it steps, and where locks were granted the piece is taken into the
    /// work. The error is want of memory, also where the reply is that; it ends the run.
    pub fn take_reply(&mut self, alloc: Global, reply: CoreReply) -> Result<(), AllocError>
        ensures number { self.new.number ≡ self.old.number }
        ensures stepped { (programs : Programs) (script : ReadScript) (old new : CoreState) (steps : ListOf Step) (request : RequestSeen)
            → AreProgramsOf old.workload programs → IsLegalState programs old → IsLegalState programs new
            → IsPreparedRequest programs script old.history steps self.old request → IsServed old new request reply
            → OnOk result (StepsTo programs script old.history new.history steps request self.new) }
    {
        match reply {
            CoreReply::Begun(t) => self.go_on_anew(alloc, Happened::Begun { t }),
            CoreReply::Granted(piece) => self.take_granted(alloc, piece),
            CoreReply::Refused => self.go_on_by(alloc, Happened::Refused),
            CoreReply::Finished => self.go_on_by(alloc, Happened::Answered { good: self.good }),
            CoreReply::Committed(n) => self.go_on_anew(alloc, Happened::Committed { n }),
            CoreReply::Aborted => self.go_on_anew(alloc, Happened::Aborted),
            CoreReply::Memory => Err(AllocError),
            CoreReply::Nothing => Ok(()),
        }
    }

    /// Its lines, which are those of its whole walk once that is over.
    pub fn into_lines(self) -> List<AnswerLine>
        ensures lines { result ≡ self.lines }
        ensures whole { (programs : Programs) (script : ReadScript) (past : History) (steps : ListOf Step)
            → IsTied programs script past steps self → IsTrue (is_over script (walked_by self).state)
            → IsWholeWalkOf self.number script past result steps }
    {
        self.lines
    }
}
