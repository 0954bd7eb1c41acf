//! What a session requests, by its place.
ghost use Rattle.std.specs.Prelude.{◌≡◌, ℕ, Bool as Truth, Option, IfOk};
ghost use Rattle.ras_syntax.specs.declared.statement.Word.TheVariants as words;
ghost use Rattle.ras_store.specs.declared.workload.Workload.{Workload as WorkloadSeen};
ghost use Rattle.spec_sessions.specs.Walk.{ending, free, inside, is_success, item_at, own, session_word};
ghost use Rattle.spec_statements.specs.Reply.{reply_of_answer};
ghost use Rattle.ras_walk.specs.Places.{closed_seen, opened_seen, session_place_of};
ghost use Rattle.ras_session.specs.declared.request.Request.TheVariants as requests;
ghost use Rattle.ras_session.specs.Prepared.{IsPreparedFor, item_read};
ghost use Rattle.ras_session.specs.Steps.{IsCourseOn, IsPreparedIn, IsTakenOut, IsWrittenOut};
ghost use Rattle.ras_session.specs.Tied.{script_in};

use crate::request::Request;
use crate::session::Session;
use ras_course::Coming;
use ras_edges::Gate;
use ras_store::{Changes, Computed, Workload};
use ras_syntax::{Answer, Types, Word};
use ras_walk::{Closed, Item, Opened};
use ras_work::Work;
use std::alloc::{AllocError, Global};
use std::mem::replace;
use std::thread::Threads;

/// Whether an answer is no fault.
fn is_good(answer: &Answer) -> bool
    ensures { result ≡ is_success (reply_of_answer answer.now) }
{
    match answer {
        Answer::Value(_) => true,
        Answer::Done(_) => true,
        Answer::Fault {
            row: _,
            point: _,
            fault: _,
        } => false,
        Answer::Shape {
            row: _,
            span: _,
            fault: _,
        } => false,
        Answer::Check { span: _, fault: _ } => false,
    }
}

impl Session {
    /// Takes the changes out of the work.
    fn take_changes(&mut self, alloc: Global) -> Changes
        ensures { IsTakenOut self.old self.new result }
    {
        let work = replace(&mut self.work, Work::new(alloc));
        work.into_changes()
    }

    /// Goes on with the statement that was read.
    fn go_on<Rt: Threads + Sync, G: Gate>(
        &mut self,
        rt: &Rt,
        alloc: Global,
        types: &Types,
        workers: u32,
        gate: &G,
    ) -> Coming
        ensures { IsCourseOn types.now self.old self.new result }
    {
        match &self.statement {
            Some(statement) => {
                self.course.ask(rt, alloc, types, statement, self.work.view(), workers, gate)
            }
            None => Coming::Memory,
        }
    }

    /// Applies what the statement writes, which is the end of it.
    fn write(&mut self, alloc: Global, t: u32, computed: Computed) -> Result<Request, AllocError>
        ensures number { self.new.number ≡ self.old.number }
        ensures written { IfOk result (IsWrittenOut t computed self.old self.new) }
    {
        let Some(checked) = self.course.checked() else {
            return Err(AllocError);
        };
        match self.work.apply(alloc, checked, computed) {
            Ok(number) => {
                self.good = true;
                Ok(Request::Finish {
                    t,
                    statement: self.next,
                    answer: Answer::Done(number),
                })
            }
            Err(_) => Err(AllocError),
        }
    }

    /// A data statement of a transaction.
    fn prepare_data<Rt: Threads + Sync, G: Gate>(
        &mut self,
        rt: &Rt,
        alloc: Global,
        workload: &Workload,
        workers: u32,
        gate: &G,
        t: u32,
    ) -> Result<Request, AllocError>
        ensures number { self.new.number ≡ self.old.number }
        ensures prepared { IfOk result (IsPreparedIn workload.now t self.old self.new) }
    {
        match self.go_on(rt, alloc, &workload.types, workers, gate) {
            Coming::Asks { phase, list } => Ok(Request::Ask {
                t,
                statement: self.next,
                phase,
                list,
            }),
            Coming::Answers(answer) => {
                self.good = is_good(&answer);
                Ok(Request::Finish {
                    t,
                    statement: self.next,
                    answer,
                })
            }
            Coming::Writes(computed) => self.write(alloc, t, computed),
            Coming::Memory => Err(AllocError),
        }
    }

    /// That a transaction begins at the next statement.
    fn begin(&self) -> Request
        ensures { result ≡ requests.Begin self.now.number self.now.next }
    {
        Request::Begin {
            session: self.number,
            statement: self.next,
        }
    }

    /// Where no transaction lives.
    pub(crate) fn prepare_free(
        &mut self,
        alloc: Global,
        workload: &Workload,
    ) -> Result<Request, AllocError>
        ensures number { self.new.number ≡ self.old.number }
        ensures prepared { IfOk result (λ request. (attempts : Option ℕ) → session_place_of self.old.place ≡ free attempts
            → IsPreparedFor workload.now self.old self.new request) }
    {
        let item = self.read(alloc, workload)?;
        match item {
            Item::End => Ok(Request::Ended),
            Item::Word(Word::Begin { retry: _ }) => Ok(self.begin()),
            Item::Data => Ok(self.begin()),
            Item::Fault(_) | Item::Word(_) => {
                self.tell(alloc, item)?;
                Ok(Request::Local)
            }
        }
    }

    /// Where a transaction is to commit that a word began. It aborts where a statement of it was bad, unless that
    /// is no matter.
    fn commit(&mut self, alloc: Global, opened: Opened, anyway: bool) -> Request
        ensures number { self.new.number ≡ self.old.number }
        ensures prepared { (workload : WorkloadSeen) (granted : Truth) → session_place_of self.old.place ≡ inside (opened_seen opened) granted
            → session_word (words.Commit anyway) ≡ item_at (script_in workload self.old.number) self.old.next
            → item_read self.old.statement ≡ session_word (words.Commit anyway) → IsPreparedFor workload self.old self.new result }
    {
        if anyway || opened.bad.is_none() {
            let changes = self.take_changes(alloc);
            Request::Commit {
                t: opened.t,
                changes,
            }
        } else {
            Request::Abort { t: opened.t }
        }
    }

    /// In a transaction that a word began.
    pub(crate) fn prepare_inside<Rt: Threads + Sync, G: Gate>(
        &mut self,
        rt: &Rt,
        alloc: Global,
        workload: &Workload,
        workers: u32,
        gate: &G,
        opened: Opened,
    ) -> Result<Request, AllocError>
        ensures number { self.new.number ≡ self.old.number }
        ensures prepared { IfOk result (λ request. (granted : Truth) → session_place_of self.old.place ≡ inside (opened_seen opened) granted
            → IsPreparedFor workload.now self.old self.new request) }
    {
        let item = self.read(alloc, workload)?;
        match item {
            Item::End | Item::Word(Word::Abort) => Ok(Request::Abort { t: opened.t }),
            Item::Word(Word::Commit { anyway }) => Ok(self.commit(alloc, opened, anyway)),
            Item::Data => self.prepare_data(rt, alloc, workload, workers, gate, opened.t),
            Item::Fault(_) | Item::Word(Word::Begin { retry: _ }) => {
                self.tell(alloc, item)?;
                Ok(Request::Local)
            }
        }
    }

    /// In a data statement's own transaction.
    pub(crate) fn prepare_own<Rt: Threads + Sync, G: Gate>(
        &mut self,
        rt: &Rt,
        alloc: Global,
        workload: &Workload,
        workers: u32,
        gate: &G,
        t: u32,
    ) -> Result<Request, AllocError>
        ensures number { self.new.number ≡ self.old.number }
        ensures prepared { IfOk result (λ request. (granted : Truth) → session_place_of self.old.place ≡ own t granted
            → IsPreparedFor workload.now self.old self.new request) }
    {
        let item = self.read(alloc, workload)?;
        match item {
            Item::Data => self.prepare_data(rt, alloc, workload, workers, gate, t),
            Item::End | Item::Fault(_) | Item::Word(_) => Err(AllocError),
        }
    }

    /// Where the statement of a transaction of its own is closed.
    pub(crate) fn prepare_ending(&mut self, alloc: Global, t: u32, closed: Closed) -> Request
        ensures number { self.new.number ≡ self.old.number }
        ensures prepared { (workload : WorkloadSeen) → session_place_of self.old.place ≡ ending t (closed_seen closed)
            → IsPreparedFor workload self.old self.new result }
    {
        match closed {
            Closed::Success => {
                let changes = self.take_changes(alloc);
                Request::Commit { t, changes }
            }
            Closed::Failure | Closed::GivenUp => Request::Abort { t },
        }
    }
}
