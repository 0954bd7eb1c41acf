//! All sessions of a workload under way.
ghost use Rattle.std.specs.Prelude.{◌≡◌, ℕ, suc, ◌<◌, Bool as Truth, List as ListOf, [], length, replicate, IfOk, OnOk, MatchOption};
ghost use Rattle.std.specs.Arc.{arc_value};
ghost use Rattle.ras_core.specs.States.{AreProgramsOf};
ghost use Rattle.ras_server.specs.Running.{AreNew, ComesOfTurn, DrainsTo, FollowsBy, IsDraining, IsFollowing, IsRunning, IsSameRun, lines_in};
ghost use Rattle.ras_server.specs.Runs.{HasPrograms, IsRunTo, scripts_of};
ghost use Rattle.ras_server.specs.Turns.{IsIdleTurn};
ghost use Rattle.spec_histories.specs.History.{Programs};
ghost use Rattle.spec_sessions.specs.Outcomes.{turns_of};
ghost use Rattle.spec_sessions.specs.Walk.{Step};

use crate::stepping::step;
use ras_core::Core;
use ras_domain::List;
use ras_outcome::{AnswerLine, Outcome};
use ras_session::Session;
use ras_session::laws::other_sessions_leave_a_session_tied;
use ras_store::{Store, Workload};
use std::alloc::{AllocError, Global};
use std::sync::Arc;
use std::thread::Threads;

/// The sessions of so many scripts, before their first steps. The error is want of memory, or that there are
/// 2^32 sessions.
fn new_sessions(alloc: Global, count: usize) -> Result<Vec<Session>, AllocError>
    ensures { IfOk result (λ sessions. (length sessions.items ≡ count) × AreNew sessions.items) }
{
    let mut sessions = Vec::new(alloc);
    for place in 0..count {
        let Ok(number) = u32::try_from(place + 1) else {
            return Err(AllocError);
        };
        sessions.push(Session::new(alloc, number))?;
    }
    Ok(sessions)
}

/// The lines of each session, in order.
fn lines_of(alloc: Global, sessions: Vec<Session>) -> Result<List<List<AnswerLine>>, AllocError>
    ensures { IfOk result (λ lines. lines ≡ lines_in sessions.items) }
{
    let mut all = List::new(alloc);
    for session in sessions {
        let Ok(()) = all.push(alloc, session.into_lines()) else {
            return Err(AllocError);
        };
    }
    Ok(all)
}

/// All sessions of a workload, and the core that serves them.
#[derive(Drop)]
pub(crate) struct Running {
    core: Core,
    sessions: Vec<Session>,
}

impl Running {
    /// Before the first turn. The error is want of memory.
    pub(crate) fn new(alloc: Global, workload: Arc<Workload>) -> Result<Running, AllocError>
        ensures workload { IfOk result (λ run. run.core.workload ≡ arc_value workload) }
        ensures follows { IfOk result (λ run. IsFollowing [] run) }
    {
        let store = workload.base.try_clone(alloc)?;
        let sessions = new_sessions(alloc, workload.scripts.as_slice().len())?;
        let core = Core::new(alloc, workload, store);
        let _events = core.events();
        Ok(Running { core, sessions })
    }

    /// The turn of the session at a place: it steps once, if it isn't through, and this says whether it did.
    /// The error is want of memory.
    fn turn<Rt: Threads + Sync>(
        &mut self,
        rt: &Rt,
        alloc: Global,
        place: usize,
        workers: u32,
    ) -> Result<bool, AllocError>
        requires witness { HasPrograms self.old.core.workload }
        requires running { (walks : ListOf (ListOf Step)) × IsRunning walks self.old }
        requires place { place < length self.old.sessions.items }
        ensures { IfOk result (λ goes_on. (walks : ListOf (ListOf Step)) → IsRunning walks self.old
            → ComesOfTurn place walks self.old self.new goes_on) }
    {
        other_sessions_leave_a_session_tied();
        step(
            rt,
            alloc,
            &mut self.core,
            &mut self.sessions[place],
            workers,
        )
    }

    /// The place of the session of a number, if there is one.
    fn place_of(&self, session: u32) -> Option<usize>
        ensures { MatchOption result ((ended : ℕ → Truth) → IsIdleTurn session (length self.now.sessions.items) ended)
            (λ place. (session ≡ suc place) × (place < length self.now.sessions.items)) }
    {
        let place = (session as usize).checked_sub(1)?;
        if place < self.sessions.len() {
            Some(place)
        } else {
            None
        }
    }

    /// Takes the turn of a session so many times, or until it is through. The error is want of memory.
    fn take_turns<Rt: Threads + Sync>(
        &mut self,
        rt: &Rt,
        alloc: Global,
        session: u32,
        repeat: u32,
        workers: u32,
    ) -> Result<(), AllocError>
        requires witness { HasPrograms self.old.core.workload }
        requires following { (turns : ListOf ℕ) × IsFollowing turns self.old }
        ensures same { OnOk result (IsSameRun self.old self.new) }
        ensures follows { OnOk result (FollowsBy (replicate repeat session) self.old self.new) }
    {
        let Some(place) = self.place_of(session) else {
            return Ok(());
        };
        for _ in 0..repeat {
            if !self.turn(rt, alloc, place, workers)? {
                return Ok(());
            }
        }
        Ok(())
    }

    /// Takes the turns of a schedule. The error is want of memory.
    pub(crate) fn follow<Rt: Threads + Sync>(
        &mut self,
        rt: &Rt,
        alloc: Global,
        schedule: &[(u32, u32)],
        workers: u32,
    ) -> Result<(), AllocError>
        requires witness { HasPrograms self.old.core.workload }
        requires following { (turns : ListOf ℕ) × IsFollowing turns self.old }
        ensures same { OnOk result (IsSameRun self.old self.new) }
        ensures follows { OnOk result (FollowsBy (turns_of schedule.now) self.old self.new) }
    {
        for (session, repeat) in schedule {
            self.take_turns(rt, alloc, *session, *repeat, workers)?;
        }
        Ok(())
    }

    /// Goes with the session at a place to its end. The error is want of memory, or that it is 2^64 steps away.
    fn go_to_end<Rt: Threads + Sync>(
        &mut self,
        rt: &Rt,
        alloc: Global,
        place: usize,
        workers: u32,
    ) -> Result<(), AllocError>
        requires witness { HasPrograms self.old.core.workload }
        requires draining { (turns : ListOf ℕ) × IsDraining turns place self.old }
        requires place { place < length self.old.sessions.items }
        ensures same { OnOk result (IsSameRun self.old self.new) }
        ensures drains { OnOk result (DrainsTo place (suc place) self.old self.new) }
    {
        for _ in 0..u64::MAX {
            if !self.turn(rt, alloc, place, workers)? {
                return Ok(());
            }
        }
        Err(AllocError)
    }

    /// Goes with the sessions to their ends, one after another. The error is want of memory.
    pub(crate) fn go_to_ends<Rt: Threads + Sync>(
        &mut self,
        rt: &Rt,
        alloc: Global,
        workers: u32,
    ) -> Result<(), AllocError>
        requires witness { HasPrograms self.old.core.workload }
        requires draining { (turns : ListOf ℕ) × IsDraining turns 0 self.old }
        ensures same { OnOk result (IsSameRun self.old self.new) }
        ensures drains { OnOk result (DrainsTo 0 (length self.new.sessions.items) self.old self.new) }
    {
        let count = self.sessions.len();
        for place in 0..count {
            self.go_to_end(rt, alloc, place, workers)?;
        }
        Ok(())
    }

    /// What the run gave, once all sessions are through. The error is want of memory.
    pub(crate) fn close(self, alloc: Global) -> Result<(Outcome, Store), AllocError>
        ensures { IfOk result (λ found. (schedule : ListOf (ℕ × ℕ))
            → IsDraining (turns_of schedule) (length self.sessions.items) self
            → (programs : Programs) → AreProgramsOf self.core.workload programs
            → IsRunTo programs (scripts_of self.core.workload) schedule found.0 found.1) }
    {
        let Running { core, sessions } = self;
        let answers = lines_of(alloc, sessions)?;
        let (store, events) = core.close();
        let history = List::of(events);
        Ok((Outcome { answers, history }, store))
    }
}
