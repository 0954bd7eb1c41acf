//! Steps of a session's walk.
ghost use Rattle.std.specs.Prelude.{◌≡◌, false, IfOk, OnOk, List as ListOf, ◌∷◌};
ghost use Rattle.spec_histories.specs.History.{History, Programs};
ghost use Rattle.spec_sessions.specs.Walk.{ReadScript, Step as StepOf, first_live, item_at, live_in, quiet};
ghost use Rattle.ras_walk.specs.Places.{item_seen, session_place_of};
ghost use Rattle.ras_session.specs.Steps.{IsAdvanced, IsLineAdded};
ghost use Rattle.ras_session.specs.Tied.{IsTied};

use crate::session::Session;
use ras_course::Course;
use ras_outcome::{AnswerLine, SessionAnswer};
use ras_walk::{Item, Place, Step, after_line};
use std::alloc::{AllocError, Global};
use std::mem::replace;

/// The transaction that lives at a place.
fn live_at(place: Place) -> Option<u32>
    ensures { result ≡ live_in (session_place_of place) }
{
    match place {
        Place::Free { attempts: _ } => None,
        Place::Lost => None,
        Place::Inside { opened, granted: _ } => Some(opened.t),
        Place::Leaving { opened } => Some(opened.t),
        Place::Own { t, granted: _ } => Some(t),
        Place::Ending { t, closed: _ } => Some(t),
    }
}

/// The transaction of a line: the one that lives before its step, or behind it where that begins one.
fn transaction_of(before: Place, after: Place) -> u32
    ensures { result ≡ first_live (live_in (session_place_of before)) (live_in (session_place_of after)) }
{
    match live_at(before) {
        Some(t) => t,
        None => live_at(after).unwrap_or(0),
    }
}

impl Session {
    /// Adds the line of a step. The error is want of memory, of which the line may tell too.
    fn add_line(
        &mut self,
        alloc: Global,
        answer: SessionAnswer,
        after: Place,
    ) -> Result<(), AllocError>
        ensures number { self.new.number ≡ self.old.number }
        ensures added { OnOk result (IsLineAdded self.old self.new answer after) }
    {
        if let SessionAnswer::Memory = answer {
            return Err(AllocError);
        }
        let line = AnswerLine {
            statement: self.next,
            transaction: transaction_of(self.place, after),
            answer,
        };
        match self.lines.push(alloc, line) {
            Ok(()) => Ok(()),
            Err(_) => Err(AllocError),
        }
    }

    /// Goes a step on, to the beginning of a statement. The error is want of memory, of which the step's line may
    /// tell too.
    pub(crate) fn advance(&mut self, alloc: Global, step: Step) -> Result<(), AllocError>
        ensures number { self.new.number ≡ self.old.number }
        ensures advanced { OnOk result (IsAdvanced self.old self.new step) }
    {
        if let Some(answer) = step.answer {
            self.add_line(alloc, answer, step.place)?;
        }
        if step.next != self.next {
            drop(self.statement.take());
        }
        self.next = step.next;
        self.place = step.place;
        drop(replace(&mut self.course, Course::new()));
        Ok(())
    }

    /// Tells a line without an event. The error is want of memory, or that there are 2^32 - 1 statements before.
    pub(crate) fn tell(&mut self, alloc: Global, item: Item) -> Result<(), AllocError>
        ensures number { self.new.number ≡ self.old.number }
        ensures told { OnOk result ((programs : Programs) (script : ReadScript) (past : History) (steps : ListOf StepOf)
            → item_seen item ≡ item_at script self.old.next → IsTied programs script past steps self.old
            → IsTied programs script past (quiet false ∷ steps) self.new) }
    {
        if self.next == u32::MAX {
            return Err(AllocError);
        }
        match after_line(self.next, item, self.place, false) {
            Some(step) => self.advance(alloc, step),
            None => Err(AllocError),
        }
    }
}
