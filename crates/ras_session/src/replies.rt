//! What a reply makes of a session.
ghost use Rattle.std.specs.Prelude.{◌≡◌, IfOk, OnOk};
ghost use Rattle.ras_walk.specs.Places.{item_seen};
ghost use Rattle.ras_session.specs.Prepared.{item_read};
ghost use Rattle.ras_session.specs.Replied.{IsGoneOn, IsGoneOnAnew, IsGoneOnWith, IsStepFor};

use crate::reading::item_of;
use crate::session::Session;
use ras_store::Piece;
use ras_syntax::Statement;
use ras_walk::{Happened, Item, Step, after_event};
use ras_work::Work;
use std::alloc::{AllocError, Global};
use std::mem::replace;

/// What comes next, where that was read.
fn item_next(read: &Option<Statement>) -> Item
    ensures { item_seen result ≡ item_read read.now }
{
    match read {
        Some(statement) => item_of(statement),
        None => Item::End,
    }
}

impl Session {
    /// The step that an event makes. The error is that there is none, or that there are 2^32 - 1 statements
    /// before.
    fn step_by(&self, event: Happened) -> Result<Step, AllocError>
        ensures { IfOk result (λ step. IsStepFor self.now event step) }
    {
        if self.next == u32::MAX {
            return Err(AllocError);
        }
        match after_event(self.next, item_next(&self.statement), self.place, event) {
            Some(step) => Ok(step),
            None => Err(AllocError),
        }
    }

    /// Goes on by an event, to the beginning of a statement. The error is want of memory, of which the step's
    /// line may tell too.
    pub(crate) fn go_on_by(&mut self, alloc: Global, event: Happened) -> Result<(), AllocError>
        ensures number { self.new.number ≡ self.old.number }
        ensures gone { OnOk result (IsGoneOn self.old self.new event) }
    {
        let step = self.step_by(event)?;
        self.advance(alloc, step)
    }

    /// Goes on by an event with which a transaction begins or ends, and so with a new work.
    pub(crate) fn go_on_anew(&mut self, alloc: Global, event: Happened) -> Result<(), AllocError>
        ensures number { self.new.number ≡ self.old.number }
        ensures gone { OnOk result (IsGoneOnAnew self.old self.new event) }
    {
        self.go_on_by(alloc, event)?;
        drop(replace(&mut self.work, Work::new(alloc)));
        Ok(())
    }

    /// Goes on by a grant, and takes its piece into the work. The error is want of memory.
    pub(crate) fn take_granted(&mut self, alloc: Global, piece: Piece) -> Result<(), AllocError>
        ensures number { self.new.number ≡ self.old.number }
        ensures gone { OnOk result (IsGoneOnWith self.old self.new piece) }
    {
        let step = self.step_by(Happened::Granted)?;
        let Ok(()) = self.work.take_piece(alloc, piece) else {
            return Err(AllocError);
        };
        self.place = step.place;
        Ok(())
    }
}
