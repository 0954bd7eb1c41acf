//! The list of events, with room for those that must not fail.
ghost use Rattle.std.specs.Prelude.{◌≡◌, ◌+◌, ◌≤◌, [], ◌∷◌, ◌++◌, IsTrue, OnErr, OnOk, false, length, vec_capacity};
ghost use Rattle.ras_core.specs.Journal.{is_listed_live, is_reserved, live_without, reserved_with, reserved_without, reserved_without_all_of};

use ras_syntax::Event;
use std::alloc::{AllocError, Global};
use std::marker::Model;

/// The events so far. There is room for one more for each transaction that is to end, and for each
/// statement that is to be closed.
#[derive(Drop)]
pub(crate) struct Journal {
    events: Vec<Event>,
    live: Vec<u32>,
    reserved: Vec<(u32, u32)>,
}

impl Model for Journal {
    ghost use Rattle.std.specs.Prelude.{ℕ, ◌+◌, ◌≤◌, length, vec_capacity};
    ghost use Rattle.ras_core.specs.Journal.{JournalState};

    ghost Value = { JournalState };

    ghost view = { λ j. record { events = j.events.items; live = j.live.items; reserved = j.reserved.items } };

    ghost invariant = { λ j. length j.events.items + length j.live.items + length j.reserved.items ≤ vec_capacity j.events };
}

impl Journal {
    /// No events. It allocates nothing.
    pub(crate) fn new(alloc: Global) -> Journal
        ensures { result ≡ record { events = []; live = []; reserved = [] } }
    {
        Journal {
            events: Vec::new(alloc),
            live: Vec::new(alloc),
            reserved: Vec::new(alloc),
        }
    }

    /// The events, the oldest first.
    pub(crate) fn events(&self) -> &[Event]
        ensures { result.now ≡ self.now.events }
    {
        self.events.as_slice()
    }

    /// The events, without copying them.
    pub(crate) fn into_events(self) -> Vec<Event>
        ensures { result.items ≡ self.events }
    {
        let Journal {
            events,
            live: _,
            reserved: _,
        } = self;
        events
    }

    /// Whether there is room for the closing of this statement.
    pub(crate) fn is_reserved(&self, t: u32, statement: u32) -> bool
        ensures { result ≡ is_reserved t statement self.now.reserved }
    {
        self.reserved
            .iter()
            .any(|one| one.0 == t && one.1 == statement)
    }

    /// Adds the begin of a transaction, and makes room for its end. The error is want of memory.
    pub(crate) fn begin(
        &mut self,
        _alloc: Global,
        t: u32,
        session: u32,
        statement: u32,
    ) -> Result<(), AllocError>
        ensures ok { OnOk result (self.new ≡ record {
          events = self.old.events ++ Event.Begun t session statement ∷ [];
          live = self.old.live ++ t ∷ [];
          reserved = self.old.reserved;
        }) }
        ensures err { OnErr result (self.new ≡ self.old) }
    {
        let promised = self.live.len() + self.reserved.len();
        self.live.reserve(1)?;
        make_room(&mut self.events, promised, 2)?;
        self.live.push_reserved(t);
        self.events.push_reserved(Event::Begun {
            t,
            session,
            statement,
        });
        Ok(())
    }

    /// Makes room for the closing of a statement, if there is none yet. The error is want of memory.
    pub(crate) fn reserve(
        &mut self,
        _alloc: Global,
        t: u32,
        statement: u32,
    ) -> Result<(), AllocError>
        ensures ok { OnOk result (self.new ≡ record self.old { reserved = reserved_with t statement self.old.reserved }) }
        ensures err { OnErr result (self.new ≡ self.old) }
        ensures anew { OnErr result (is_reserved t statement self.old.reserved ≡ false) }
    {
        if self.is_reserved(t, statement) {
            return Ok(());
        }
        self.reserve_anew(t, statement)
    }

    /// Makes room for the closing of a statement for which there is none.
    fn reserve_anew(&mut self, t: u32, statement: u32) -> Result<(), AllocError>
        ensures ok { OnOk result (self.new ≡ record self.old { reserved = self.old.reserved ++ (t, statement) ∷ [] }) }
        ensures err { OnErr result (self.new ≡ self.old) }
    {
        let promised = self.live.len() + self.reserved.len();
        self.reserved.reserve(1)?;
        make_room(&mut self.events, promised, 1)?;
        self.reserved.push_reserved((t, statement));
        Ok(())
    }

    /// Adds an event for which there is no room yet. The error is want of memory.
    pub(crate) fn add(&mut self, _alloc: Global, event: Event) -> Result<(), AllocError>
        ensures ok { OnOk result (self.new ≡ record self.old { events = self.old.events ++ event ∷ [] }) }
        ensures err { OnErr result (self.new ≡ self.old) }
    {
        let promised = self.live.len() + self.reserved.len();
        make_room(&mut self.events, promised, 1)?;
        self.events.push_reserved(event);
        Ok(())
    }

    /// Adds the event that closes a statement. It takes no memory.
    pub(crate) fn close_statement(&mut self, t: u32, statement: u32, event: Event)
        requires { IsTrue (is_reserved t statement self.old.reserved) }
        ensures { self.new ≡ record {
          events = self.old.events ++ event ∷ [];
          live = self.old.live;
          reserved = reserved_without t statement self.old.reserved;
        } }
    {
        remove_statement(&mut self.reserved, t, statement);
        self.events.push_reserved(event);
    }

    /// Adds the event that ends a transaction. It takes no memory.
    pub(crate) fn end(&mut self, t: u32, event: Event)
        requires { IsTrue (is_listed_live t self.old.live) }
        ensures { self.new ≡ record {
          events = self.old.events ++ event ∷ [];
          live = live_without t self.old.live;
          reserved = reserved_without_all_of t self.old.reserved;
        } }
    {
        remove_transaction(&mut self.live, t);
        remove_statements_of(&mut self.reserved, t);
        self.events.push_reserved(event);
    }
}

/// Makes room for more events beside those that were promised room. The error is want of memory.
fn make_room(events: &mut Vec<Event>, promised: usize, more: usize) -> Result<(), AllocError>
    ensures items { events.new.items ≡ events.old.items }
    ensures capacity { vec_capacity events.old ≤ vec_capacity events.new }
    ensures ok { OnOk result (length events.new.items + promised + more ≤ vec_capacity events.new) }
{
    match promised.checked_add(more) {
        Some(additional) => events.reserve(additional),
        None => Err(AllocError),
    }
}

fn remove_transaction(live: &mut Vec<u32>, t: u32)
    ensures { live.new.items ≡ live_without t live.old.items }
{
    live.retain(|other| *other != t);
}

fn remove_statement(reserved: &mut Vec<(u32, u32)>, t: u32, statement: u32)
    ensures { reserved.new.items ≡ reserved_without t statement reserved.old.items }
{
    reserved.retain(|one| !(one.0 == t && one.1 == statement));
}

fn remove_statements_of(reserved: &mut Vec<(u32, u32)>, t: u32)
    ensures { reserved.new.items ≡ reserved_without_all_of t reserved.old.items }
{
    reserved.retain(|one| one.0 != t);
}
