//! The core: what is kept, and the history of the transactions that led to it.
ghost use Rattle.std.specs.Prelude.{◌≡◌, ℕ, suc, [], ◌∷◌, reverse, IfOk, OnOk, OnErr, IfErr, IsTrue, Contains, count_by, false};
ghost use Rattle.std.specs.Arc.{arc_value};
ghost use Rattle.ras_domain.specs.declared.lock.LockName.{LockName as Named};
ghost use Rattle.ras_syntax.specs.declared.event.Event.TheVariants.{Aborted, Answered, Begun, GaveUp};
ghost use Rattle.ras_store.specs.Databases.{rewrites_of};
ghost use Rattle.ras_store.specs.Store.{store_kept};
ghost use Rattle.spec_statements.specs.Locks.{Lock};
ghost use Rattle.spec_histories.specs.History.{Programs, committed_database, events_of, is_closed, is_live, own_database};
ghost use Rattle.spec_histories.specs.Legal.{IsDueList, IsFree, MayFollow, is_begun, is_committed};
ghost use Rattle.spec_views.specs.Sessions.{IsIdle};
ghost use Rattle.spec_views.specs.Work.{RewritesTo};
ghost use Rattle.ras_core.specs.Asking.{ComesOfAsking, IsGrantOf};
ghost use Rattle.ras_core.specs.Journal.{is_reserved};
ghost use Rattle.ras_core.specs.States.{AreProgramsOf, IsCommitted, IsPlaceIn, IsReservedIn, IsLegalState, IsUnchanged, LeavesOthers, with_closing, with_end, with_event, with_reserved};

use crate::asked::Asked;
use crate::journal::Journal;
use ras_domain::LockList;
use ras_locks::LockTable;
use ras_store::{Changes, Piece, Store, Workload};
use ras_syntax::{Answer, Event};
use std::alloc::{AllocError, Global};
use std::marker::Model;
use std::sync::Arc;

/// The committed database, and the history of the transactions that led to it. Contracts see the
/// workload, the store, the events with the newest first, and which statements are reserved.
///
/// The history is legal at each moment, so the committed transactions are, one after another, a run
/// of one thread; the store keeps the committed database; and there is room for the end of each live
/// transaction, and for the closing of each reserved statement.
#[derive(Drop)]
pub struct Core {
    workload: Arc<Workload>,
    store: Store,
    table: LockTable,
    journal: Journal,
    begun: u32,
    committed: u32,
}

impl Model for Core {
    ghost use Rattle.std.specs.Arc.{arc_value};
    ghost use Rattle.std.specs.Coded.{codes};
    ghost use Rattle.ras_store.specs.Store.{store_kept};
    ghost use Rattle.ras_store.specs.contracts.store.Store as kept_store;
    ghost use Rattle.ras_store.specs.contracts.workload.Workload as declared_workload;
    ghost use Rattle.ras_core.specs.States.{CoreState, IsCoreOver, state_over};

    ghost Value = { CoreState };

    ghost coded = { Prim.hlevel (codes, kept_store.the_row.coded, declared_workload.the_row.coded) };

    ghost view = { λ c. state_over (arc_value c.workload) c.store c.journal };

    ghost invariant = { λ c. IsCoreOver (arc_value c.workload) (store_kept c.store) c.table c.journal c.begun c.committed };
}

impl Core {
    /// The core of a workload, over a store that keeps what the workload's base keeps. It has no
    /// events. It allocates nothing.
    pub fn new(alloc: Global, workload: Arc<Workload>, store: Store) -> Core
        requires { (name : Named) → store_kept store name ≡ store_kept (arc_value workload).base name }
        ensures { result ≡ record {
          workload = arc_value workload;
          store = store;
          history = [];
          reserved = [];
        } }
    {
        let table = LockTable::new(alloc);
        let journal = Journal::new(alloc);
        Core {
            workload,
            store,
            table,
            journal,
            begun: 0,
            committed: 0,
        }
    }

    /// The workload.
    pub fn workload(&self) -> &Workload
        ensures { result.now ≡ self.now.workload }
    {
        &self.workload
    }

    /// The events so far, the oldest first.
    pub fn events(&self) -> &[Event]
        ensures events { reverse result.now ≡ self.now.history }
        ensures run { (programs : Programs) → AreProgramsOf self.now.workload programs → IsLegalState programs self.now }
    {
        self.journal.events()
    }

    /// Begins a transaction at a statement of a session in which none is live, and makes room for its
    /// end. It gives the transaction's number. The error is want of memory, or that 2^32 - 1
    /// transactions have begun.
    pub fn begin(&mut self, alloc: Global, session: u32, statement: u32) -> Result<u32, AllocError>
        requires place { IsPlaceIn self.old.workload session statement }
        requires idle { IsIdle session self.old.history }
        ensures number { IfOk result (λ t. t ≡ suc (count_by is_begun self.old.history)) }
        ensures begun { IfOk result (λ t. self.new ≡ with_event (Begun t session statement) self.old) }
        ensures err { OnErr result (self.new ≡ self.old) }
    {
        let Some(t) = self.begun.checked_add(1) else {
            return Err(AllocError);
        };
        self.journal.begin(alloc, t, session, statement)?;
        self.begun = t;
        Ok(t)
    }

    /// Makes room for the answer or the giving up of a statement. Where there is room already, nothing
    /// changes. The error is want of memory.
    pub fn reserve(&mut self, alloc: Global, t: u32, statement: u32) -> Result<(), AllocError>
        requires { IsTrue (is_live t self.old.history) }
        ensures ok { OnOk result (self.new ≡ with_reserved t statement self.old) }
        ensures err { OnErr result (self.new ≡ self.old) }
        ensures anew { OnErr result (is_reserved t statement self.old.reserved ≡ false) }
    {
        self.journal.reserve(alloc, t, statement)
    }

    /// Asks for the locks of a list, which a statement needs in a phase. They are granted all, with what
    /// the committed database has under their names, or none. They are refused exactly where a lock of
    /// the list conflicts, and the statement is closed then. Want of memory changes nothing.
    pub fn ask(&mut self, alloc: Global, t: u32, statement: u32, phase: u8, list: LockList) -> Asked
        requires live { IsTrue (is_live t self.old.history) }
        requires reserved { IsReservedIn self.old t statement }
        requires due { (programs : Programs) → AreProgramsOf self.old.workload programs
            → IsDueList programs self.old.history t statement phase list }
        ensures { ComesOfAsking t statement phase list self.old self.new result }
    {
        let Some((place, holder)) = self.table.first_conflict(&list, t) else {
            return match self.grant(alloc, t, statement, phase, list) {
                Ok(piece) => Asked::Granted(piece),
                Err(_) => Asked::Memory,
            };
        };
        let (blocked, mode) = list.get(place);
        let Ok(recorded) = blocked.try_clone(alloc) else {
            return Asked::Memory;
        };
        let Ok(lock) = blocked.try_clone(alloc) else {
            return Asked::Memory;
        };
        let event = Event::Refused {
            t,
            statement,
            phase,
            lock: recorded,
            mode,
            holder,
        };
        self.journal.close_statement(t, statement, event);
        Asked::Refused { lock, holder }
    }

    /// Grants the locks of a list, each of which is free.
    fn grant(
        &mut self,
        alloc: Global,
        t: u32,
        statement: u32,
        phase: u8,
        list: LockList,
    ) -> Result<Piece, AllocError>
        requires live { IsTrue (is_live t self.old.history) }
        requires reserved { IsReservedIn self.old t statement }
        requires due { (programs : Programs) → AreProgramsOf self.old.workload programs
            → IsDueList programs self.old.history t statement phase list }
        requires free { (lock : Lock) → Contains list lock → IsFree self.old.history t lock }
        ensures ok { IfOk result (λ piece. IsGrantOf t statement phase list self.old self.new piece) }
        ensures err { OnErr result (self.new ≡ self.old) }
    {
        let piece = self.store.piece(alloc, &list)?;
        let granted = list.try_clone(alloc)?;
        self.table.reserve(alloc, &list, t)?;
        let event = Event::Granted {
            t,
            statement,
            phase,
            list: granted,
        };
        self.journal.add(alloc, event)?;
        self.table.grant(list, t);
        Ok(piece)
    }

    /// Answers a statement that is reserved. It takes no memory.
    pub fn finish(&mut self, t: u32, statement: u32, answer: Answer)
        requires live { IsTrue (is_live t self.old.history) }
        requires reserved { IsReservedIn self.old t statement }
        requires may { (programs : Programs) → AreProgramsOf self.old.workload programs
            → MayFollow programs self.old.history (Answered t statement answer) }
        ensures { self.new ≡ with_closing (Answered t statement answer) t statement self.old }
    {
        let event = Event::Answered {
            t,
            statement,
            answer,
        };
        self.journal.close_statement(t, statement, event);
    }

    /// Gives up a statement that is reserved. It takes no memory.
    pub fn give_up(&mut self, t: u32, statement: u32)
        requires live { IsTrue (is_live t self.old.history) }
        requires reserved { IsReservedIn self.old t statement }
        requires not_closed { is_closed statement (events_of t self.old.history) ≡ false }
        ensures { self.new ≡ with_closing (GaveUp t statement) t statement self.old }
    {
        let event = Event::GaveUp { t, statement };
        self.journal.close_statement(t, statement, event);
    }

    /// Commits a transaction: the changes make of the committed database what its answered statements
    /// make of it. It gives the commit's number. The error is want of memory; it hands the changes
    /// back, and the transaction stays live.
    pub fn commit(&mut self, alloc: Global, t: u32, changes: Changes) -> Result<u32, Changes>
        requires live { IsTrue (is_live t self.old.history) }
        requires rewrites { (programs : Programs) → AreProgramsOf self.old.workload programs
            → RewritesTo programs.types (rewrites_of changes) (committed_database programs self.old.history)
            (own_database programs self.old.history t) }
        ensures number { IfOk result (λ number. number ≡ suc (count_by is_committed self.old.history)) }
        ensures committed { IfOk result (λ number. IsCommitted t number changes self.old self.new) }
        ensures others { OnOk result (LeavesOthers self.old.workload t self.old.history self.new.history) }
        ensures err { OnErr result (IsUnchanged self.old self.new) }
        ensures changes_returned { IfErr result (λ back. back ≡ changes) }
    {
        match self.store.reserve_for(alloc, &changes) {
            Ok(()) => {
                let number = self.committed + 1;
                self.store.apply_prepared(changes);
                self.table.release_all(t);
                self.journal.end(t, Event::Committed { t, number });
                self.committed = number;
                Ok(number)
            }
            Err(_) => Err(changes),
        }
    }

    /// Aborts a transaction. It takes no memory.
    pub fn abort(&mut self, t: u32)
        requires { IsTrue (is_live t self.old.history) }
        ensures { self.new ≡ with_end (Aborted t) t self.old }
    {
        self.table.release_all(t);
        self.journal.end(t, Event::Aborted { t });
    }

    /// The store and the events, the oldest first, without copying them.
    pub fn close(self) -> (Store, Vec<Event>)
        ensures store { result.0 ≡ self.store }
        ensures events { reverse result.1.items ≡ self.history }
        ensures run { (programs : Programs) → AreProgramsOf self.workload programs → IsLegalState programs self }
    {
        let Core {
            workload: _,
            store,
            table: _,
            journal,
            begun: _,
            committed: _,
        } = self;
        (store, journal.into_events())
    }
}
