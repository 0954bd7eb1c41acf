//! One statement's way through its phases.
ghost use Rattle.std.specs.Prelude.{◌≡◌, ◌≤◌, suc, List, None, Some, option_copied, option_map};
ghost use Rattle.ras_course.specs.Courses.{ComesOf, IsComeTo};
ghost use Rattle.ras_course.specs.Steps.{IsFinish, IsHandedOut, IsStep};
ghost use Rattle.ras_rows.specs.Arrays.{holdings_in};
ghost use Rattle.ras_syntax.specs.declared.statement.Statement.{Statement as StatementSeen};
ghost use Rattle.ras_syntax.specs.declared.types.SetType.{SetType};
ghost use Rattle.spec_expressions.specs.Database.{Database};
ghost use Rattle.spec_views.specs.Holdings.{Holdings, IsSeenBy};

use ras_domain::LockList;
use ras_edges::Gate;
use ras_eval::{evaluate, passing_rows};
use ras_named::check_in_view;
use ras_reach::{first_needs, needs};
use ras_store::{Computed, RowSet, View};
use ras_syntax::{Answer, Checked, Statement, Types};
use std::alloc::Global;
use std::thread::Threads;

/// What comes of going on with a statement.
#[derive(Drop)]
pub enum Coming {
    /// It asks for the locks of a list in a phase. The list isn't empty.
    Asks { phase: u8, list: LockList },
    /// It has its answer, and writes nothing.
    Answers(Answer),
    /// It comes to what it writes.
    Writes(Computed),
    /// There is not enough memory.
    Memory,
}

/// How far a statement has come: the first phase for whose list it hasn't asked, from 1 to 5, and what is known
/// of it, its check and the rows that pass, each once it was found.
#[derive(Drop)]
pub struct Course {
    next: u8,
    checked: Option<Checked>,
    rows: Option<RowSet>,
}

impl Course {
    /// The course of a statement that hasn't asked for anything. It allocates nothing.
    pub fn new() -> Course
        ensures { result ≡ record { next = 1; checked = None; rows = None } }
    {
        Course {
            next: 1,
            checked: None,
            rows: None,
        }
    }

    /// The statement's check, once it was found.
    pub fn checked(&self) -> Option<&Checked>
        ensures { option_copied result ≡ self.now.checked }
    {
        self.checked.as_ref()
    }

    /// Goes on with a statement over what its transaction sees, which holds what the phases before the course's
    /// next one asked for: to the next list that isn't empty, or to what the statement comes to. The worker's
    /// number and the gate are those of the evaluation.
    pub fn ask<Rt: Threads + Sync, G: Gate>(
        &mut self,
        rt: &Rt,
        alloc: Global,
        types: &Types,
        statement: &Statement,
        view: &View,
        workers: u32,
        gate: &G,
    ) -> Coming
        ensures { (one other : Database) → IsComeTo types.now statement.now (holdings_in view.now) self.old one
            → IsSeenBy types.now (holdings_in view.now) statement.now self.old.next other
            → ComesOf types.now statement.now (holdings_in view.now) other self.old self.new result }
    {
        match self.past_all(rt, alloc, types, statement, view, workers, gate) {
            Ok(()) => self.finish(rt, alloc, view, workers, gate),
            Err(coming) => coming,
        }
    }

    /// Goes past the phases that are left, as long as they ask for nothing. The error is what the statement
    /// comes to before.
    fn past_all<Rt: Threads + Sync, G: Gate>(
        &mut self,
        rt: &Rt,
        alloc: Global,
        types: &Types,
        statement: &Statement,
        view: &View,
        workers: u32,
        gate: &G,
    ) -> Result<(), Coming>
        ensures { IsStep 1 5 types.now statement.now (holdings_in view.now) self.old self.new result }
    {
        self.past_first(alloc, statement)?;
        self.find_check(alloc, types, statement, view)?;
        self.past_early(alloc, 2, view)?;
        self.past_early(alloc, 3, view)?;
        self.find_rows(rt, alloc, view, workers, gate)?;
        self.past_last(alloc, view)
    }

    /// Goes past the first phase.
    fn past_first(&mut self, alloc: Global, statement: &Statement) -> Result<(), Coming>
        ensures { (types : List SetType) (holdings : Holdings) → IsStep 1 2 types statement.now holdings self.old self.new result }
    {
        if self.next != 1 {
            return Ok(());
        }
        let list = first_needs(alloc, statement)?;
        self.go_past(1, list)
    }

    /// Finds the check, unless it is known.
    fn find_check(
        &mut self,
        alloc: Global,
        types: &Types,
        statement: &Statement,
        view: &View,
    ) -> Result<(), Coming>
        ensures { IsStep 2 2 types.now statement.now (holdings_in view.now) self.old self.new result }
    {
        if self.checked.is_some() {
            return Ok(());
        }
        let checked = check_in_view(alloc, statement, types, view)?;
        drop(self.checked.replace(checked));
        Ok(())
    }

    /// Goes past the second or the third phase. No course comes to them without its check.
    fn past_early(&mut self, alloc: Global, phase: u8, view: &View) -> Result<(), Coming>
        requires some { 2 ≤ phase }
        requires within { phase ≤ 3 }
        ensures { (types : List SetType) (statement : StatementSeen)
            → IsStep phase (suc phase) types statement (holdings_in view.now) self.old self.new result }
    {
        if self.next != phase {
            return Ok(());
        }
        let Some(checked) = &self.checked else {
            return Err(Coming::Memory);
        };
        let list = needs(alloc, checked, phase, view, &RowSet::new(alloc))?;
        self.go_past(phase, list)
    }

    /// Finds the rows that pass, unless they are known. No course comes to them without its check.
    fn find_rows<Rt: Threads + Sync, G: Gate>(
        &mut self,
        rt: &Rt,
        alloc: Global,
        view: &View,
        workers: u32,
        gate: &G,
    ) -> Result<(), Coming>
        ensures { (types : List SetType) (statement : StatementSeen)
            → IsStep 4 4 types statement (holdings_in view.now) self.old self.new result }
    {
        if self.rows.is_some() {
            return Ok(());
        }
        let Some(checked) = &self.checked else {
            return Err(Coming::Memory);
        };
        let rows = passing_rows(rt, alloc, checked, view, workers, gate)?;
        drop(self.rows.replace(rows));
        Ok(())
    }

    /// Goes past the fourth phase. No course comes to it without its check and the rows that pass.
    fn past_last(&mut self, alloc: Global, view: &View) -> Result<(), Coming>
        ensures { (types : List SetType) (statement : StatementSeen)
            → IsStep 4 5 types statement (holdings_in view.now) self.old self.new result }
    {
        if self.next != 4 {
            return Ok(());
        }
        let Some(checked) = &self.checked else {
            return Err(Coming::Memory);
        };
        let Some(rows) = &self.rows else {
            return Err(Coming::Memory);
        };
        let list = needs(alloc, checked, 4, view, rows)?;
        self.go_past(4, list)
    }

    /// Goes past a phase, whose list is handed out where it isn't empty.
    fn go_past(&mut self, phase: u8, list: LockList) -> Result<(), Coming>
        requires { phase ≤ 4 }
        ensures course { self.new ≡ record { next = suc phase; checked = self.old.checked; rows = self.old.rows } }
        ensures list { IsHandedOut phase list result }
    {
        self.next = phase + 1;
        if list.is_empty() {
            return Ok(());
        }
        Err(Coming::Asks { phase, list })
    }

    /// What the statement comes to behind its phases. No course is there without its check and the rows that
    /// pass.
    fn finish<Rt: Threads + Sync, G: Gate>(
        &self,
        rt: &Rt,
        alloc: Global,
        view: &View,
        workers: u32,
        gate: &G,
    ) -> Coming
        ensures { (types : List SetType) (statement : StatementSeen)
            → IsFinish types statement (holdings_in view.now) self.now result }
    {
        let Some(checked) = &self.checked else {
            return Coming::Memory;
        };
        let Some(rows) = &self.rows else {
            return Coming::Memory;
        };
        match evaluate(rt, alloc, checked, view, rows, workers, gate) {
            Ok(Computed::Rows(rows)) => Coming::Answers(Answer::Value(rows)),
            Ok(Computed::Writes(writes)) => Coming::Writes(Computed::Writes(writes)),
            Err(stop) => Coming::from(stop),
        }
    }
}
