//! What a statement of a setup changes.
ghost use Rattle.std.specs.Prelude.{◌≡◌, List, [], OnOk};
ghost use Rattle.ras_domain.specs.declared.lock.LockName.{LockName as Named};
ghost use Rattle.ras_course.specs.Courses.{IsWritten};
ghost use Rattle.ras_course.specs.declared.course.Course.{Course as CourseSeen};
ghost use Rattle.ras_rows.specs.Arrays.{holdings_in};
ghost use Rattle.ras_setup.specs.Runs.{AnswersBy, IsChangedBy, Takes};
ghost use Rattle.ras_store.specs.Databases.{Keeps};
ghost use Rattle.ras_store.specs.Store.{store_kept};
ghost use Rattle.ras_syntax.specs.declared.statement.Statement.{Statement as StatementSeen};
ghost use Rattle.ras_syntax.specs.declared.types.SetType.{SetType};
ghost use Rattle.ras_work.specs.Works.{work_changes, work_kept};
ghost use Rattle.spec_expressions.specs.Database.{Database};
ghost use Rattle.spec_statements.specs.ReachLaw.{IsSetting};
ghost use Rattle.spec_statements.specs.Reply.{reply_of_answer};

use crate::fault::{SetupFault, Stop};
use ras_course::{Coming, Course};
use ras_domain::LockList;
use ras_edges::Gate;
use ras_store::{Changes, Computed, Store};
use ras_syntax::{Answer, Statement, Types};
use ras_work::Work;
use std::alloc::{AllocError, Global};
use std::thread::Threads;

/// How often a statement is asked at most: it asks for a list in each of four phases, and then comes to its end.
const MOST_ASKED: u32 = 5;

/// Takes what a store has under the names of a list into a work that changed nothing. The error is want of
/// memory.
fn take(alloc: Global, store: &Store, list: &LockList, work: &mut Work) -> Result<(), AllocError>
    requires { work_changes work.old ≡ [] }
    ensures taken { OnOk result (Takes (store_kept store.now) list.now (work_kept work.old) (work_kept work.new)) }
    ensures changes { work_changes work.new ≡ [] }
{
    let piece = store.piece(alloc, list)?;
    match work.take_piece(alloc, piece) {
        Ok(()) => Ok(()),
        Err(piece) => {
            drop(piece);
            Err(AllocError)
        }
    }
}

/// The changes of a statement that writes nothing: none where it is done.
fn changes_of_answer(alloc: Global, answer: Answer) -> Result<Changes, Stop>
    ensures { AnswersBy (reply_of_answer answer) result }
{
    if let Answer::Done(_) = &answer {
        drop(answer);
        return Ok(Changes::new(alloc));
    }
    Err(Stop::Fault(SetupFault::Answer(answer)))
}

/// The changes of what a statement writes, which has come to the end of its course.
fn changes_of_writes(
    alloc: Global,
    work: Work,
    course: &Course,
    computed: Computed,
) -> Result<Changes, Stop>
    requires { work_changes work ≡ [] }
    ensures { (types : List SetType) (statement : StatementSeen) (database : Database) (old : CourseSeen)
        → IsSetting types statement database
        → IsWritten types statement (holdings_in work.view) database old course.now computed
        → IsChangedBy types statement database result }
{
    let Some(checked) = course.checked() else {
        return Err(Stop::Memory);
    };
    let mut work = work;
    match work.apply(alloc, checked, computed) {
        Ok(_) => Ok(work.into_changes()),
        Err(computed) => {
            drop(computed);
            Err(Stop::Memory)
        }
    }
}

/// The changes of a statement over the database that a store keeps, where the statement is done. The store
/// stays as it is.
pub(crate) fn changes_of<Rt: Threads + Sync, G: Gate>(
    rt: &Rt,
    alloc: Global,
    types: &Types,
    statement: &Statement,
    store: &Store,
    workers: u32,
    gate: &G,
) -> Result<Changes, Stop>
    ensures { (database : Database) → IsSetting types.now statement.now database
        → Keeps types.now (store_kept store.now) database
        → IsChangedBy types.now statement.now database result }
{
    let mut course = Course::new();
    let mut work = Work::new(alloc);
    for _ in 0..MOST_ASKED {
        match course.ask(rt, alloc, types, statement, work.view(), workers, gate) {
            Coming::Asks { phase: _, list } => take(alloc, store, &list, &mut work)?,
            Coming::Answers(answer) => return changes_of_answer(alloc, answer),
            Coming::Writes(computed) => return changes_of_writes(alloc, work, &course, computed),
            Coming::Memory => return Err(Stop::Memory),
        }
    }
    Err(Stop::Memory)
}
