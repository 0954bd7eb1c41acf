//! The locks that a statement asks for, phase by phase.
ghost use Rattle.std.specs.Prelude.{◌≡◌, ◌∷◌, [], map, IfOk};
ghost use Rattle.ras_domain.specs.declared.lock.LockName.TheVariants.{Collection};
ghost use Rattle.ras_domain.specs.declared.lock.Mode.TheVariants.{Shared};
ghost use Rattle.ras_reach.specs.Needs.{GivesLocks, fault_of_stop, first_asked, limited_to};
ghost use Rattle.ras_reach.specs.declared.first.NeedsFault.TheVariants.{Memory};
ghost use Rattle.spec_statements.specs.Machine.{read_lock, wanted_at_first};

use crate::locks::lock_list;
use ras_domain::{LockList, LockName, Mode, Name};
use ras_rows::Stop;
use ras_syntax::{Answer, MAX_LOCKS, ShapeFault, SourceName, Span, Statement, StatementForm};
use std::alloc::{AllocError, AllocFailed, Global};

/// Why a phase of a statement asks for no locks.
#[derive(Debug, Drop)]
pub enum NeedsFault {
    /// The statement has this answer.
    Answer(Answer),
    /// There is not enough memory.
    Memory,
}

impl From<AllocError> for NeedsFault {
    ghost from_gives = { λ _ fault. fault ≡ Memory };

    fn from(_: AllocError) -> NeedsFault {
        NeedsFault::Memory
    }
}

impl<T: Drop> From<AllocFailed<T>> for NeedsFault {
    ghost from_gives = { λ _ fault. fault ≡ Memory };

    fn from(_: AllocFailed<T>) -> NeedsFault {
        NeedsFault::Memory
    }
}

impl From<Stop> for NeedsFault {
    ghost from_gives = { λ stop fault. fault ≡ fault_of_stop stop };

    fn from(stop: Stop) -> NeedsFault {
        match stop {
            Stop::Answer(answer) => NeedsFault::Answer(answer),
            Stop::Memory => NeedsFault::Memory,
        }
    }
}

/// The locks of a statement's first phase, which is asked for before the statement is checked: shared
/// on each source of a select and on the collection of an update, exclusive on the collection of any
/// other data statement. A session word has none. The list depends on no database.
///
/// The answer is [`ShapeFault::TooManyLocks`] for the whole text, exactly where there are more than
/// [`MAX_LOCKS`].
pub fn first_needs(alloc: Global, statement: &Statement) -> Result<LockList, NeedsFault>
    ensures { GivesLocks (first_asked statement.now) result }
{
    let wanted = first_wanted(alloc, &statement.form)?;
    let list = lock_list(alloc, wanted)?;
    limited(statement.length, list)
}

/// The list, unless it has more than [`MAX_LOCKS`] locks.
pub(crate) fn limited(length: u32, list: LockList) -> Result<LockList, NeedsFault>
    ensures { GivesLocks (limited_to length list) result }
{
    if list.len() as u64 > MAX_LOCKS {
        return Err(NeedsFault::Answer(Answer::Shape {
            row: 0,
            span: Span {
                from: 0,
                to: length,
            },
            fault: ShapeFault::TooManyLocks,
        }));
    }
    Ok(list)
}

/// The locks that a statement wants at first, in the order of its text. The error is want of memory.
fn first_wanted(alloc: Global, form: &StatementForm) -> Result<Vec<(LockName, Mode)>, AllocError>
    ensures { IfOk result (λ wanted. wanted.items ≡ wanted_at_first form.now) }
{
    match form {
        StatementForm::Select {
            body: _,
            sources,
            cond: _,
        } => read_locks(alloc, sources.as_slice()),
        StatementForm::Insert { into, body: _ } => alone(alloc, &into.name, Mode::Exclusive),
        StatementForm::Delete { source, cond: _ } => {
            alone(alloc, &source.collection.name, Mode::Exclusive)
        }
        StatementForm::Update {
            source,
            set: _,
            axes: _,
            target: _,
            body: _,
            cond: _,
        } => alone(alloc, &source.collection.name, Mode::Shared),
        StatementForm::Create { name, of: _ } => alone(alloc, &name.name, Mode::Exclusive),
        StatementForm::Drop { name } => alone(alloc, &name.name, Mode::Exclusive),
        StatementForm::Word(_) => Ok(Vec::new(alloc)),
    }
}

/// A lock on a collection, and no other. The error is want of memory.
fn alone(alloc: Global, collection: &Name, mode: Mode) -> Result<Vec<(LockName, Mode)>, AllocError>
    ensures { IfOk result (λ wanted. wanted.items ≡ (Collection collection.now, mode) ∷ []) }
{
    let name = LockName::Collection(collection.try_clone(alloc)?);
    let mut wanted = Vec::new(alloc);
    wanted.push((name, mode))?;
    Ok(wanted)
}

/// A shared lock on each source. The error is want of memory.
#[tactic(auto, using(crate::proofs::FirstLocks::reading))]
fn read_locks(alloc: Global, sources: &[SourceName]) -> Result<Vec<(LockName, Mode)>, AllocError>
    ensures { IfOk result (λ wanted. wanted.items ≡ map read_lock sources.now) }
{
    let mut wanted = Vec::new(alloc);
    for source in sources {
        let name = LockName::Collection(source.collection.name.try_clone(alloc)?);
        wanted.push((name, Mode::Shared))?;
    }
    Ok(wanted)
}
