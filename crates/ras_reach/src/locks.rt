//! Lists of locks: each name once, in the order of names.
ghost use Rattle.std.specs.Prelude.{◌≡◌, [], length, nat_lt, IfOk, OnErr, OnOk, List};
ghost use Rattle.spec_statements.specs.Locks.{Lock, lock_list as lock_list_of, stronger, with_lock};
ghost use Rattle.ras_reach.specs.Keys.{keyed, names_kept};
ghost use Rattle.ras_reach.specs.Kept.{mode_with};

use crate::keys::{LockKey, key_of, name_of};
use ras_domain::{LockList, LockName, Mode};
use ras_syntax::MAX_LOCKS;
use std::alloc::{AllocError, Global};
use std::collections::BTreeMap;
use std::marker::Model;

/// Exclusive where one of the two is.
fn stronger_of(mode: Mode, other: Mode) -> Mode
    ensures { result ≡ stronger mode other }
{
    match mode {
        Mode::Exclusive => Mode::Exclusive,
        Mode::Shared => other,
    }
}

/// The mode that a lock is wanted in, where it may be wanted in another one too.
fn joint_mode(mode: Mode, other: Option<Mode>) -> Mode
    ensures { result ≡ mode_with mode other }
{
    match other {
        Some(other) => stronger_of(mode, other),
        None => mode,
    }
}

/// Puts a lock among the others by its key. The error is want of memory.
fn put_key(kept: &mut BTreeMap<LockKey, Mode>, name: LockName, mode: Mode) -> Result<(), AllocError>
    ensures put { (base : List Lock) → kept.old.entries ≡ keyed base
        → OnOk result (kept.new.entries ≡ keyed (with_lock (name, mode) base)) }
    ensures err { OnErr result (kept.new.entries ≡ kept.old.entries) }
{
    let key = key_of(name);
    let mode = joint_mode(mode, kept.get(&key).copied());
    let Ok(_) = kept.insert(key, mode) else {
        return Err(AllocError);
    };
    Ok(())
}

/// The list of locks by their keys. The error is want of memory.
#[tactic(auto, using(crate::proofs::KeyOrder::kept_turn, crate::proofs::KeyOrder::kept_end))]
fn in_order(alloc: Global, kept: BTreeMap<LockKey, Mode>) -> Result<LockList, AllocError>
    ensures { IfOk result (λ list. list ≡ names_kept kept.entries) }
{
    let mut list = LockList::new(alloc);
    let mut left = kept;
    while let Some((key, mode)) = left.pop_first() {
        let Ok(()) = list.push(alloc, name_of(key), mode) else {
            return Err(AllocError);
        };
    }
    Ok(list)
}

/// Locks that are wanted: each name once, exclusive where it is wanted both shared and exclusive. Contracts
/// see them as the list of these locks in the order of names. Memory is taken for each name once.
#[derive(Drop)]
pub(crate) struct LockSet {
    kept: BTreeMap<LockKey, Mode>,
}

impl Model for LockSet {
    ghost use Rattle.std.specs.Prelude.{List};
    ghost use Rattle.ras_domain.specs.declared.lock.LockName.{LockName};
    ghost use Rattle.ras_domain.specs.declared.lock.Mode.{Mode};
    ghost use Rattle.ras_reach.specs.Keys.{AreKeyed, names_kept};

    ghost Value = { List (LockName × Mode) };

    ghost view = { λ s. names_kept s.kept.entries };

    ghost invariant = { λ s. AreKeyed s.kept.entries };
}

impl LockSet {
    ghost use Rattle.ras_reach.specs.Keys.{put_before};

    /// No lock.
    pub(crate) fn new(alloc: Global) -> LockSet
        ensures { result ≡ [] }
    {
        LockSet {
            kept: BTreeMap::new(alloc),
        }
    }

    /// Puts a lock among the others. The error is want of memory.
    #[tactic(auto, using(crate::proofs::KeyOrder::keyed_again))]
    pub(crate) fn put(&mut self, name: LockName, mode: Mode) -> Result<(), AllocError>
        ensures { OnOk result (self.new ≡ with_lock (name, mode) self.old) }
    {
        put_key(&mut self.kept, name, mode)
    }

    /// Puts locks among the others, the last one first. The error is want of memory.
    #[tactic(auto, using(crate::proofs::KeyOrder::put_turn))]
    pub(crate) fn put_all(&mut self, locks: Vec<(LockName, Mode)>) -> Result<(), AllocError>
        ensures { OnOk result (self.new ≡ put_before locks.items self.old) }
    {
        let mut left = locks;
        while let Some((name, mode)) = left.pop() {
            self.put(name, mode)?;
        }
        Ok(())
    }

    /// Whether there are more than [`MAX_LOCKS`].
    #[tactic(auto, using(crate::proofs::KeyOrder::as_many_names))]
    pub(crate) fn is_too_long(&self) -> bool
        ensures { result ≡ nat_lt MAX_LOCKS (length self.now) }
    {
        self.kept.len() as u64 > MAX_LOCKS
    }

    /// The list of the locks. The error is want of memory.
    pub(crate) fn into_list(self, alloc: Global) -> Result<LockList, AllocError>
        ensures { IfOk result (λ list. list ≡ self) }
    {
        let LockSet { kept } = self;
        in_order(alloc, kept)
    }
}

/// The list of some locks: each name once, exclusive where it is wanted both shared and exclusive, in
/// the order of names. The error is want of memory.
#[tactic(auto, using(crate::proofs::KeyOrder::put_list))]
pub(crate) fn lock_list(alloc: Global, locks: Vec<(LockName, Mode)>) -> Result<LockList, AllocError>
    ensures { IfOk result (λ list. list ≡ lock_list_of locks.items) }
{
    let mut set = LockSet::new(alloc);
    set.put_all(locks)?;
    set.into_list(alloc)
}
