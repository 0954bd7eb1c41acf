ghost use Rattle.std.specs.Prelude.{◌≡◌, ◌<◌, [], ◌∷◌, ◌++◌, length, slice_get, Some, OnOk, OnErr, IfOk, IfErr, IsTrue, ◌↔◌};

use crate::name::Name;
use crate::region::Point;
use std::alloc::{AllocError, AllocFailed, Global};
use std::marker::Model;

/// What a lock is on.
#[derive(Debug, PartialEq, Eq, Hash, Drop)]
pub enum LockName {
    /// Whether a collection exists, its set type and its members.
    Collection(Name),
    /// The domain of the array with this object identifier.
    Domain(Name, u64),
    /// The tile of that array at this place of the grid.
    Tile(Name, u64, Point),
}

/// How a lock is held: any number of owners may share it, and one alone may hold it exclusively.
#[derive(Clone, Copy, Debug, PartialEq, Eq)]
pub enum Mode {
    Shared,
    Exclusive,
}

/// The locks of one phase with their modes, in order. Contracts see it as the list of these pairs.
#[derive(Debug, Drop)]
pub struct LockList {
    locks: Vec<(LockName, Mode)>,
}

impl Model for LockList {
    ghost use Rattle.std.specs.Prelude.{List};
    ghost use Rattle.ras_domain.specs.declared.lock.LockName.{LockName};
    ghost use Rattle.ras_domain.specs.declared.lock.Mode.{Mode};

    ghost Value = { List (LockName × Mode) };

    ghost view = { λ l. l.locks.items };
}

impl LockList {
    /// The empty list. It allocates nothing.
    pub fn new(alloc: Global) -> LockList
        ensures { result ≡ [] }
    {
        LockList {
            locks: Vec::new(alloc),
        }
    }

    /// Puts a lock at the end. Where memory is wanting, the list stays as it was and the lock is
    /// handed back with its mode.
    pub fn push(
        &mut self,
        _alloc: Global,
        lock: LockName,
        mode: Mode,
    ) -> Result<(), (LockName, Mode)>
        ensures ok { OnOk result (self.new ≡ self.old ++ (lock, mode) ∷ []) }
        ensures err { OnErr result (self.new ≡ self.old) }
        ensures lock_returned { IfErr result (λ back. back ≡ (lock, mode)) }
    {
        match self.locks.push((lock, mode)) {
            Ok(()) => Ok(()),
            Err(AllocFailed { value }) => Err(value),
        }
    }

    /// How many locks there are.
    pub fn len(&self) -> usize
        ensures { result ≡ length self.now }
    {
        self.locks.len()
    }

    /// Whether there is no lock.
    pub fn is_empty(&self) -> bool
        ensures { IsTrue result ↔ (self.now ≡ []) }
    {
        self.locks.is_empty()
    }

    /// The lock at this place, counted from 0, and its mode.
    pub fn get(&self, place: usize) -> (&LockName, Mode)
        requires { place < length self.now }
        ensures { slice_get self.now place ≡ Some (result.0.now, result.1) }
    {
        let (lock, mode) = &self.locks[place];
        (lock, *mode)
    }

    /// A copy. The error is want of memory.
    pub fn try_clone(&self, alloc: Global) -> Result<LockList, AllocError>
        ensures { IfOk result (λ copy. copy ≡ self.now) }
    {
        let mut locks = Vec::with_capacity(alloc, self.locks.len())?;
        for (lock, mode) in &self.locks {
            locks.push((lock.try_clone(alloc)?, *mode))?;
        }
        Ok(LockList { locks })
    }
}

impl LockName {
    /// A copy. The error is want of memory.
    pub fn try_clone(&self, alloc: Global) -> Result<LockName, AllocError>
        ensures { IfOk result (λ copy. copy ≡ self.now) }
    {
        match self {
            LockName::Collection(name) => Ok(LockName::Collection(name.try_clone(alloc)?)),
            LockName::Domain(name, oid) => Ok(LockName::Domain(name.try_clone(alloc)?, *oid)),
            LockName::Tile(name, oid, place) => {
                let name = name.try_clone(alloc)?;
                Ok(LockName::Tile(name, *oid, place.clone()?))
            }
        }
    }
}
