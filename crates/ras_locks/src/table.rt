//! The table of locks.
ghost use Rattle.std.specs.Prelude.{◌≡◌, ℕ, [], OnOk, MatchOption};
ghost use Rattle.std.specs.List.Sorted.{IsStrictlySortedBy};
ghost use Rattle.ras_domain.specs.declared.lock.LockName.{LockName as Named};
ghost use Rattle.ras_locks.specs.Holders.{by_owner, without_owner};
ghost use Rattle.ras_locks.specs.Tables.{holders_of, with_locks, IsReserved, AreReserved, IsFirstConflict, IsUncontested};

use crate::holders::{Holder, conflicting, holds};
use crate::names::{Names, hold_all, holders_at, let_go_all, make_room};
use crate::owners::{Owners, list_name};
use indexmap::IndexMap;
use ras_domain::{LockList, LockName};
use std::alloc::{AllocError, Global};
use std::marker::Model;

/// The locks that transactions hold: for each name its holders, each once, in the order of their
/// numbers, with the mode in which it holds the lock.
#[derive(Drop)]
pub struct LockTable {
    names: Names,
    owners: Owners,
}

impl Model for LockTable {
    ghost use Rattle.ras_locks.specs.Tables.{HeldLocks};

    ghost Value = { HeldLocks };

    ghost use Rattle.ras_locks.specs.Tables.{IsKeptTable};

    ghost view = { λ table. record { names = table.names.entries; owners = table.owners.entries } };

    ghost invariant = { λ table. IsKeptTable (record { names = table.names.entries; owners = table.owners.entries }) };
}

impl LockTable {
    /// The table in which no lock is held. It allocates nothing.
    pub fn new(alloc: Global) -> LockTable
        ensures { (name : Named) → holders_of result name ≡ [] }
    {
        LockTable {
            names: IndexMap::new(alloc),
            owners: IndexMap::new(alloc),
        }
    }

    /// The holders of a lock, each once, in the order of their numbers.
    pub fn holders(&self, name: &LockName) -> &[Holder]
        ensures holders { result.now ≡ holders_of self.now name.now }
        ensures ordered { IsStrictlySortedBy by_owner result.now }
    {
        holders_at(&self.names, name)
    }

    /// The place of the first lock of a list that conflicts with a lock of another owner than the
    /// one who asks, and the least such owner. None where no lock of the list conflicts.
    pub fn first_conflict(&self, list: &LockList, owner: u32) -> Option<(usize, u32)>
        ensures { MatchOption result (IsUncontested self.now list.now owner)
            (λ found. IsFirstConflict self.now list.now owner found.0 found.1) }
    {
        for place in 0..list.len() {
            let (name, mode) = list.get(place);
            if let Some(other) = conflicting(self.holders(name), owner, mode) {
                return Some((place, other));
            }
        }
        None
    }

    /// Makes room for an owner to hold one lock.
    fn reserve_one(&mut self, alloc: Global, name: &LockName, owner: u32) -> Result<(), AllocError>
        ensures holders { (other : Named) → holders_of self.new other ≡ holders_of self.old other }
        ensures kept { (other : Named) (asker : ℕ) → IsReserved self.old other asker → IsReserved self.new other asker }
        ensures reserved { OnOk result (IsReserved self.new name.now owner) }
    {
        if !holds(holders_at(&self.names, name), owner) {
            list_name(alloc, &mut self.owners, name, owner)?;
        }
        make_room(alloc, &mut self.names, name)
    }

    /// Makes room for an owner to hold the locks of a list, so that granting them takes no memory.
    /// All holders stay as they are, also where memory is wanting.
    pub fn reserve(&mut self, alloc: Global, list: &LockList, owner: u32) -> Result<(), AllocError>
        ensures holders { (name : Named) → holders_of self.new name ≡ holders_of self.old name }
        ensures kept { (name : Named) (asker : ℕ) → IsReserved self.old name asker → IsReserved self.new name asker }
        ensures reserved { OnOk result (AreReserved self.new list.now owner) }
    {
        for place in 0..list.len() {
            let (name, _) = list.get(place);
            self.reserve_one(alloc, name, owner)?;
        }
        Ok(())
    }

    /// Puts the locks of a list among those that an owner holds. Of a lock that it holds already,
    /// the stronger mode stays. It takes no memory.
    pub fn grant(&mut self, list: LockList, owner: u32)
        requires reserved { AreReserved self.old list owner }
        requires uncontested { IsUncontested self.old list owner }
        ensures { (name : Named) → holders_of self.new name ≡ with_locks list owner name (holders_of self.old name) }
    {
        hold_all(&mut self.names, &list, owner);
    }

    /// Takes all locks of an owner from the table. It takes no memory, and its cost grows with the
    /// locks of that owner.
    pub fn release_all(&mut self, owner: u32)
        ensures { (name : Named) → holders_of self.new name ≡ without_owner owner (holders_of self.old name) }
    {
        if let Some(listed) = self.owners.swap_remove(&owner) {
            let_go_all(&mut self.names, listed.as_slice(), owner);
        }
    }
}
