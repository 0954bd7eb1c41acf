//! The changes that a transaction made, as the names under which it has written.
ghost use Rattle.std.specs.Prelude.{◌≡◌, ◌++◌, [], false, true, not, ◌&&◌, OnErr, OnOk, IfErr, option_map};
ghost use Rattle.std.specs.BTreeMap.{is_at};
ghost use Rattle.std.specs.Ordering.{nat_cmp};
ghost use Rattle.std.specs.Cmp.Lexicographic.{slice_cmp};
ghost use Rattle.ras_index.specs.Index.{row_major};
ghost use Rattle.ras_store.specs.Kept.{is_listed};
ghost use Rattle.law_work.specs.Written.{is_written as is_written_among, is_written_by};

use ras_domain::{LockName, Name, Point};
use ras_store::{Change, Changes, CollectionInfo, WrittenNames};
use std::alloc::{AllocError, Global};

/// Changes, in order.
#[derive(Drop)]
pub(crate) struct Written {
    pub(crate) changes: Changes,
}

impl WrittenNames for Written {
    ghost is_written = { λ written name. is_written_among written.changes name };

    fn contains(&self, name: &LockName) -> bool {
        for change in self.changes.items() {
            if writes(change, name) {
                return true;
            }
        }
        false
    }
}

/// Whether a change writes under a name.
fn writes(change: &Change, name: &LockName) -> bool
    ensures { result ≡ is_written_by change.now name.now }
{
    match change {
        Change::Collection(own, info) => match name {
            LockName::Collection(other) => is_same(own, other),
            LockName::Domain(other, oid) => is_same(own, other) && !lists(info, *oid),
            LockName::Tile(other, oid, _) => is_same(own, other) && !lists(info, *oid),
        },
        Change::Domain(own, id, _) => match name {
            LockName::Collection(_) => false,
            LockName::Domain(other, oid) => is_same(own, other) && is_same_number(*id, *oid),
            LockName::Tile(_, _, _) => false,
        },
        Change::Tile(own, id, at, _) => match name {
            LockName::Collection(_) => false,
            LockName::Domain(_, _) => false,
            LockName::Tile(other, oid, place) => {
                is_same(own, other) && is_same_number(*id, *oid) && is_same_place(at, place)
            }
        },
    }
}

/// Whether two names are the same.
fn is_same(own: &Name, other: &Name) -> bool
    ensures { result ≡ is_at (slice_cmp nat_cmp own.now) other.now }
{
    own.cmp(other).is_eq()
}

/// Whether two numbers are the same.
fn is_same_number(id: u64, oid: u64) -> bool
    ensures { result ≡ is_at (nat_cmp id) oid }
{
    id.cmp(&oid).is_eq()
}

/// Whether two places are the same.
fn is_same_place(at: &Point, place: &Point) -> bool
    ensures { result ≡ is_at (row_major at.now.items) place.now.items }
{
    at.as_slice().cmp(place.as_slice()).is_eq()
}

/// Whether an array of this identifier is listed.
fn lists(info: &Option<CollectionInfo>, oid: u64) -> bool
    ensures { result ≡ is_listed info.now oid }
{
    match info {
        Some(info) => info.oids.contains(oid),
        None => false,
    }
}

impl Written {
    /// No changes. It allocates nothing.
    pub(crate) fn new(alloc: Global) -> Written
        ensures { result.changes ≡ [] }
    {
        Written {
            changes: Changes::new(alloc),
        }
    }

    /// Puts more changes at the end. The error is want of memory, and nothing changes then.
    pub(crate) fn append(&mut self, alloc: Global, more: Changes) -> Result<(), AllocError>
        ensures ok { OnOk result (self.new.changes ≡ self.old.changes ++ more) }
        ensures err { OnErr result (self.new.changes ≡ self.old.changes) }
    {
        match self.changes.append(alloc, more) {
            Ok(()) => Ok(()),
            Err(_) => Err(AllocError),
        }
    }

    /// The changes, without copying them.
    pub(crate) fn into_changes(self) -> Changes
        ensures { result ≡ self.changes }
    {
        let Written { changes } = self;
        changes
    }
}
