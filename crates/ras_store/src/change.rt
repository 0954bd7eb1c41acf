ghost use Rattle.std.specs.Prelude.{◌≡◌, [], ◌∷◌, ◌++◌, OnOk, OnErr, IfErr};

use crate::collection::CollectionInfo;
use ras_domain::{Name, Point, Region};
use ras_tile::Tile;
use std::alloc::{AllocFailed, Global};
use std::marker::Model;
use std::sync::Arc;

/// What is to be kept under the name of a lock from now on, none where nothing is.
#[derive(Drop)]
pub enum Change {
    /// Of a collection. Arrays whose identifiers aren't listed are taken out, all of them where the
    /// collection is.
    Collection(Name, Option<CollectionInfo>),
    /// The domain of the array with this object identifier.
    Domain(Name, u64, Option<Region>),
    /// The tile of that array at this place of the grid.
    Tile(Name, u64, Point, Option<Arc<Tile>>),
}

impl Change {
    ghost use Rattle.ras_store.specs.Kept.{name_changed};
    ghost use Rattle.spec_statements.specs.Locks.{collection_in};

    /// The name of the collection that is changed.
    pub(crate) fn collection(&self) -> &Name
        ensures { result.now ≡ collection_in (name_changed self.now) }
    {
        match self {
            Change::Collection(name, _) => name,
            Change::Domain(name, _, _) => name,
            Change::Tile(name, _, _, _) => name,
        }
    }
}

/// Changes, to be applied one after another. Contracts see the list of them.
#[derive(Drop)]
pub struct Changes {
    changes: Vec<Change>,
}

impl Model for Changes {
    ghost use Rattle.std.specs.Prelude.{List};
    ghost use Rattle.ras_store.specs.declared.change.Change.{Change};

    ghost Value = { List Change };

    ghost view = { λ c. c.changes.items };
}

impl Changes {
    /// No change. It allocates nothing.
    pub fn new(alloc: Global) -> Changes
        ensures { result ≡ [] }
    {
        Changes {
            changes: Vec::new(alloc),
        }
    }

    /// Puts a change at the end. Where memory is wanting, the list stays as it was and the change is
    /// handed back.
    pub fn add(&mut self, _alloc: Global, change: Change) -> Result<(), Change>
        ensures ok { OnOk result (self.new ≡ self.old ++ change ∷ []) }
        ensures err { OnErr result (self.new ≡ self.old) }
        ensures change_returned { IfErr result (λ back. back ≡ change) }
    {
        match self.changes.push(change) {
            Ok(()) => Ok(()),
            Err(AllocFailed { value }) => Err(value),
        }
    }

    /// Puts more changes at the end, in their order. Where memory is wanting, the list stays as it was and
    /// they are handed back.
    pub fn append(&mut self, _alloc: Global, more: Changes) -> Result<(), Changes>
        ensures ok { OnOk result (self.new ≡ self.old ++ more) }
        ensures err { OnErr result (self.new ≡ self.old) }
        ensures more_returned { IfErr result (λ back. back ≡ more) }
    {
        let mut more = more;
        match self.changes.append(&mut more.changes) {
            Ok(()) => Ok(()),
            Err(_) => Err(more),
        }
    }

    /// The changes, in order.
    pub fn items(&self) -> &[Change]
        ensures { result.now ≡ self.now }
    {
        self.changes.as_slice()
    }

    /// The vector of the changes, without copying them.
    pub(crate) fn into_vec(self) -> Vec<Change>
        ensures { result.items ≡ self }
    {
        let Changes { changes } = self;
        changes
    }
}
