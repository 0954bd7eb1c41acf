ghost use Rattle.std.specs.Prelude.{◌≡◌, ◌<◌, [], ◌∷◌, ◌++◌, All, IfOk, OnErr, OnOk, nat_eq};
ghost use Rattle.std.specs.List.{list_any};
ghost use Rattle.std.specs.List.Sorted.{IsStrictlySortedBy};
ghost use Rattle.std.specs.Ordering.{nat_cmp};

use std::alloc::{AllocError, Global};
use std::marker::Model;

/// The object identifiers of a collection's arrays, each once, ascending. Contracts see the list of
/// them.
#[derive(Debug, Drop)]
pub struct Identifiers {
    oids: Vec<u64>,
}

impl Model for Identifiers {
    ghost use Rattle.std.specs.Prelude.{List, ℕ};
    ghost use Rattle.std.specs.List.Sorted.{IsStrictlySortedBy};
    ghost use Rattle.std.specs.Ordering.{nat_cmp};

    ghost Value = { List ℕ };

    ghost view = { λ identifiers. identifiers.oids.items };

    ghost invariant = { λ identifiers. IsStrictlySortedBy nat_cmp identifiers.oids.items };
}

impl Identifiers {
    /// No identifiers. It allocates nothing.
    pub fn new(alloc: Global) -> Identifiers
        ensures { result ≡ [] }
    {
        Identifiers {
            oids: Vec::new(alloc),
        }
    }

    /// The identifiers in a vector, without copying them.
    pub fn of(oids: Vec<u64>) -> Identifiers
        requires { IsStrictlySortedBy nat_cmp oids.items }
        ensures { result ≡ oids.items }
    {
        Identifiers { oids }
    }

    /// The vector of the identifiers, without copying them.
    pub fn into_vec(self) -> Vec<u64>
        ensures items { result.items ≡ self }
        ensures ascending { IsStrictlySortedBy nat_cmp self }
    {
        let Identifiers { oids } = self;
        oids
    }

    /// The identifiers, ascending.
    pub fn as_slice(&self) -> &[u64]
        ensures items { result.now ≡ self.now }
        ensures ascending { IsStrictlySortedBy nat_cmp self.now }
    {
        self.oids.as_slice()
    }

    /// Puts an identifier above all others at the end. Where memory is wanting, nothing changes.
    pub fn push(&mut self, _alloc: Global, oid: u64) -> Result<(), AllocError>
        requires { All (λ other. other < oid) self.old }
        ensures ok { OnOk result (self.new ≡ self.old ++ oid ∷ []) }
        ensures err { OnErr result (self.new ≡ self.old) }
    {
        self.oids.push(oid)?;
        Ok(())
    }

    /// Whether this is one of them.
    pub fn contains(&self, oid: u64) -> bool
        ensures { result ≡ list_any (nat_eq oid) self.now }
    {
        self.oids.binary_search(&oid).is_ok()
    }

    /// A copy. The error is want of memory.
    pub fn try_clone(&self, alloc: Global) -> Result<Identifiers, AllocError>
        ensures { IfOk result (λ copy. copy ≡ self.now) }
    {
        let oids = Vec::from_slice(alloc, self.oids.as_slice())?;
        Ok(Identifiers { oids })
    }
}
