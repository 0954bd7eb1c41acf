ghost use Rattle.std.specs.Prelude.{◌≡◌, ◌<◌, [], ◌∷◌, ◌++◌, length, slice_get, Some, OnOk, OnErr, IfErr, IsTrue, ◌↔◌};

use std::alloc::{AllocFailed, Global};
use std::marker::Model;

/// Rows of a statement: the number of each, and the identifiers of its arrays, one for each source.
/// Contracts see the list of these.
#[derive(Debug, Drop)]
pub struct RowSet {
    rows: Vec<(u64, Vec<u64>)>,
}

impl Model for RowSet {
    ghost use Rattle.std.specs.Prelude.{List, ℕ, map};

    ghost Value = { List (ℕ × List ℕ) };

    ghost view = { λ set. map (λ row. (row.0, row.1.items)) set.rows.items };
}

impl RowSet {
    /// No rows. It allocates nothing.
    pub fn new(alloc: Global) -> RowSet
        ensures { result ≡ [] }
    {
        RowSet {
            rows: Vec::new(alloc),
        }
    }

    /// Puts a row at the end. Where memory is wanting, the rows stay as they were and the identifiers
    /// are handed back.
    pub fn push(&mut self, _alloc: Global, row: u64, oids: Vec<u64>) -> Result<(), Vec<u64>>
        ensures ok { OnOk result (self.new ≡ self.old ++ (row, oids.items) ∷ []) }
        ensures err { OnErr result (self.new ≡ self.old) }
        ensures oids_returned { IfErr result (λ back. back ≡ oids) }
    {
        match self.rows.push((row, oids)) {
            Ok(()) => Ok(()),
            Err(AllocFailed { value }) => {
                let (_row, oids) = value;
                Err(oids)
            }
        }
    }

    /// How many rows there are.
    pub fn len(&self) -> usize
        ensures { result ≡ length self.now }
    {
        self.rows.len()
    }

    /// Whether there is none.
    pub fn is_empty(&self) -> bool
        ensures { IsTrue result ↔ (self.now ≡ []) }
    {
        self.rows.is_empty()
    }

    /// The number of the row at this place, counted from 0, and its identifiers.
    pub fn get(&self, place: usize) -> (u64, &[u64])
        requires { place < length self.now }
        ensures { slice_get self.now place ≡ Some (result.0, result.1.now) }
    {
        let (row, oids) = &self.rows[place];
        (*row, oids.as_slice())
    }
}
