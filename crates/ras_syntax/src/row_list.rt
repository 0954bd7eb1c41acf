ghost use Rattle.std.specs.Prelude.{◌≡◌, ◌<◌, [], ◌∷◌, ◌++◌, length, slice_get, Some, OnOk, OnErr, IfErr, IsTrue, ◌↔◌};

use crate::answer::RowValue;
use std::alloc::{AllocFailed, Global};
use std::marker::Model;

/// The rows that a select answers, in order. Contracts see the list of them.
#[derive(Debug, Drop)]
pub struct RowList {
    rows: Vec<RowValue>,
}

impl Model for RowList {
    ghost use Rattle.std.specs.Prelude.{List};
    ghost use Rattle.ras_syntax.specs.declared.answer.RowValue.{RowValue};

    ghost Value = { List RowValue };

    ghost view = { λ l. l.rows.items };
}

impl RowList {
    /// No rows. It allocates nothing.
    pub fn new(alloc: Global) -> RowList
        ensures { result ≡ [] }
    {
        RowList {
            rows: Vec::new(alloc),
        }
    }

    /// Puts a row at the end. Where memory is wanting, the list stays as it was and the row is
    /// handed back.
    pub fn push(&mut self, _alloc: Global, row: RowValue) -> Result<(), RowValue>
        ensures ok { OnOk result (self.new ≡ self.old ++ row ∷ []) }
        ensures err { OnErr result (self.new ≡ self.old) }
        ensures row_returned { IfErr result (λ back. back ≡ row) }
    {
        match self.rows.push(row) {
            Ok(()) => Ok(()),
            Err(AllocFailed { value }) => Err(value),
        }
    }

    /// How many rows there are.
    pub fn len(&self) -> usize
        ensures { result ≡ length self.now }
    {
        self.rows.len()
    }

    /// Whether there is none.
    pub fn is_empty(&self) -> bool
        ensures { IsTrue result ↔ (self.now ≡ []) }
    {
        self.rows.is_empty()
    }

    /// The row at a place, counted from 0.
    pub fn get(&self, place: usize) -> &RowValue
        requires { place < length self.now }
        ensures { slice_get self.now place ≡ Some result.now }
    {
        &self.rows[place]
    }
}
