ghost use Rattle.std.specs.Prelude.{◌≡◌, ◌<◌, [], ◌∷◌, ◌++◌, length, slice_get, Some, OnOk, OnErr, IfErr, IsTrue, ◌↔◌};

use arrayvec::ArrayVec;
use ras_cells::{CellType, NullSet};
use ras_domain::{Bounds, List, MAX_AXES, Name, Text};
use std::alloc::{AllocFailed, Global};
use std::marker::Model;

/// The type of a collection's arrays.
#[derive(Debug, Drop)]
pub struct SetType {
    pub name: Name,
    pub cell: CellType,
    /// The names of the components, none for cells of one atom.
    pub names: List<Name>,
    /// How far an array may reach on each axis.
    pub bounds: Bounds,
    /// How many coordinates a tile takes on each axis.
    pub extents: ArrayVec<u32, MAX_AXES>,
    /// The numbers that read as null.
    pub nulls: NullSet,
}

/// The types of a workload, in the order of their lines. Contracts see the list of them.
#[derive(Debug, Drop)]
pub struct Types {
    types: Vec<SetType>,
}

impl Model for Types {
    ghost use Rattle.std.specs.Prelude.{List};
    ghost use Rattle.ras_syntax.specs.declared.types.SetType.{SetType};

    ghost Value = { List SetType };

    ghost view = { λ t. t.types.items };
}

impl Types {
    /// No types. It allocates nothing.
    pub fn new(alloc: Global) -> Types
        ensures { result ≡ [] }
    {
        Types {
            types: Vec::new(alloc),
        }
    }

    /// Puts a type at the end. Where memory is wanting, the list stays as it was and the type is
    /// handed back.
    pub fn push(&mut self, _alloc: Global, of: SetType) -> Result<(), SetType>
        ensures ok { OnOk result (self.new ≡ self.old ++ of ∷ []) }
        ensures err { OnErr result (self.new ≡ self.old) }
        ensures type_returned { IfErr result (λ back. back ≡ of) }
    {
        match self.types.push(of) {
            Ok(()) => Ok(()),
            Err(AllocFailed { value }) => Err(value),
        }
    }

    /// How many types there are.
    pub fn len(&self) -> usize
        ensures { result ≡ length self.now }
    {
        self.types.len()
    }

    /// Whether there is none.
    pub fn is_empty(&self) -> bool
        ensures { IsTrue result ↔ (self.now ≡ []) }
    {
        self.types.is_empty()
    }

    /// The type at a place, counted from 0.
    pub fn get(&self, place: usize) -> &SetType
        requires { place < length self.now }
        ensures { slice_get self.now place ≡ Some result.now }
    {
        &self.types[place]
    }
}

/// A session's statements, each as its text.
#[derive(Debug, Drop)]
pub struct Script {
    pub name: Name,
    pub statements: List<Text>,
}
