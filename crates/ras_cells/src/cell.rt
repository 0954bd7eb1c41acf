ghost use Rattle.std.specs.Prelude.{◌≡◌, ◌≤◌, length};

use crate::atom::Atom;
use crate::{MAX_COMPONENTS, MAX_NULLS};
use arrayvec::ArrayVec;

/// The numbers of a cell, one a component, in order.
pub type Numbers = ArrayVec<i64, MAX_COMPONENTS>;

/// The stored numbers that read as null: intervals by their lower and upper ends, both included.
pub type NullSet = ArrayVec<(i64, i64), MAX_NULLS>;

/// What the cells of an array are: one number, or up to [`MAX_COMPONENTS`] of them. Two composite
/// types are equal where their atoms are equal in order; their components' names stand elsewhere.
#[derive(Debug, PartialEq, Eq, Drop)]
pub enum CellType {
    /// One number.
    Atom(Atom),
    /// A number for each of these.
    Composite(ArrayVec<Atom, MAX_COMPONENTS>),
}

impl CellType {
    ghost use Rattle.ras_cells.specs.Stored.{atoms_of};

    /// The atoms of the components, in order.
    pub fn atoms(&self) -> &[Atom]
        ensures atoms { result.now ≡ atoms_of self.now }
        ensures few { length (atoms_of self.now) ≤ MAX_COMPONENTS }
    {
        match self {
            CellType::Atom(atom) => std::slice::from_ref(atom),
            CellType::Composite(atoms) => atoms.as_slice(),
        }
    }
}

/// A cell's value. A truth value is the number 0 or 1.
#[derive(Debug, PartialEq, Eq, Drop)]
pub enum Cell {
    /// No value is known.
    Null,
    /// A number for each component.
    Value(Numbers),
}

/// Why an operation has no answer at a cell.
#[derive(Clone, Copy, Debug, PartialEq, Eq)]
pub enum CellFault {
    /// The exact result leaves 64 bits.
    Overflow,
    /// The divisor is 0.
    DivideByZero,
    /// The number leaves the range of the type that it is cast to or stored in.
    CastRange,
    /// There is no such place: a bit's number, or a point outside a domain.
    IndexOut,
    /// A null has no number to be stored as.
    NullStore,
}
