//! The cell types that operations give.
ghost use Rattle.std.specs.Prelude.{◌≡◌};
ghost use Rattle.std.specs.Cmp.Lexicographic.{pointwise};
ghost use Rattle.spec_expressions.specs.Kinds as spec;

use arrayvec::ArrayVec;
use ras_cells::{Atom, CellType, Op1, Op2};
use ras_syntax::{CellsFold, FoldOp};

/// An equal type.
pub fn copy_of_type(cell: &CellType) -> CellType
    ensures { result ≡ cell.now }
{
    match cell {
        CellType::Atom(atom) => CellType::Atom(*atom),
        CellType::Composite(atoms) => {
            CellType::Composite(ArrayVec::try_from(atoms.as_slice()).unwrap())
        }
    }
}

/// Whether two atoms are the same.
fn same_atom(a: Atom, b: Atom) -> bool
    ensures { result ≡ spec.is_same_atom a b }
{
    a == b
}

/// Whether the atoms are the same in order.
fn same_atoms(a: &[Atom], b: &[Atom]) -> bool
    ensures { result ≡ pointwise spec.is_same_atom a.now b.now }
{
    match (a, b) {
        ([], []) => true,
        ([first, more @ ..], [other, others @ ..]) => {
            same_atom(*first, *other) && same_atoms(more, others)
        }
        _ => false,
    }
}

/// Whether two types are the same: composite types are where their atoms are, in order. A composite
/// type of one atom is not that atom.
pub fn same_type(a: &CellType, b: &CellType) -> bool
    ensures { result ≡ spec.is_same_type a.now b.now }
{
    match (a, b) {
        (CellType::Atom(a), CellType::Atom(b)) => same_atom(*a, *b),
        (CellType::Composite(a), CellType::Composite(b)) => same_atoms(a.as_slice(), b.as_slice()),
        _ => false,
    }
}

/// Whether the atom is one of numbers.
fn is_number_atom(atom: Atom) -> bool
    ensures { result ≡ spec.is_number_atom atom }
{
    match atom {
        Atom::Bool => false,
        _ => true,
    }
}

/// Whether a cell of this type is a number.
pub(crate) fn is_number(cell: &CellType) -> bool
    ensures { result ≡ spec.is_number cell.now }
{
    match cell {
        CellType::Atom(atom) => is_number_atom(*atom),
        CellType::Composite(_) => false,
    }
}

/// Whether a cell of this type is a truth value.
pub(crate) fn is_bool(cell: &CellType) -> bool
    ensures { result ≡ spec.is_bool cell.now }
{
    match cell {
        CellType::Atom(atom) => !is_number_atom(*atom),
        CellType::Composite(_) => false,
    }
}

/// The type of one number of this atom, where that holds.
fn some_atom(holds: bool, atom: Atom) -> Option<CellType>
    ensures { result ≡ spec.some_where holds (CellType.Atom atom) }
{
    if holds {
        Some(CellType::Atom(atom))
    } else {
        None
    }
}

/// An equal type, where that holds.
fn some_copy(holds: bool, cell: &CellType) -> Option<CellType>
    ensures { result ≡ spec.some_where holds cell.now }
{
    if holds {
        Some(copy_of_type(cell))
    } else {
        None
    }
}

/// The common type of two: the type itself where they are the same, that of wide numbers where both
/// are numbers.
pub fn join_of(a: &CellType, b: &CellType) -> Option<CellType>
    ensures { result ≡ spec.join_of a.now b.now }
{
    if same_type(a, b) {
        Some(copy_of_type(a))
    } else {
        some_atom(is_number(a) && is_number(b), Atom::Wide)
    }
}

/// Whether a cell of the first atom is stored into the second: a number into a number, a truth
/// value into one.
fn atom_stores(from: Atom, to: Atom) -> bool
    ensures { result ≡ spec.atom_stores from to }
{
    is_number_atom(from) == is_number_atom(to)
}

/// The same of atoms in order.
fn atoms_store(from: &[Atom], to: &[Atom]) -> bool
    ensures { result ≡ pointwise spec.atom_stores from.now to.now }
{
    match (from, to) {
        ([], []) => true,
        ([first, more @ ..], [other, others @ ..]) => {
            atom_stores(*first, *other) && atoms_store(more, others)
        }
        _ => false,
    }
}

/// Whether a cell of the first type is stored into the second: numbers into numbers and truth
/// values into truth values, composite cells component by component.
pub fn stores(from: &CellType, to: &CellType) -> bool
    ensures { result ≡ spec.stores from.now to.now }
{
    match (from, to) {
        (CellType::Atom(from), CellType::Atom(to)) => atom_stores(*from, *to),
        (CellType::Composite(from), CellType::Composite(to)) => {
            atoms_store(from.as_slice(), to.as_slice())
        }
        _ => false,
    }
}

/// The type that an operation gives of a cell. None where the cell is no operand of it.
pub fn type1_of(op: Op1, a: &CellType) -> Option<CellType>
    ensures { result ≡ spec.type1_of op a.now }
{
    match op {
        Op1::Neg | Op1::Abs => some_atom(is_number(a), Atom::Wide),
        Op1::Not => some_atom(is_bool(a), Atom::Bool),
    }
}

/// One number of this atom, where both cells are numbers.
fn both_numbers(a: &CellType, b: &CellType, atom: Atom) -> Option<CellType>
    ensures { result ≡ spec.both_numbers a.now b.now (CellType.Atom atom) }
{
    some_atom(is_number(a) && is_number(b), atom)
}

/// A truth value, where both cells are.
fn both_bools(a: &CellType, b: &CellType) -> Option<CellType>
    ensures { result ≡ spec.both_bools a.now b.now }
{
    some_atom(is_bool(a) && is_bool(b), Atom::Bool)
}

/// A truth value, where both cells are numbers or both are truth values.
fn comparison_type(a: &CellType, b: &CellType) -> Option<CellType>
    ensures { result ≡ spec.comparison_type a.now b.now }
{
    if is_bool(a) {
        both_bools(a, b)
    } else {
        both_numbers(a, b, Atom::Bool)
    }
}

/// The type that an operation gives of two cells. None where they are no operands of it.
pub fn type2_of(op: Op2, a: &CellType, b: &CellType) -> Option<CellType>
    ensures { result ≡ spec.type2_of op a.now b.now }
{
    match op {
        Op2::Add | Op2::Sub | Op2::Mul | Op2::Div | Op2::Mod => both_numbers(a, b, Atom::Wide),
        Op2::Eq | Op2::Ne => comparison_type(a, b),
        Op2::Lt | Op2::Le | Op2::Gt | Op2::Ge | Op2::Bit => both_numbers(a, b, Atom::Bool),
        Op2::And | Op2::Or | Op2::Xor => both_bools(a, b),
        Op2::Overlay => join_of(a, b),
    }
}

/// The type of a cell that is cast to an atom. None of a composite cell.
pub fn cast_type(to: Atom, a: &CellType) -> Option<CellType>
    ensures { result ≡ spec.cast_type to a.now }
{
    match a {
        CellType::Atom(_) => Some(CellType::Atom(to)),
        CellType::Composite(_) => None,
    }
}

/// The type that a `condense` gives of such cells. Sums and products are wide, and the extremes keep
/// the type.
pub fn fold_type(f: FoldOp, a: &CellType) -> Option<CellType>
    ensures { result ≡ spec.fold_type f a.now }
{
    match f {
        FoldOp::Plus | FoldOp::Times => some_atom(is_number(a), Atom::Wide),
        FoldOp::Min | FoldOp::Max => some_copy(is_number(a), a),
        FoldOp::And | FoldOp::Or => some_atom(is_bool(a), Atom::Bool),
    }
}

/// The type that a fold over all cells of an array gives.
pub fn cells_type(f: CellsFold, a: &CellType) -> Option<CellType>
    ensures { result ≡ spec.cells_type f a.now }
{
    match f {
        CellsFold::Add => some_atom(is_number(a), Atom::Wide),
        CellsFold::Min | CellsFold::Max => some_copy(is_number(a), a),
        CellsFold::Count => some_atom(is_bool(a), Atom::Wide),
        CellsFold::AnyTrue | CellsFold::AllTrue => some_atom(is_bool(a), Atom::Bool),
    }
}
