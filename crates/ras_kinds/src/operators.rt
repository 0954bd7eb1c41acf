//! The kinds that operators and functions give.
ghost use Rattle.std.specs.Prelude.{◌≡◌, [], ◌∷◌};
ghost use Rattle.std.specs.Option.{option_copied};
ghost use Rattle.ras_cells.specs.declared.cell.CellType.{CellType as CellTypeSeen};
ghost use Rattle.spec_expressions.specs.Kinds as spec;
ghost use Rattle.spec_expressions.specs.Check as check;

use crate::cell_types::{
    cast_type, cells_type, copy_of_type, is_bool, is_number, join_of, type1_of, type2_of,
};
use crate::rules::{Joint, scalar_kind};
use ras_cells::{Atom, CellType, Op1, Op2};
use ras_syntax::{CellsFold, CheckFault, CheckedSource, Kind};

/// Whether the expression is one number.
pub fn is_scalar_number(kind: &Kind) -> bool
    ensures { result ≡ spec.is_scalar_number kind.now }
{
    match kind {
        Kind::Scalar(cell) => is_number(cell),
        _ => false,
    }
}

/// Whether the expression is one truth value.
pub fn is_scalar_bool(kind: &Kind) -> bool
    ensures { result ≡ spec.is_scalar_bool kind.now }
{
    match kind {
        Kind::Scalar(cell) => is_bool(cell),
        _ => false,
    }
}

/// An array of this cell type with so many axes.
fn array_kind(cell: Option<CellType>, axes: u32) -> Result<Kind, CheckFault>
    ensures { (old : CellTypeSeen) → result ≡ spec.common_kind cell (Kind.Array old axes ∷ []) }
{
    match cell {
        None => Err(CheckFault::TypeMismatch),
        Some(cell) => Ok(Kind::Array { cell, axes }),
    }
}

/// The kind of an operation on a scalar or on each cell of an array.
pub fn unary_kind(op: Op1, a: &Kind) -> Result<Kind, CheckFault>
    ensures { result ≡ spec.unary_kind op a.now }
{
    match a {
        Kind::Scalar(cell) => scalar_kind(type1_of(op, cell)),
        Kind::Array { cell, axes } => array_kind(type1_of(op, cell), *axes),
        _ => Err(CheckFault::TypeMismatch),
    }
}

/// The kind of a cast of a scalar or of each cell of an array.
pub fn cast_kind(to: Atom, a: &Kind) -> Result<Kind, CheckFault>
    ensures { result ≡ spec.cast_kind to a.now }
{
    match a {
        Kind::Scalar(cell) => scalar_kind(cast_type(to, cell)),
        Kind::Array { cell, axes } => array_kind(cast_type(to, cell), *axes),
        _ => Err(CheckFault::TypeMismatch),
    }
}

/// The cell type of a scalar or an array.
pub(crate) fn cell_type_in(a: &Kind) -> Option<&CellType>
    ensures { option_copied result ≡ spec.cell_type_in a.now }
{
    match a {
        Kind::Scalar(cell) | Kind::Array { cell, axes: _ } => Some(cell),
        _ => None,
    }
}

/// The type of the cells that an operation gives of any two operands with cells.
fn type_of_cells(op: Op2, a: &Kind, b: &Kind) -> Option<CellType>
    ensures { result ≡ spec.on_both (spec.type2_of op) a.now b.now }
{
    match (cell_type_in(a), cell_type_in(b)) {
        (Some(cell), Some(other)) => type2_of(op, cell, other),
        _ => None,
    }
}

/// The common type of the cells of two arrays.
fn overlay_type(a: &Kind, b: &Kind) -> Option<CellType>
    ensures { result ≡ spec.type_of_both Op2.Overlay a.now b.now }
{
    match (a, b) {
        (
            Kind::Array { cell, axes: _ },
            Kind::Array {
                cell: other,
                axes: _,
            },
        ) => { join_of(cell, other) }
        _ => None,
    }
}

/// The type of the cells that an operation on two operands gives. An overlay takes two arrays, every
/// other operation scalars too.
#[tactic(auto, using(crate::proofs::Joints::not_overlay))]
fn type_of_both(op: Op2, a: &Kind, b: &Kind) -> Option<CellType>
    ensures { result ≡ spec.type_of_both op a.now b.now }
{
    match op {
        Op2::Overlay => overlay_type(a, b),
        _ => type_of_cells(op, a, b),
    }
}

/// The kind of an operation on two operands. A scalar is paired with each cell of an array, and two
/// arrays have equally many axes.
pub fn binary_kind(op: Op2, a: &Kind, b: &Kind) -> Result<Kind, CheckFault>
    ensures { result ≡ spec.binary_kind op a.now b.now }
{
    Joint::NoArray.with(a).with(b).kind(type_of_both(op, a, b))
}

/// The kind of a fold over all cells of an array.
pub fn folded_kind(f: CellsFold, a: &Kind) -> Result<Kind, CheckFault>
    ensures { result ≡ spec.folded_kind f a.now }
{
    match a {
        Kind::Array { cell, axes: _ } => scalar_kind(cells_type(f, cell)),
        _ => Err(CheckFault::TypeMismatch),
    }
}

/// The kind of an array's domain.
pub fn sdom_kind(a: &Kind) -> Result<Kind, CheckFault>
    ensures { result ≡ check.sdom_kind a.now }
{
    match a {
        Kind::Array { cell: _, axes } => Ok(Kind::Domain { axes: *axes }),
        _ => Err(CheckFault::TypeMismatch),
    }
}

/// The kind of an iterator: an array of its set type's cells, with as many axes as that has.
pub fn iterator_kind(source: &CheckedSource) -> Kind
    ensures { result ≡ check.iterator_kind source.now }
{
    Kind::Array {
        cell: copy_of_type(&source.of.cell),
        axes: source.of.bounds.len() as u32,
    }
}
