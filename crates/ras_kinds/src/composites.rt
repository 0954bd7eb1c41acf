//! The kind of composite cells.
ghost use Rattle.std.specs.Prelude.{◌≡◌, ◌≤◌, length};
ghost use Rattle.spec_expressions.specs.Kinds.{atoms_of_all, composite_kind as composite_kind_of, composite_type as composite_type_of};
ghost use Rattle.spec_expressions.specs.Check.{kinds_of};
ghost use Rattle.ras_kinds.specs.Composites.{one_atom_of};

use crate::lists::joint_of_parts;
use crate::operators::cell_type_in;
use arrayvec::ArrayVec;
use ras_cells::{Atom, CellType, MAX_COMPONENTS};
use ras_syntax::{CheckFault, Kind, TypedExpr};

/// The atom of a scalar or an array whose cells have one.
fn one_atom(kind: &Kind) -> Option<Atom>
    ensures { result ≡ one_atom_of kind.now }
{
    match cell_type_in(kind) {
        Some(CellType::Atom(atom)) => Some(*atom),
        _ => None,
    }
}

/// The composite type of parts that have one atom each.
fn composite_type(parts: &[TypedExpr]) -> Option<CellType>
    requires { length parts.now ≤ MAX_COMPONENTS }
    ensures { result ≡ composite_type_of (atoms_of_all (kinds_of parts.now)) }
{
    let mut atoms = ArrayVec::new();
    for part in parts {
        atoms.push(one_atom(&part.kind)?);
    }
    Some(CellType::Composite(atoms))
}

/// The kind of cells that are made of the parts' cells, which have one atom each. There are no more
/// parts than a cell may have components.
pub fn composite_kind(parts: &[TypedExpr]) -> Result<Kind, CheckFault>
    requires { length parts.now ≤ MAX_COMPONENTS }
    ensures { result ≡ composite_kind_of (kinds_of parts.now) }
{
    joint_of_parts(parts).kind(composite_type(parts))
}
