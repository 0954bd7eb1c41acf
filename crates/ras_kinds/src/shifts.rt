//! The kinds of shifted arrays and of composite cells.
ghost use Rattle.std.specs.Prelude.{◌≡◌, ◌≤◌, length, List};
ghost use Rattle.std.specs.List.{list_all};
ghost use Rattle.spec_expressions.specs.Tree.{tree_of};
ghost use Rattle.spec_expressions.specs.Kinds.{atoms_of_all, composite_kind as composite_kind_of, composite_type as composite_type_of, is_scalar_number as is_number_kind};
ghost use Rattle.spec_expressions.specs.Shape.{is_static as is_static_tree};
ghost use Rattle.spec_expressions.specs.Check as spec;
ghost use Rattle.spec_expressions.specs.Check.{kind_of, kinds_of};

use crate::cell_types::copy_of_type;
use crate::operators::is_scalar_number;
use crate::rules::by_rules;
use crate::trees::is_static;
use ras_syntax::{CheckFault, Kind, TypedExpr};

/// Whether all offsets are numbers.
fn are_numbers(offsets: &[TypedExpr]) -> bool
    ensures { result ≡ list_all (λ e. is_number_kind (kind_of e)) offsets.now }
{
    offsets.iter().all(|e| is_scalar_number(&e.kind))
}

/// Whether all offsets are static.
fn are_static(offsets: &[TypedExpr]) -> bool
    ensures { result ≡ list_all (λ e. is_static_tree (tree_of e)) offsets.now }
{
    offsets.iter().all(is_static)
}

/// The kind of an array that is shifted by offsets, one for each axis.
pub fn shift_kind(a: &Kind, offsets: &[TypedExpr]) -> Result<Kind, CheckFault>
    ensures { result ≡ spec.shift_kind a.now offsets.now }
{
    match a {
        Kind::Array { cell, axes } => by_rules(
            are_numbers(offsets),
            offsets.len() == *axes as usize,
            are_static(offsets),
            Kind::Array {
                cell: copy_of_type(cell),
                axes: *axes,
            },
        ),
        _ => Err(CheckFault::TypeMismatch),
    }
}
