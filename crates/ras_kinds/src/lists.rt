//! The kinds of forms with lists of parts.
ghost use Rattle.std.specs.Prelude.{◌≡◌, List, map, ◌++◌, [], ◌∷◌};
ghost use Rattle.std.specs.List.{list_all};
ghost use Rattle.ras_syntax.specs.declared.typed.Kind.{Kind as KindSeen};
ghost use Rattle.spec_expressions.specs.Kinds as spec;
ghost use Rattle.spec_expressions.specs.Check.{choice_kind as choice_kind_of, concat_kind as concat_kind_of, joined_arrays, kind_of, kinds_of, is_array as is_array_kind, is_axis as is_axis_of};
ghost use Rattle.ras_kinds.specs.Joint.{joint_of, join_of_kinds, join_told, join_with};

use crate::cell_types::{copy_of_type, is_bool, join_of};
use crate::operators::cell_type_in;
use crate::rules::Joint;
use ras_cells::CellType;
use ras_syntax::{CheckFault, Kind, TypedExpr};

/// The cell type of a scalar or an array, as a value of its own.
fn own_cell_type(kind: &Kind) -> Option<CellType>
    ensures { result ≡ spec.cell_type_in kind.now }
{
    match cell_type_in(kind) {
        Some(cell) => Some(copy_of_type(cell)),
        None => None,
    }
}

/// The common type of the cells of operands.
#[derive(Drop)]
enum Join {
    /// There is no operand.
    Nothing,
    /// It is this one.
    Cells(CellType),
    /// There is none.
    Mismatch,
}

impl Join {
    /// The same with one more operand.
    fn with(self, kind: &Kind) -> Join
        ensures { result ≡ join_with self kind.now }
    {
        match self {
            Join::Nothing => Join::of(own_cell_type(kind)),
            Join::Cells(cell) => Join::of(joined_type(&cell, kind)),
            Join::Mismatch => Join::Mismatch,
        }
    }

    /// Of operands that have this type, or none.
    fn of(cell: Option<CellType>) -> Join
        ensures { result ≡ join_told cell }
    {
        match cell {
            Some(cell) => Join::Cells(cell),
            None => Join::Mismatch,
        }
    }

    /// The type, if there is one.
    #[tactic(auto, using(crate::proofs::Joints::join_of_all_told))]
    fn cell(self) -> Option<CellType>
        ensures { (kinds : List KindSeen) → self ≡ join_of_kinds kinds → result ≡ spec.join_of_all kinds }
    {
        match self {
            Join::Cells(cell) => Some(cell),
            Join::Nothing | Join::Mismatch => None,
        }
    }
}

/// The common type of a type and the cells of an operand.
fn joined_type(cell: &CellType, kind: &Kind) -> Option<CellType>
    ensures { result ≡ spec.on_cells (spec.join_of cell.now) kind.now }
{
    match cell_type_in(kind) {
        Some(other) => join_of(cell, other),
        None => None,
    }
}

/// Whether the kind is a truth value or an array of them.
fn is_condition(kind: &Kind) -> bool
    ensures { result ≡ spec.is_condition kind.now }
{
    match cell_type_in(kind) {
        Some(cell) => is_bool(cell),
        None => false,
    }
}

/// Whether each condition of a case is a truth value or an array of them.
fn are_conditions(arms: &[(TypedExpr, TypedExpr)]) -> bool
    ensures { result ≡ list_all (λ arm. spec.is_condition (kind_of arm.0)) arms.now }
{
    arms.iter().all(|arm| is_condition(&arm.0.kind))
}

/// The common type of the values of a case.
#[tactic(auto, using(crate::proofs::Joints::joins_of_case))]
fn join_of_values(arms: &[(TypedExpr, TypedExpr)], other: &TypedExpr) -> Join
    ensures { result ≡ join_of_kinds (map (λ arm. kind_of arm.1) arms.now ++ kind_of other.now ∷ []) }
{
    let values = arms
        .iter()
        .fold(Join::Nothing, |join, arm| join.with(&arm.1.kind));
    values.with(&other.kind)
}

/// The type of a case: the values' common type, where each condition is a truth value.
fn choice_type(arms: &[(TypedExpr, TypedExpr)], other: &TypedExpr) -> Option<CellType>
    ensures { result ≡ spec.choice_type (map (λ arm. kind_of arm.0) arms.now) (map (λ arm. kind_of arm.1) arms.now ++ kind_of other.now ∷ []) }
{
    if are_conditions(arms) {
        join_of_values(arms, other).cell()
    } else {
        None
    }
}

/// How many axes the arrays among the conditions and the values of a case have.
#[tactic(auto, using(crate::proofs::Joints::joint_of_case))]
fn joint_of_arms(arms: &[(TypedExpr, TypedExpr)], other: &TypedExpr) -> Joint
    ensures { result ≡ joint_of (map (λ arm. kind_of arm.0) arms.now ++ (map (λ arm. kind_of arm.1) arms.now ++ kind_of other.now ∷ [])) }
{
    let conditions = arms
        .iter()
        .fold(Joint::NoArray, |joint, arm| joint.with(&arm.0.kind));
    let values = arms
        .iter()
        .fold(conditions, |joint, arm| joint.with(&arm.1.kind));
    values.with(&other.kind)
}

/// The kind of a case: the conditions are truth values, the values have a common type, and the
/// arrays among all of them have equally many axes.
pub fn choice_kind(arms: &[(TypedExpr, TypedExpr)], other: &TypedExpr) -> Result<Kind, CheckFault>
    ensures { result ≡ choice_kind_of (map (λ arm. kind_of arm.0) arms.now) (map (λ arm. kind_of arm.1) arms.now ++ kind_of other.now ∷ []) }
{
    joint_of_arms(arms, other).kind(choice_type(arms, other))
}

/// How many axes the arrays among the parts have.
pub(crate) fn joint_of_parts(parts: &[TypedExpr]) -> Joint
    ensures { result ≡ joint_of (kinds_of parts.now) }
{
    parts
        .iter()
        .fold(Joint::NoArray, |joint, part| joint.with(&part.kind))
}

/// The common type of the parts' cells.
fn join_of_parts(parts: &[TypedExpr]) -> Join
    ensures { result ≡ join_of_kinds (kinds_of parts.now) }
{
    parts
        .iter()
        .fold(Join::Nothing, |join, part| join.with(&part.kind))
}

/// Whether the number names one of so many axes, counted from 0.
pub(crate) fn is_axis(k: &i64, axes: u32) -> bool
    ensures { result ≡ is_axis_of k.now axes }
{
    0 <= *k && *k < i64::from(axes)
}

/// Whether the kind is an array.
fn is_array(kind: &Kind) -> bool
    ensures { result ≡ is_array_kind kind.now }
{
    match kind {
        Kind::Array { cell: _, axes: _ } => true,
        _ => false,
    }
}

/// Whether all parts are arrays.
fn are_arrays(parts: &[TypedExpr]) -> bool
    ensures { result ≡ list_all (λ part. is_array_kind (kind_of part)) parts.now }
{
    parts.iter().all(|part| is_array(&part.kind))
}

/// The kind of arrays of this common type that are joined along an axis.
#[tactic(auto, using(crate::proofs::Joints::joined_by_joint))]
fn joined_kind(along: &i64, joint: Joint, cell: Option<CellType>) -> Result<Kind, CheckFault>
    ensures { (kinds : List KindSeen) → joint ≡ joint_of kinds → result ≡ joined_arrays along.now (spec.axes_of_arrays kinds) cell }
{
    match (joint, cell) {
        (Joint::NoArray, _) | (_, None) => Err(CheckFault::TypeMismatch),
        (Joint::Equal { axes }, Some(cell)) if is_axis(along, axes) => {
            Ok(Kind::Array { cell, axes })
        }
        _ => Err(CheckFault::DimensionMismatch),
    }
}

/// The kind of a `concat`: the parts are arrays with equally many axes and a common type, and the
/// axis is one of theirs.
#[tactic(auto, using(crate::proofs::Joints::arrays_of_concat))]
pub fn concat_kind(along: &i64, parts: &[TypedExpr]) -> Result<Kind, CheckFault>
    ensures { result ≡ concat_kind_of along.now (kinds_of parts.now) }
{
    if !are_arrays(parts) {
        return Err(CheckFault::TypeMismatch);
    }
    joined_kind(along, joint_of_parts(parts), join_of_parts(parts).cell())
}
