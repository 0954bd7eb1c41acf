//! Where the parts of an expression are looked at.
ghost use Rattle.std.specs.Prelude.{◌≡◌, ◌++◌, true, is_some, option_map, IfOk};
ghost use Rattle.std.specs.List.{list_any};
ghost use Rattle.ras_domain.specs.Boxes.{meet_of};
ghost use Rattle.ras_domain.specs.Region.{is_empty};
ghost use Rattle.spec_expressions.specs.Check.{tree_of_axes};
ghost use Rattle.spec_expressions.specs.Eval.{box_in, boxes_in};
ghost use Rattle.spec_expressions.specs.Reach.{box_or_none, index_box, met_with as met_with_of};
ghost use Rattle.spec_expressions.specs.Shape.{shape_of, shapes_of};
ghost use Rattle.spec_expressions.specs.Tree.{tree_of};
ghost use Rattle.ras_shape.specs.Trees.{trees_seen};
ghost use Rattle.ras_reach.specs.Forms.{index_seen, seen_cells};
ghost use Rattle.ras_reach.specs.LookedAt.{box_unless_empty, extended_box_of, operand_box_of, part_box_of, shape_box_of};
ghost use Rattle.ras_reach.specs.Moved.{boxes_held};
ghost use Rattle.ras_reach.specs.Variables.{variable_boxes};

use crate::forms::IndexForm;
use crate::moves::moved_back;
use crate::numbers::number_bound;
use crate::statics::box_of;
use crate::variables::{Variable, box_named};
use ras_domain::{Interval, Region};
use ras_shape::{ShapeError, shape};
use ras_syntax::{TypedAxis, TypedExpr};
use std::alloc::{AllocError, Global};

/// The intervals of the points in both boxes. One is empty where there is no such point.
pub(crate) fn meet(
    alloc: Global,
    a: &[Interval],
    b: &[Interval],
) -> Result<Vec<Interval>, AllocError>
    ensures { IfOk result (λ axes. axes.items ≡ meet_of a.now b.now) }
{
    a.iter()
        .zip(b)
        .map(|(x, y)| Interval {
            lo: x.lo.max(y.lo),
            hi: x.hi.min(y.hi),
        })
        .collect(alloc)
}

/// Whether some interval has no number in it.
pub(crate) fn has_empty(axes: &[Interval]) -> bool
    ensures { result ≡ list_any is_empty axes.now }
{
    axes.iter().any(|axis| axis.hi < axis.lo)
}

/// The box, and None where some interval has no number in it.
fn unless_empty(axes: Vec<Interval>) -> Option<Vec<Interval>>
    ensures { option_map (λ kept. kept.items) result ≡ box_unless_empty axes.items }
{
    if has_empty(&axes) { None } else { Some(axes) }
}

/// The numbers of an interval that are in another one too, and None where there is no other.
fn met_with(axis: &Interval, other: Option<Interval>) -> Option<Interval>
    ensures { result ≡ met_with_of axis.now other }
{
    let other = other?;
    Some(Interval {
        lo: axis.lo.max(other.lo),
        hi: axis.hi.min(other.hi),
    })
}

/// Puts at the end the intervals at which an index looks at its operand: where a position may lie, and
/// the result's own interval where the axis is kept. It is false where a position has no number. The
/// error is want of memory.
fn push_index_box(
    alloc: Global,
    index: &[TypedAxis],
    axes: &[Interval],
    around: &[Interval],
    domains: &[Region],
    variables: &[Variable],
    met: &mut Vec<Interval>,
) -> Result<bool, AllocError>
    ensures some { IfOk result (λ all.
        is_some (index_box domains.now (variable_boxes variables.now) (tree_of_axes index.now) axes.now around.now) ≡ all) }
    ensures met { IfOk result (λ all. all ≡ true → met.new.items ≡ met.old.items
        ++ box_or_none (index_box domains.now (variable_boxes variables.now) (tree_of_axes index.now) axes.now around.now)) }
{
    let [cut, cuts @ ..] = index else {
        return Ok(true);
    };
    let [axis, axes @ ..] = axes else {
        return Ok(true);
    };
    match cut {
        TypedAxis::At(e) => {
            let bound = number_bound(alloc, e, domains, variables)?;
            let Some(axis) = met_with(axis, bound) else {
                return Ok(false);
            };
            met.push(axis)?;
            push_index_box(alloc, cuts, axes, around, domains, variables, met)
        }
        TypedAxis::Trim(_, _) => {
            let [kept, around @ ..] = around else {
                return Ok(true);
            };
            met.push(*kept)?;
            push_index_box(alloc, cuts, axes, around, domains, variables, met)
        }
    }
}

/// The box at which positions and trims look at their operand, and None where it is empty. The error
/// is want of memory.
fn cells_box(
    alloc: Global,
    whole: &TypedExpr,
    index: &[TypedAxis],
    around: &[Interval],
    domains: &[Region],
    variables: &[Variable],
) -> Result<Option<Vec<Interval>>, AllocError>
    ensures { IfOk result (λ met. option_map (λ axes. axes.items) met
        ≡ operand_box_of domains.now (variable_boxes variables.now) (tree_of whole.now) (tree_of_axes index.now) around.now seen_cells) }
{
    let axes = box_of(alloc, whole, domains)?;
    let mut met = Vec::new(alloc);
    if !push_index_box(alloc, index, &axes, around, domains, variables, &mut met)? {
        return Ok(None);
    }
    Ok(unless_empty(met))
}

/// The box at which an index looks at its operand, and None where that is nowhere. The error is want
/// of memory.
pub(crate) fn operand_box(
    alloc: Global,
    form: IndexForm<'_>,
    whole: &TypedExpr,
    index: &[TypedAxis],
    around: &[Interval],
    domains: &[Region],
    variables: &[Variable],
) -> Result<Option<Vec<Interval>>, AllocError>
    ensures { IfOk result (λ met. option_map (λ axes. axes.items) met
        ≡ operand_box_of domains.now (variable_boxes variables.now) (tree_of whole.now)
        (tree_of_axes index.now) around.now (index_seen form.entry)) }
{
    match form {
        IndexForm::Coordinate(_, _) | IndexForm::AxisOfDomain => Ok(None),
        IndexForm::AtPoint(name) => {
            let axes = box_of(alloc, whole, domains)?;
            let met = meet(alloc, box_named(variables, name), &axes)?;
            Ok(unless_empty(met))
        }
        IndexForm::Cells => cells_box(alloc, whole, index, around, domains, variables),
    }
}

/// The part of a box that lies in an expression's own box, and None where that is empty. The error is
/// want of memory.
pub(crate) fn extended_box(
    alloc: Global,
    whole: &TypedExpr,
    around: &[Interval],
    domains: &[Region],
) -> Result<Option<Vec<Interval>>, AllocError>
    ensures { IfOk result (λ met. option_map (λ axes. axes.items) met
        ≡ extended_box_of around.now (box_in (shape_of domains.now (tree_of whole.now)))) }
{
    let axes = box_of(alloc, whole, domains)?;
    let met = meet(alloc, around, &axes)?;
    Ok(unless_empty(met))
}

/// The box at which a joined part is looked at, from its own box and its place, and None where that is
/// nowhere. The error is want of memory, or that a bound leaves 64 bits.
pub(crate) fn part_box(
    alloc: Global,
    own: &[Interval],
    place: &[Interval],
    around: &[Interval],
) -> Result<Option<Vec<Interval>>, AllocError>
    ensures { IfOk result (λ met. option_map (λ axes. axes.items) met ≡ part_box_of own.now place.now around.now) }
{
    let met = meet(alloc, around, place)?;
    if has_empty(&met) {
        return Ok(None);
    }
    Ok(Some(moved_back(alloc, place, own, &met)?))
}

/// The box of a part, and None where it has no shape. The error is want of memory.
fn shape_box(
    alloc: Global,
    e: &TypedExpr,
    domains: &[Region],
) -> Result<Option<Vec<Interval>>, AllocError>
    ensures { IfOk result (λ found. option_map (λ axes. axes.items) found ≡ shape_box_of domains.now e.now) }
{
    match shape(alloc, e, domains) {
        Ok(form) => Ok(Some(Vec::from_slice(alloc, form.axes())?)),
        Err(ShapeError::Fault { span: _, fault: _ }) => Ok(None),
        Err(ShapeError::Memory) => Err(AllocError),
    }
}

/// The boxes of parts, and none where one has no shape. The error is want of memory.
#[tactic(auto, using(crate::proofs::LookedAtSeen::part_loops))]
pub(crate) fn own_boxes(
    alloc: Global,
    parts: &[TypedExpr],
    domains: &[Region],
) -> Result<Vec<Vec<Interval>>, AllocError>
    ensures { IfOk result (λ boxes. boxes_held boxes.items ≡ boxes_in (shapes_of domains.now (trees_seen parts.now))) }
{
    let mut boxes = Vec::new(alloc);
    for part in parts {
        let Some(axes) = shape_box(alloc, part, domains)? else {
            return Ok(Vec::new(alloc));
        };
        boxes.push(axes)?;
    }
    Ok(boxes)
}
