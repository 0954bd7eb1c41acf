//! The walk over an expression that collects the boxes which it reads.
ghost use Rattle.std.specs.Prelude.{◌≡◌, ◌++◌, ◌∷◌, [], option_map, OnOk};
ghost use Rattle.ras_shape.specs.Trees.{axis_seen, pairs_seen, trees_seen};
ghost use Rattle.spec_expressions.specs.Check.{tree_of_axes};
ghost use Rattle.spec_expressions.specs.Reach.{condition_reach, pairs_reach, parts_reach, positions_reach, reach_of, trees_reach};
ghost use Rattle.spec_expressions.specs.Tree.{condition_of, no_axes, tree_of};
ghost use Rattle.ras_reach.specs.Moved.{boxes_held};
ghost use Rattle.ras_reach.specs.Reached.{boxes_reached};
ghost use Rattle.ras_reach.specs.Variables.{variable_boxes};

use crate::boxes::{extended_box, operand_box, own_boxes, part_box};
use crate::forms::{PartForm, index_form, part_form};
use crate::moves::{axis_number, placed, shifted_back};
use crate::reached::ReachedBox;
use crate::statics::{box_of, domain_box, offset_values};
use crate::variables::{Variable, with_variable};
use ras_domain::{Interval, Region};
use ras_syntax::{TypedAxis, TypedExpr, TypedForm};
use sqlite_items::Boxed;
use std::alloc::{AllocError, Global};

/// Puts at the end the boxes that an expression reads for the result points in the box `around`. The
/// error is want of memory, or that a bound leaves 64 bits.
#[cycle(walk)]
pub(crate) fn reach_into(
    alloc: Global,
    e: &TypedExpr,
    domains: &[Region],
    variables: &[Variable],
    around: &[Interval],
    out: &mut Vec<ReachedBox>,
) -> Result<(), AllocError>
    ensures { OnOk result (boxes_reached out.new.items ≡ boxes_reached out.old.items
        ++ reach_of domains.now (variable_boxes variables.now) (tree_of e.now) around.now) }
{
    match &e.form {
        TypedForm::Bool(_) => Ok(()),
        TypedForm::Number { value: _, atom: _ } => Ok(()),
        TypedForm::Iterator { name: _, place } => push_box(alloc, *place, around, out),
        TypedForm::Variable(_) => Ok(()),
        TypedForm::Unary { op: _, e } => {
            reach_into(alloc, e.get(), domains, variables, around, out)
        }
        TypedForm::Cast { to: _, e } => reach_into(alloc, e.get(), domains, variables, around, out),
        TypedForm::Binary { op: _, a, b } => {
            reach_into(alloc, a.get(), domains, variables, around, out)?;
            reach_into(alloc, b.get(), domains, variables, around, out)
        }
        TypedForm::Index { e: whole, axes } => {
            let axes = axes.as_slice();
            let form = index_form(whole.get(), axes);
            match operand_box(alloc, form, whole.get(), axes, around, domains, variables)? {
                Some(met) => {
                    reach_into(alloc, whole.get(), domains, variables, &met, out)?;
                    reach_positions(alloc, axes, domains, variables, out)
                }
                None => reach_positions(alloc, axes, domains, variables, out),
            }
        }
        TypedForm::Part { e: whole, part } => match part_form(whole.get(), part) {
            PartForm::Component => {
                reach_into(alloc, whole.get(), domains, variables, around, out)
            }
            PartForm::Lower => Ok(()),
            PartForm::Upper => Ok(()),
        },
        TypedForm::Case { arms, other } => {
            reach_pairs(alloc, arms.as_slice(), domains, variables, around, out)?;
            reach_into(alloc, other.get(), domains, variables, around, out)
        }
        TypedForm::Build(parts) => {
            reach_each(alloc, parts.as_slice(), domains, variables, around, out)
        }
        TypedForm::Marray { x, domain: _, e } => {
            let inner = with_variable(alloc, &x.name, around, variables)?;
            reach_into(alloc, e.get(), domains, &inner, &[], out)
        }
        TypedForm::Condense {
            op: _,
            x,
            domain,
            cond,
            e,
        } => {
            let axes = domain_box(alloc, domain, domains)?;
            let inner = with_variable(alloc, &x.name, &axes, variables)?;
            reach_condition(alloc, cond, domains, &inner, out)?;
            reach_into(alloc, e.get(), domains, &inner, &[], out)
        }
        TypedForm::Cells { f: _, e } => {
            let axes = box_of(alloc, e.get(), domains)?;
            reach_into(alloc, e.get(), domains, variables, &axes, out)
        }
        TypedForm::Shift { e, offsets } => {
            let values = offset_values(alloc, offsets.as_slice(), domains)?;
            let axes = shifted_back(alloc, &values, around)?;
            reach_into(alloc, e.get(), domains, variables, &axes, out)
        }
        TypedForm::Extend { e, domain: _ } => {
            match extended_box(alloc, e.get(), around, domains)? {
                Some(met) => reach_into(alloc, e.get(), domains, variables, &met, out),
                None => Ok(()),
            }
        }
        TypedForm::Concat { parts, along } => {
            let owns = own_boxes(alloc, parts.as_slice(), domains)?;
            let places = placed(alloc, axis_number(along), &owns)?;
            reach_parts(
                alloc,
                parts.as_slice(),
                &owns,
                &places,
                domains,
                variables,
                around,
                out,
            )
        }
        TypedForm::Sdom(_) => Ok(()),
        TypedForm::Oid(_) => Ok(()),
    }
}

/// Puts a box of the array at this place at the end. The error is want of memory.
fn push_box(
    alloc: Global,
    place: u32,
    around: &[Interval],
    out: &mut Vec<ReachedBox>,
) -> Result<(), AllocError>
    ensures { OnOk result (boxes_reached out.new.items ≡ boxes_reached out.old.items ++ (place, around.now) ∷ []) }
{
    let axes = Vec::from_slice(alloc, around)?;
    out.push(ReachedBox { place, axes })?;
    Ok(())
}

/// Puts at the end the boxes that expressions read, each for the same result points.
#[cycle(walk)]
#[tactic(auto, using(crate::proofs::Walking::list_turns))]
fn reach_each(
    alloc: Global,
    es: &[TypedExpr],
    domains: &[Region],
    variables: &[Variable],
    around: &[Interval],
    out: &mut Vec<ReachedBox>,
) -> Result<(), AllocError>
    ensures { OnOk result (boxes_reached out.new.items ≡ boxes_reached out.old.items
        ++ trees_reach domains.now (variable_boxes variables.now) (trees_seen es.now) around.now) }
{
    for e in es {
        reach_into(alloc, e, domains, variables, around, out)?;
    }
    Ok(())
}

/// Puts at the end the boxes that pairs of expressions read, each for the same result points.
#[cycle(walk)]
#[tactic(auto, using(crate::proofs::Walking::list_turns))]
fn reach_pairs(
    alloc: Global,
    pairs: &[(TypedExpr, TypedExpr)],
    domains: &[Region],
    variables: &[Variable],
    around: &[Interval],
    out: &mut Vec<ReachedBox>,
) -> Result<(), AllocError>
    ensures { OnOk result (boxes_reached out.new.items ≡ boxes_reached out.old.items
        ++ pairs_reach domains.now (variable_boxes variables.now) (pairs_seen pairs.now) around.now) }
{
    for pair in pairs {
        reach_into(alloc, &pair.0, domains, variables, around, out)?;
        reach_into(alloc, &pair.1, domains, variables, around, out)?;
    }
    Ok(())
}

/// Puts at the end the boxes that a condition reads.
#[cycle(walk)]
fn reach_condition(
    alloc: Global,
    condition: &Option<Boxed<TypedExpr>>,
    domains: &[Region],
    variables: &[Variable],
    out: &mut Vec<ReachedBox>,
) -> Result<(), AllocError>
    ensures { OnOk result (boxes_reached out.new.items ≡ boxes_reached out.old.items
        ++ condition_reach domains.now (variable_boxes variables.now) (condition_of (option_map tree_of condition.now))) }
{
    match condition {
        Some(e) => reach_into(alloc, e.get(), domains, variables, &[], out),
        None => Ok(()),
    }
}

/// Puts at the end the boxes that the positions of an index read.
#[cycle(walk)]
#[tactic(auto, using(crate::proofs::Walking::list_turns))]
fn reach_positions(
    alloc: Global,
    index: &[TypedAxis],
    domains: &[Region],
    variables: &[Variable],
    out: &mut Vec<ReachedBox>,
) -> Result<(), AllocError>
    ensures { OnOk result (boxes_reached out.new.items ≡ boxes_reached out.old.items
        ++ positions_reach domains.now (variable_boxes variables.now) (tree_of_axes index.now)) }
{
    for cut in index {
        reach_position(alloc, cut, domains, variables, out)?;
    }
    Ok(())
}

/// Puts at the end the boxes that a position reads.
#[cycle(walk)]
fn reach_position(
    alloc: Global,
    cut: &TypedAxis,
    domains: &[Region],
    variables: &[Variable],
    out: &mut Vec<ReachedBox>,
) -> Result<(), AllocError>
    ensures { OnOk result (boxes_reached out.new.items ≡ boxes_reached out.old.items
        ++ positions_reach domains.now (variable_boxes variables.now) (axis_seen cut.now no_axes)) }
{
    match cut {
        TypedAxis::At(e) => reach_into(alloc, e, domains, variables, &[], out),
        TypedAxis::Trim(_, _) => Ok(()),
    }
}

/// Puts at the end the boxes that joined parts read, each where its place meets the result points.
#[cycle(walk)]
#[tactic(auto, using(crate::proofs::Walking::part_turns))]
fn reach_parts(
    alloc: Global,
    parts: &[TypedExpr],
    owns: &[Vec<Interval>],
    places: &[Vec<Interval>],
    domains: &[Region],
    variables: &[Variable],
    around: &[Interval],
    out: &mut Vec<ReachedBox>,
) -> Result<(), AllocError>
    ensures { OnOk result (boxes_reached out.new.items ≡ boxes_reached out.old.items
        ++ parts_reach domains.now (variable_boxes variables.now) (trees_seen parts.now)
        (boxes_held owns.now) (boxes_held places.now) around.now) }
{
    for (at, e) in parts.iter().enumerate() {
        if at >= owns.len() || at >= places.len() {
            return Ok(());
        }
        if let Some(met) = part_box(alloc, &owns[at], &places[at], around)? {
            reach_into(alloc, e, domains, variables, &met, out)?;
        }
    }
    Ok(())
}
