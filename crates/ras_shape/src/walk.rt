//! The walk over a checked expression.
ghost use Rattle.std.specs.Prelude.{map, slice_get, ◌≡◌, IfOk, Ok, option_map};
ghost use Rattle.ras_shape.specs.Gives.{GivesAs, GivesShape, shape_of_form};
ghost use Rattle.ras_shape.specs.Looks.{Sees};
ghost use Rattle.ras_shape.specs.Joins.{SeesDomain};
ghost use Rattle.ras_shape.specs.Cuts.{cut_found};
ghost use Rattle.ras_shape.specs.Trees.{StepsCut, axis_and, axis_seen, bound_cuts};
ghost use Rattle.ras_shape.specs.Trees.{domain_looked_at, trees_seen, pairs_seen};
ghost use Rattle.spec_expressions.specs.Check.{tree_of_axes};
ghost use Rattle.spec_expressions.specs.Tree.{Axes, condition_of, edge_of, tree_of};
ghost use Rattle.spec_expressions.specs.Shape.{Box, box_of, condition_shape, cuts_of, edge_value};
ghost use Rattle.spec_expressions.specs.Shape.{iterator_shape, offsets_of, pair_shapes, shapes_of};

use crate::cuts::{Cut, position, trim};
use crate::domains::Written;
use crate::form::{Form, ShapeError, region_of};
use crate::joins::{
    binary, build, case, concat, condense, domain, extend, index, marray, scalar, shift,
};
use crate::look::{Look, Static, form_of, known, number, plain, unary};
use crate::sizes::width_of;
use crate::ways::{index_way, look_at_part, part_way};
use ras_domain::{Interval, Region};
use ras_syntax::{TypedAxis, TypedDomain, TypedExpr, TypedForm};
use sqlite_items::Boxed;
use std::alloc::Global;

/// What is known of an expression, or its first fault.
#[cycle(see)]
pub(crate) fn see(alloc: Global, e: &TypedExpr, domains: &[Region]) -> Result<Look, ShapeError>
    ensures { Sees domains.now (tree_of e.now) result }
{
    let span = e.span;
    let width = width_of(&e.kind);
    match &e.form {
        TypedForm::Bool(_) => plain(Ok(Form::Scalar)),
        TypedForm::Number { value, atom } => Ok(number(value, *atom)),
        TypedForm::Iterator { name: _, place } => plain(iterator(*place, domains)),
        TypedForm::Variable(_) => plain(Ok(Form::Scalar)),
        TypedForm::Unary { op, e } => {
            let e = see(alloc, e.get(), domains);
            unary(*op, e)
        }
        TypedForm::Cast { to: _, e } => {
            let e = see(alloc, e.get(), domains);
            plain(form_of(e))
        }
        TypedForm::Binary { op, a, b } => {
            let a = see(alloc, a.get(), domains);
            let b = see(alloc, b.get(), domains);
            binary(span, *op, a, b)
        }
        TypedForm::Index { e: whole, axes } => {
            let way = index_way(whole.get(), axes.as_slice());
            let form = form_of(see(alloc, whole.get(), domains));
            let cuts = see_cuts(alloc, axes.as_slice(), axes_seen(&form), domains);
            plain(index(alloc, span, way, form, cuts))
        }
        TypedForm::Part { e: whole, part } => {
            let way = part_way(whole.get(), part);
            let whole = see(alloc, whole.get(), domains);
            look_at_part(way, whole)
        }
        TypedForm::Case { arms, other } => {
            let arms = see_pairs(alloc, arms.as_slice(), domains);
            let other = form_of(see(alloc, other.get(), domains));
            plain(case(span, width, arms, other))
        }
        TypedForm::Build(parts) => {
            let parts = see_all(alloc, parts.as_slice(), domains);
            plain(build(span, width, parts))
        }
        TypedForm::Marray {
            x: _,
            domain: over,
            e,
        } => {
            let over = see_domain(alloc, over, domains);
            let inner = form_of(see(alloc, e.get(), domains));
            plain(marray(alloc, span, width, over, inner))
        }
        TypedForm::Condense {
            op: _,
            x: _,
            domain: over,
            cond,
            e,
        } => {
            let over = see_domain(alloc, over, domains);
            let test = see_condition(alloc, cond, domains);
            let inner = form_of(see(alloc, e.get(), domains));
            plain(condense(alloc, span, over, test, inner))
        }
        TypedForm::Cells { f: _, e } => {
            let e = form_of(see(alloc, e.get(), domains));
            plain(scalar(e))
        }
        TypedForm::Shift { e, offsets } => {
            let e = form_of(see(alloc, e.get(), domains));
            let offsets = see_offsets(alloc, offsets.as_slice(), domains);
            plain(shift(alloc, span, e, offsets))
        }
        TypedForm::Extend { e, domain: over } => {
            let e = form_of(see(alloc, e.get(), domains));
            let over = see_domain(alloc, over, domains);
            plain(extend(alloc, span, width, e, over))
        }
        TypedForm::Concat { parts, along } => {
            let parts = see_all(alloc, parts.as_slice(), domains);
            plain(concat(alloc, span, width, along, parts))
        }
        TypedForm::Sdom(e) => {
            let e = form_of(see(alloc, e.get(), domains));
            plain(domain(e))
        }
        TypedForm::Oid(_) => plain(Ok(Form::Scalar)),
    }
}

/// The array that an iterator goes over.
fn iterator(place: u32, domains: &[Region]) -> Result<Form, ShapeError>
    ensures { GivesShape (Ok (iterator_shape (slice_get domains.now place))) result }
{
    match domains.get(place as usize) {
        Some(domain) => Ok(Form::Array(region_of(domain.axes())?)),
        None => Ok(Form::Scalar),
    }
}

/// The axes of a form, and none where there is no form.
fn axes_seen(form: &Result<Form, ShapeError>) -> &[Interval]
    ensures { IfOk form.now (λ form. result.now ≡ box_of (shape_of_form form)) }
{
    match form {
        Ok(form) => form.axes(),
        Err(_) => &[],
    }
}

/// The axis at a place, if there is one.
fn axis_at(axes: &[Interval], place: usize) -> Option<Interval>
    ensures { result ≡ slice_get axes.now place }
{
    axes.get(place).copied()
}

/// The forms of expressions, or the first fault.
#[cycle(see)]
#[tactic(auto, using(crate::proofs::Turns::shapes))]
fn see_all(alloc: Global, es: &[TypedExpr], domains: &[Region]) -> Result<Vec<Form>, ShapeError>
    ensures { GivesAs (λ forms. map shape_of_form forms.items) (shapes_of domains.now (trees_seen es.now)) result }
{
    let mut forms = Vec::new(alloc);
    for e in es {
        let look = see(alloc, e, domains)?;
        forms.push(look.form)?;
    }
    Ok(forms)
}

/// The forms of pairs of expressions, or the first fault.
#[cycle(see)]
#[tactic(auto, using(crate::proofs::Turns::pairs_turns))]
fn see_pairs(
    alloc: Global,
    pairs: &[(TypedExpr, TypedExpr)],
    domains: &[Region],
) -> Result<Vec<Form>, ShapeError>
    ensures { GivesAs (λ forms. map shape_of_form forms.items) (pair_shapes domains.now (pairs_seen pairs.now)) result }
{
    let mut forms = Vec::new(alloc);
    for pair in pairs {
        let first = see(alloc, &pair.0, domains)?;
        let second = see(alloc, &pair.1, domains)?;
        forms.push(first.form)?;
        forms.push(second.form)?;
    }
    Ok(forms)
}

/// The cuts between pairs of bounds, or the first fault.
#[cycle(see)]
#[tactic(auto, using(crate::proofs::Turns::bounds))]
fn see_bounds(
    alloc: Global,
    pairs: &[(TypedExpr, TypedExpr)],
    domains: &[Region],
) -> Result<Vec<Cut>, ShapeError>
    ensures { GivesAs (λ cuts. map cut_found cuts.items) (bound_cuts domains.now (pairs_seen pairs.now)) result }
{
    let mut cuts = Vec::new(alloc);
    for pair in pairs {
        let lo = see(alloc, &pair.0, domains)?;
        let hi = see(alloc, &pair.1, domains)?;
        cuts.push(trim(lo.value, hi.value))?;
    }
    Ok(cuts)
}

/// The values of offsets, or the first fault.
#[cycle(see)]
#[tactic(auto, using(crate::proofs::Turns::offsets))]
fn see_offsets(
    alloc: Global,
    es: &[TypedExpr],
    domains: &[Region],
) -> Result<Vec<Static>, ShapeError>
    ensures { GivesAs (λ values. values.items) (offsets_of domains.now (trees_seen es.now)) result }
{
    let mut values = Vec::new(alloc);
    for e in es {
        let look = see(alloc, e, domains)?;
        values.push(look.value)?;
    }
    Ok(values)
}

/// The cuts of an index over an array with these axes, or the first fault.
#[cycle(see)]
#[tactic(auto, using(crate::proofs::IndexTurns::index_turns))]
pub(crate) fn see_cuts(
    alloc: Global,
    index: &[TypedAxis],
    axes: &[Interval],
    domains: &[Region],
) -> Result<Vec<Cut>, ShapeError>
    ensures { GivesAs (λ cuts. map cut_found cuts.items) (cuts_of domains.now (tree_of_axes index.now) axes.now) result }
{
    let mut cuts = Vec::new(alloc);
    for cut in index {
        let axis = axis_at(axes, cuts.len());
        let Some(found) = see_cut(alloc, cut, axis, domains)? else {
            return Ok(cuts);
        };
        cuts.push(found)?;
    }
    Ok(cuts)
}

/// What an axis of an index makes of an axis of the array, or its first fault. It makes nothing where
/// the array has no such axis.
#[cycle(see)]
fn see_cut(
    alloc: Global,
    cut: &TypedAxis,
    axis: Option<Interval>,
    domains: &[Region],
) -> Result<Option<Cut>, ShapeError>
    ensures { (axes : Axes) (rest : Box)
        → StepsCut (cuts_of domains.now (axis_seen cut.now axes) (axis_and axis rest)) (cuts_of domains.now axes rest) result }
{
    match cut {
        TypedAxis::At(e) => {
            let Some(_) = axis else {
                return Ok(None);
            };
            let place = see(alloc, e, domains)?;
            Ok(Some(position(place.fixed, place.value)))
        }
        TypedAxis::Trim(lo, hi) => {
            let Some(axis) = axis else {
                return Ok(None);
            };
            let lo = see_edge(alloc, lo, &axis.lo, domains)?;
            let hi = see_edge(alloc, hi, &axis.hi, domains)?;
            Ok(Some(trim(lo, hi)))
        }
    }
}

/// The value of a bound of a trim, which is the axis' own bound where there is none.
#[cycle(see)]
fn see_edge(
    alloc: Global,
    bound: &Option<TypedExpr>,
    own: &i64,
    domains: &[Region],
) -> Result<Static, ShapeError>
    ensures { GivesAs (λ value. value) (edge_value domains.now own.now (edge_of (option_map tree_of bound.now))) result }
{
    match bound {
        Some(e) => {
            let look = see(alloc, e, domains)?;
            Ok(look.value)
        }
        None => Ok(known(own)),
    }
}

/// A domain, before its bounds are looked at, or the first fault.
#[cycle(see)]
fn see_domain(
    alloc: Global,
    domain: &TypedDomain,
    domains: &[Region],
) -> Result<Written, ShapeError>
    ensures { SeesDomain domains.now (domain_looked_at domain.now) result }
{
    match domain {
        TypedDomain::Literal(pairs) => {
            let cuts = see_bounds(alloc, pairs.as_slice(), domains)?;
            Ok(Written::Literal(cuts))
        }
        TypedDomain::Sdom(e) => {
            let look = see(alloc, e.get(), domains)?;
            Ok(Written::Taken(look.form))
        }
    }
}

/// A condition, or its first fault. Where there is none, it counts as a scalar.
#[cycle(see)]
fn see_condition(
    alloc: Global,
    condition: &Option<Boxed<TypedExpr>>,
    domains: &[Region],
) -> Result<Form, ShapeError>
    ensures { GivesShape (condition_shape domains.now (condition_of (option_map tree_of condition.now))) result }
{
    match condition {
        Some(e) => {
            let e = see(alloc, e.get(), domains);
            form_of(e)
        }
        None => Ok(Form::Scalar),
    }
}
