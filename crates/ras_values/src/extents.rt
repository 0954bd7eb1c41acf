//! Boxes of parts, written domains, offsets, and the places of a concat's parts.
ghost use Rattle.std.specs.Prelude.{◌≡◌, ◌∷◌, ◌++◌, [], IfOk, OnOk};
ghost use Rattle.spec_expressions.specs.Tree.{tree_of};
ghost use Rattle.spec_expressions.specs.Shape.{is_small as is_small_number, shape_of, shapes_of, written_of};
ghost use Rattle.spec_expressions.specs.Eval.{axes_in, box_in, written_in};
ghost use Rattle.ras_shape.specs.Trees.{domain_looked_at, pairs_seen, trees_seen};
ghost use Rattle.ras_values.specs.Nodes.{axes_kept};
ghost use Rattle.ras_values.specs.Extents.{all_or_none, all_offsets, axis_of_bounds, between_bounds};
ghost use Rattle.ras_values.specs.Extents.{bounds_between, has_outcome, offset_value};

use crate::statics::{Static, static_value};
use ras_domain::{Bounds, Interval, Point, Region};
use ras_shape::{Form, ShapeError, shape};
use ras_syntax::{TypedDomain, TypedExpr};
use std::alloc::{AllocError, Global};

/// The box of an expression, without axes where it has a shape fault. The error is want of memory.
pub(crate) fn box_of(
    alloc: Global,
    e: &TypedExpr,
    domains: &[Region],
) -> Result<Option<Region>, AllocError>
    ensures { IfOk result (λ axes. axes_kept axes ≡ box_in (shape_of domains.now (tree_of e.now))) }
{
    match shape(alloc, e, domains) {
        Ok(Form::Scalar) => Ok(None),
        Ok(Form::Array(region)) => Ok(Some(region)),
        Ok(Form::Domain(region)) => Ok(Some(region)),
        Err(ShapeError::Fault { span: _, fault: _ }) => Ok(None),
        Err(ShapeError::Memory) => Err(AllocError),
    }
}

/// The box of a domain, without axes where it has a fault. The error is want of memory, which comes also
/// where the box has more axes or points than a region.
#[tactic(auto, using(crate::proofs::Written::domain_boxes))]
pub(crate) fn box_written(
    alloc: Global,
    domain: &TypedDomain,
    domains: &[Region],
) -> Result<Option<Region>, AllocError>
    ensures { IfOk result (λ axes. axes_kept axes
        ≡ axes_in (written_in (written_of domains.now (domain_looked_at domain.now)))) }
{
    match domain {
        TypedDomain::Literal(pairs) => {
            let bounds = literal_bounds(alloc, pairs.as_slice(), domains)?;
            region_of(bounds.as_slice())
        }
        TypedDomain::Sdom(e) => box_of(alloc, e.get(), domains),
    }
}

/// The region of these intervals, None where there is none. The error is want of memory, also where they
/// are no region's.
pub(crate) fn region_of(axes: &[Interval]) -> Result<Option<Region>, AllocError>
    ensures { IfOk result (λ region. axes_kept region ≡ axes.now) }
{
    if axes.is_empty() {
        return Ok(None);
    }
    match Region::new(axes) {
        Ok(region) => Ok(Some(region)),
        Err(_) => Err(AllocError),
    }
}

/// The intervals between written bounds, none where one has a fault, no value of 32 bits, or is empty.
#[tactic(auto, using(crate::proofs::Written::bound_loops))]
fn literal_bounds(
    alloc: Global,
    pairs: &[(TypedExpr, TypedExpr)],
    domains: &[Region],
) -> Result<Bounds, AllocError>
    ensures { IfOk result (λ bounds. bounds.items ≡ all_or_none (bounds_between domains.now (pairs_seen pairs.now))) }
{
    let mut bounds = Bounds::new();
    for pair in pairs {
        let Some(axis) = axis_between(alloc, &pair.0, &pair.1, domains)? else {
            return Ok(Bounds::new());
        };
        push_axis(&axis, &mut bounds)?;
    }
    Ok(bounds)
}

/// Puts an interval at the end. The error is that there are as many as a region has.
pub(crate) fn push_axis(axis: &Interval, bounds: &mut Bounds) -> Result<(), AllocError>
    ensures { OnOk result (bounds.new.items ≡ bounds.old.items ++ axis.now ∷ []) }
{
    match bounds.try_push(*axis) {
        Ok(()) => Ok(()),
        Err(_) => Err(AllocError),
    }
}

/// The interval between two written bounds, if there is one.
fn axis_between(
    alloc: Global,
    a: &TypedExpr,
    b: &TypedExpr,
    domains: &[Region],
) -> Result<Option<Interval>, AllocError>
    ensures { IfOk result (λ axis. axis ≡ axis_of_bounds domains.now (tree_of a.now) (tree_of b.now)) }
{
    if !has_shape(alloc, a, domains)? {
        return Ok(None);
    }
    if !has_shape(alloc, b, domains)? {
        return Ok(None);
    }
    let lo = static_value(alloc, a, domains)?;
    let hi = static_value(alloc, b, domains)?;
    Ok(interval_between(lo, hi))
}

/// The interval between two bounds, where both are numbers of 32 bits and don't fall.
fn interval_between(lo: Static, hi: Static) -> Option<Interval>
    ensures { result ≡ between_bounds lo hi }
{
    let (Ok(lo), Ok(hi)) = (lo, hi) else {
        return None;
    };
    if is_small(&lo) && is_small(&hi) && lo <= hi {
        Some(Interval { lo, hi })
    } else {
        None
    }
}

/// Whether it is a number of 32 bits.
fn is_small(z: &i64) -> bool
    ensures { result ≡ is_small_number z.now }
{
    i32::try_from(*z).is_ok()
}

/// Whether an expression has no shape fault.
fn has_shape(alloc: Global, e: &TypedExpr, domains: &[Region]) -> Result<bool, AllocError>
    ensures { IfOk result (λ has. has ≡ has_outcome (shape_of domains.now (tree_of e.now))) }
{
    match shape(alloc, e, domains) {
        Ok(_) => Ok(true),
        Err(ShapeError::Fault { span: _, fault: _ }) => Ok(false),
        Err(ShapeError::Memory) => Err(AllocError),
    }
}

/// Whether no expression has a shape fault.
#[tactic(auto, using(crate::proofs::Written::have_loop))]
pub(crate) fn have_shapes(
    alloc: Global,
    parts: &[TypedExpr],
    domains: &[Region],
) -> Result<bool, AllocError>
    ensures { IfOk result (λ have. have ≡ has_outcome (shapes_of domains.now (trees_seen parts.now))) }
{
    for part in parts {
        if !has_shape(alloc, part, domains)? {
            return Ok(false);
        }
    }
    Ok(true)
}

/// The offsets of a shift, none where one has a fault or no value. The error is want of memory, also
/// where there are more than a point has coordinates.
#[tactic(auto, using(crate::proofs::Written::offset_loops))]
pub(crate) fn offsets_of(
    alloc: Global,
    offsets: &[TypedExpr],
    domains: &[Region],
) -> Result<Point, AllocError>
    ensures { IfOk result (λ all. all.items ≡ all_or_none (all_offsets domains.now (trees_seen offsets.now))) }
{
    let mut all = Point::new();
    for offset in offsets {
        let Some(value) = offset_of(alloc, offset, domains)? else {
            return Ok(Point::new());
        };
        let Ok(()) = all.try_push(value) else {
            return Err(AllocError);
        };
    }
    Ok(all)
}

/// The value of an offset, if it has one.
fn offset_of(
    alloc: Global,
    offset: &TypedExpr,
    domains: &[Region],
) -> Result<Option<i64>, AllocError>
    ensures { IfOk result (λ value. value ≡ offset_value domains.now (tree_of offset.now)) }
{
    if !has_shape(alloc, offset, domains)? {
        return Ok(None);
    }
    let value = static_value(alloc, offset, domains)?;
    Ok(value.ok())
}
