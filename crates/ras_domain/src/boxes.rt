//! Boxes made from others, over the intervals of regions.
ghost use Rattle.std.specs.Prelude.{◌≡◌, ◌<◌, ◌≤◌, ◌↔◌, length, All, Any, IfSome, IfNone, IsTrue};
ghost use Rattle.std.specs.List.{remove};
ghost use Rattle.ras_domain.specs.Region.{IsRegion, IsOrdered, HasSmallBounds};
ghost use Rattle.ras_domain.specs.Boxes.{Covers, meet_of, hull_of, shifted_axis, shifted_by};

use crate::MAX_AXES;
use crate::region::{Bounds, Interval, has_small_bounds};

/// Whether each point of `small` is in `big`.
pub(crate) fn covers(big: &[Interval], small: &[Interval]) -> bool
    requires { All IsOrdered small.now }
    ensures { IsTrue result ↔ Covers big.now small.now }
{
    big.len() == small.len()
        && big
            .iter()
            .zip(small)
            .all(|(big, small)| big.lo <= small.lo && small.hi <= big.hi)
}

/// Whether each interval has a number in it.
pub(crate) fn is_ordered(axes: &[Interval]) -> bool
    ensures { IsTrue result ↔ All IsOrdered axes.now }
{
    axes.iter().all(|axis| axis.lo <= axis.hi)
}

/// The intervals of the points in both boxes. One is empty where there is no such point.
pub(crate) fn meet_of(a: &[Interval], b: &[Interval]) -> Bounds
    requires first { IsRegion a.now }
    requires second { IsRegion b.now }
    requires same_axes { length a.now ≡ length b.now }
    ensures { result.items ≡ meet_of a.now b.now }
{
    let mut bounds = Bounds::new();
    for (first, second) in a.iter().zip(b) {
        bounds.push(Interval {
            lo: first.lo.max(second.lo),
            hi: first.hi.min(second.hi),
        });
    }
    bounds
}

/// The intervals of the least box with the points of both.
pub(crate) fn hull_of(a: &[Interval], b: &[Interval]) -> Bounds
    requires first { IsRegion a.now }
    requires second { IsRegion b.now }
    requires same_axes { length a.now ≡ length b.now }
    ensures { result.items ≡ hull_of a.now b.now }
{
    let mut bounds = Bounds::new();
    for (first, second) in a.iter().zip(b) {
        bounds.push(Interval {
            lo: first.lo.min(second.lo),
            hi: first.hi.max(second.hi),
        });
    }
    bounds
}

/// The intervals moved by an offset each, and None where a bound leaves 32 bits.
pub(crate) fn shifted_by(axes: &[Interval], d: &[i64]) -> Option<Bounds>
    requires few_axes { length axes.now ≤ MAX_AXES }
    requires same_axes { length d.now ≡ length axes.now }
    requires small_bounds { All HasSmallBounds axes.now }
    ensures moved { IfSome result (λ bounds. bounds.items ≡ shifted_by d.now axes.now) }
    ensures small { IfSome result (λ bounds. All HasSmallBounds bounds.items) }
    ensures out { IfNone result (Any (λ axis. ¬ HasSmallBounds axis) (shifted_by d.now axes.now)) }
{
    let mut bounds = Bounds::new();
    for (axis, by) in axes.iter().zip(d) {
        bounds.push(shifted_axis(axis, by)?);
    }
    Some(bounds)
}

/// The interval moved by an offset, and None where a bound leaves 32 bits.
fn shifted_axis(axis: &Interval, by: &i64) -> Option<Interval>
    requires { HasSmallBounds axis.now }
    ensures moved { IfSome result (λ moved. moved ≡ shifted_axis by.now axis.now) }
    ensures small { IfSome result HasSmallBounds }
    ensures out { IfNone result (¬ HasSmallBounds (shifted_axis by.now axis.now)) }
{
    let moved = Interval {
        lo: axis.lo.checked_add(*by)?,
        hi: axis.hi.checked_add(*by)?,
    };
    has_small_bounds(&moved).then_some(moved)
}

/// The intervals without the one at `axis`.
pub(crate) fn cut_axis(axes: &[Interval], axis: usize) -> Bounds
    requires few_axes { length axes.now ≤ MAX_AXES }
    requires among { axis < length axes.now }
    ensures { result.items ≡ remove axes.now axis }
{
    let mut bounds = Bounds::try_from(axes).unwrap();
    bounds.remove(axis);
    bounds
}
