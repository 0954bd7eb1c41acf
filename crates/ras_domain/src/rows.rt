//! Points and their places in row-major order, over the intervals of a region.
ghost use Rattle.std.specs.Prelude.{◌≡◌, ◌+◌, ◌<◌, ◌≤◌, ℕ, length, slice_get, Some, None, option_map, if◌then◌else◌};
ghost use Rattle.ras_domain.specs.Region.{IsRegion, IsIn, points_of, place_in_rows};

use crate::MAX_AXES;
use crate::region::{Interval, Point, extent};

/// The first point: each axis at its lower bound.
pub(crate) fn first_of(axes: &[Interval]) -> Point
    requires { IsRegion axes.now }
    ensures { slice_get (points_of axes.now) 0 ≡ Some result.items }
{
    let mut point = Point::new();
    for axis in axes {
        point.push(axis.lo);
    }
    point
}

/// How many points come before `p`.
pub(crate) fn place_of(axes: &[Interval], p: &[i64]) -> u64
    requires region { IsRegion axes.now }
    requires within { IsIn p.now axes.now }
    ensures before { result ≡ place_in_rows axes.now p.now }
    ensures place { slice_get (points_of axes.now) result ≡ Some p.now }
{
    let mut place = 0;
    for (axis, c) in axes.iter().zip(p) {
        place = place * extent(axis) + c.abs_diff(axis.lo);
    }
    place
}

/// The point at this place.
pub(crate) fn point_of(axes: &[Interval], place: u64) -> Point
    requires region { IsRegion axes.now }
    requires within { place < length (points_of axes.now) }
    ensures { slice_get (points_of axes.now) place ≡ Some result.items }
{
    let mut point = first_of(axes);
    write_point(axes, place, point.as_mut_slice());
    point
}

/// Writes the point at this place over another one.
fn write_point(axes: &[Interval], mut place: u64, point: &mut [i64])
    requires region { IsRegion axes.now }
    requires within { place < length (points_of axes.now) }
    requires long { length point.old ≡ length axes.now }
    ensures { slice_get (points_of axes.now) place ≡ Some point.new }
{
    let mut i = axes.len();
    while i > 0 {
        i -= 1;
        let extent = extent(&axes[i]);
        point[i] = axes[i].lo + (place % extent) as i64;
        place /= extent;
    }
}

/// The point after `p`, and None exactly where `p` is the last.
pub(crate) fn next_of(axes: &[Interval], p: &Point) -> Option<Point>
    requires region { IsRegion axes.now }
    requires within { IsIn p.now.items axes.now }
    ensures { (place : ℕ) → slice_get (points_of axes.now) place ≡ Some p.now.items
        → option_map (λ next. next.items) result ≡ slice_get (points_of axes.now) (place + 1) }
{
    let mut next = Point::try_from(p.as_slice()).unwrap();
    step(axes, next.as_mut_slice()).then_some(next)
}

/// Moves on to the next point, or says that there is none.
fn step(axes: &[Interval], p: &mut [i64]) -> bool
    requires region { IsRegion axes.now }
    requires within { IsIn p.old axes.now }
    ensures { (place : ℕ) → slice_get (points_of axes.now) place ≡ Some p.old
        → slice_get (points_of axes.now) (place + 1) ≡ (if result then Some p.new else None) }
{
    let mut i = axes.len();
    while i > 0 {
        i -= 1;
        if p[i] < axes[i].hi {
            p[i] += 1;
            return true;
        }
        p[i] = axes[i].lo;
    }
    false
}
