//! Boxes with or without axes. A box without axes has one point, which has no coordinates.
ghost use Rattle.std.specs.Prelude.{◌≡◌, ◌+◌, ◌≤◌, ℕ, length, slice_get, option_map, Some, IfSome};
ghost use Rattle.ras_domain.specs.Region.{IsIn, is_in, points_of};
ghost use Rattle.ras_values.specs.Nodes.{axes_kept};

use ras_domain::{Interval, MAX_POINTS, Point, Region};

/// The intervals, first axis first.
pub(crate) fn axes_of(axes: &Option<Region>) -> &[Interval]
    ensures { result.now ≡ axes_kept axes.now }
{
    match axes {
        Some(region) => region.axes(),
        None => &[],
    }
}

/// Whether the point has one coordinate from each interval.
pub(crate) fn has_point(axes: &Option<Region>, p: &Point) -> bool
    ensures { result ≡ is_in p.now.items (axes_kept axes.now) }
{
    match axes {
        Some(region) => region.contains(p),
        None => p.is_empty(),
    }
}

/// How many points there are.
pub(crate) fn volume_of(axes: &Option<Region>) -> u64
    ensures volume { result ≡ length (points_of (axes_kept axes.now)) }
    ensures small { result ≤ MAX_POINTS }
{
    match axes {
        Some(region) => {
            let _axes = region.axes();
            region.volume()
        }
        None => 1,
    }
}

/// The first point in row-major order.
pub(crate) fn first_point(axes: &Option<Region>) -> Point
    ensures { slice_get (points_of (axes_kept axes.now)) 0 ≡ Some result.items }
{
    match axes {
        Some(region) => region.first_point(),
        None => Point::new(),
    }
}

/// The point after `p` in row-major order, and None exactly where `p` is the last.
pub(crate) fn next_point(axes: &Option<Region>, p: &Point) -> Option<Point>
    requires { IsIn p.now.items (axes_kept axes.now) }
    ensures { (place : ℕ) → slice_get (points_of (axes_kept axes.now)) place ≡ Some p.now.items
        → option_map (λ next. next.items) result ≡ slice_get (points_of (axes_kept axes.now)) (place + 1) }
{
    match axes {
        Some(region) => region.next_point(p),
        None => None,
    }
}

/// The point after `q` in row-major order, and `q` itself where it is the last.
pub(crate) fn after(axes: &Option<Region>, q: Point) -> Point
    requires { IsIn q.items (axes_kept axes.now) }
    ensures { (place : ℕ) → slice_get (points_of (axes_kept axes.now)) place ≡ Some q.items
        → IfSome (slice_get (points_of (axes_kept axes.now)) (place + 1)) (λ next. next ≡ result.items) }
{
    match next_point(axes, &q) {
        Some(next) => next,
        None => q,
    }
}
