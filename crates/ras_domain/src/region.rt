ghost use Rattle.std.specs.Prelude.{◌≡◌, ◌+◌, ◌<◌, ◌≤◌, ◌↔◌, List, ℤ, ℕ, [], length, slice_get, option_map, Some, All, Any, IsSome, IsNone, IfSome, IsErr, IfOk, IfErr, IsTrue};
ghost use Rattle.std.specs.List.{remove};
ghost use Rattle.ras_domain.specs.Region.{HasSmallBounds, IsOrdered, IsRegion, IsIn, extent_of, points_of};

use crate::rows::{first_of, next_of, place_of, point_of};
use crate::{MAX_AXES, MAX_POINTS, boxes};
use arrayvec::ArrayVec;
use std::marker::Model;

/// The whole numbers from `lo` to `hi`, both included.
#[derive(Clone, Copy, Debug, Default, PartialEq, Eq)]
pub struct Interval {
    pub lo: i64,
    pub hi: i64,
}

/// A coordinate on each axis, first axis first.
pub type Point = ArrayVec<i64, MAX_AXES>;

/// An interval for each axis, first axis first.
pub type Bounds = ArrayVec<Interval, MAX_AXES>;

/// Why intervals are no region, in the order in which it is tried.
#[derive(Clone, Copy, Debug, PartialEq, Eq)]
pub enum DomainFault {
    /// There are more than [`MAX_AXES`] intervals.
    TooManyAxes,
    /// A bound leaves -2^31 to 2^31 - 1.
    BoundOut,
    /// A lower bound exceeds the upper one, or there is no interval.
    Empty,
    /// There are more than [`MAX_POINTS`] points.
    TooLarge,
}

/// A box of points with 1 to [`MAX_AXES`] axes and at most [`MAX_POINTS`] points. Contracts see it
/// as the list of its intervals.
#[derive(Debug, PartialEq, Eq, Drop)]
pub struct Region {
    axes: Bounds,
}

impl Model for Region {
    ghost use Rattle.std.specs.Prelude.{List};
    ghost use Rattle.ras_domain.specs.Region.{HasSmallBounds, IsOrdered, IsRegion, IsIn, extent_of, points_of};
    ghost use Rattle.ras_domain.specs.declared.region.Interval.{Interval};
    ghost use Rattle.ras_domain.specs.Region.{IsRegion};

    ghost Value = { List Interval };

    ghost view = { λ r. r.axes.items };

    ghost invariant = { λ r. IsRegion r.axes.items };

    ghost inverse = { λ axes. record { axes = record { items = axes } } };
}

impl Region {
    ghost use Rattle.ras_domain.specs.Region.{IsRegion, HasDomainFault, HasSmallBounds, IsIn, points_of, place_in_rows};
    ghost use Rattle.ras_domain.specs.Boxes.{Covers, AreDisjoint, IsMeeting, IsHull, IsShifted, IsCut, meet_of, hull_of, shifted_by};
    ghost use Rattle.ras_domain.specs.declared.region.DomainFault.TheVariants.{BoundOut, TooLarge};

    /// The box of these intervals, or the first fault in the order of [`DomainFault`].
    pub fn new(axes: &[Interval]) -> Result<Region, DomainFault>
        ensures region { IfOk result (λ region. (region ≡ axes.now) × IsRegion axes.now) }
        ensures fault { IfErr result (λ fault. HasDomainFault axes.now fault) }
    {
        let Ok(bounds) = Bounds::try_from(axes) else {
            return Err(DomainFault::TooManyAxes);
        };
        if axes.iter().any(|axis| !has_small_bounds(axis)) {
            return Err(DomainFault::BoundOut);
        }
        if axes.is_empty() {
            return Err(DomainFault::Empty);
        }
        if axes.iter().any(|axis| axis.lo > axis.hi) {
            return Err(DomainFault::Empty);
        }
        if !has_few_points(axes) {
            return Err(DomainFault::TooLarge);
        }
        Ok(Region { axes: bounds })
    }

    /// The intervals, first axis first.
    pub fn axes(&self) -> &[Interval]
        ensures axes { result.now ≡ self.now }
        ensures region { IsRegion self.now }
    {
        self.axes.as_slice()
    }

    /// Whether the point has one coordinate from each interval.
    pub fn contains(&self, p: &Point) -> bool
        ensures { IsTrue result ↔ IsIn p.now.items self.now }
    {
        has_point(self.axes(), p.as_slice())
    }

    /// Whether each point of `r` is in this region. It is false where their numbers of axes differ.
    pub fn covers(&self, r: &Region) -> bool
        ensures { IsTrue result ↔ Covers self.now r.now }
    {
        boxes::covers(self.axes(), r.axes())
    }

    /// The region of the points in both, and None exactly where there is none.
    pub fn meet(&self, r: &Region) -> Option<Region>
        requires { length self.now ≡ length r.now }
        ensures points { IfSome result (λ both. IsMeeting both self.now r.now) }
        ensures axes { IfSome result (λ both. both ≡ meet_of self.now r.now) }
        ensures region { IfSome result IsRegion }
        ensures none { IsNone result ↔ AreDisjoint self.now r.now }
    {
        let axes = boxes::meet_of(self.axes(), r.axes());
        if !boxes::is_ordered(axes.as_slice()) {
            return None;
        }
        Some(Region { axes })
    }

    /// The least region with the points of both. The error is [`DomainFault::TooLarge`], exactly where
    /// the least box with these points has more than [`MAX_POINTS`].
    pub fn hull(&self, r: &Region) -> Result<Region, DomainFault>
        requires { length self.now ≡ length r.now }
        ensures points { IfOk result (λ hull. IsHull hull self.now r.now) }
        ensures axes { IfOk result (λ hull. hull ≡ hull_of self.now r.now) }
        ensures region { IfOk result IsRegion }
        ensures fault { IfErr result (λ fault. fault ≡ TooLarge) }
        ensures too_large { IsErr result ↔ (MAX_POINTS < length (points_of (hull_of self.now r.now))) }
    {
        let axes = boxes::hull_of(self.axes(), r.axes());
        if !has_few_points(axes.as_slice()) {
            return Err(DomainFault::TooLarge);
        }
        Ok(Region { axes })
    }

    /// The region moved by `d`, an offset for each axis. The error is [`DomainFault::BoundOut`], exactly
    /// where a moved bound leaves -2^31 to 2^31 - 1.
    pub fn shift_by(&self, d: &[i64]) -> Result<Region, DomainFault>
        requires { length d.now ≡ length self.now }
        ensures points { IfOk result (λ shifted. IsShifted d.now self.now shifted) }
        ensures axes { IfOk result (λ shifted. shifted ≡ shifted_by d.now self.now) }
        ensures region { IfOk result IsRegion }
        ensures fault { IfErr result (λ fault. fault ≡ BoundOut) }
        ensures bound_out { IsErr result ↔ Any (λ axis. ¬ HasSmallBounds axis) (shifted_by d.now self.now) }
    {
        let Some(axes) = boxes::shifted_by(self.axes(), d) else {
            return Err(DomainFault::BoundOut);
        };
        Ok(Region { axes })
    }

    /// The region of the points with the coordinate on this axis left out, and None exactly where no
    /// other axis is left.
    pub fn cut_axis(&self, axis: usize) -> Option<Region>
        requires { axis < length self.now }
        ensures points { IfSome result (λ cut. IsCut axis self.now cut) }
        ensures axes { IfSome result (λ cut. cut ≡ remove self.now axis) }
        ensures region { IfSome result IsRegion }
        ensures none { IsNone result ↔ (length self.now ≡ 1) }
    {
        let axes = self.axes();
        if axes.len() == 1 {
            return None;
        }
        Some(Region {
            axes: boxes::cut_axis(axes, axis),
        })
    }

    /// How many points there are.
    pub fn volume(&self) -> u64
        ensures { result ≡ length (points_of self.now) }
    {
        volume_of(self.axes())
    }

    /// The first point in row-major order.
    pub fn first_point(&self) -> Point
        ensures { slice_get (points_of self.now) 0 ≡ Some result.items }
    {
        first_of(self.axes())
    }

    /// The point after `p` in row-major order, and None exactly where `p` is the last.
    pub fn next_point(&self, p: &Point) -> Option<Point>
        requires { IsIn p.now.items self.now }
        ensures { (place : ℕ) → slice_get (points_of self.now) place ≡ Some p.now.items
            → option_map (λ next. next.items) result ≡ slice_get (points_of self.now) (place + 1) }
    {
        next_of(self.axes(), p)
    }

    /// How many points of the region come before `p` in row-major order.
    pub fn row_place(&self, p: &Point) -> u64
        requires { IsIn p.now.items self.now }
        ensures before { result ≡ place_in_rows self.now p.now.items }
        ensures place { slice_get (points_of self.now) result ≡ Some p.now.items }
    {
        place_of(self.axes(), p.as_slice())
    }

    /// The point at this place in row-major order, counted from 0.
    pub fn point_at(&self, place: u64) -> Point
        requires { place < length (points_of self.now) }
        ensures { slice_get (points_of self.now) place ≡ Some result.items }
    {
        point_of(self.axes(), place)
    }
}

/// Whether both bounds are numbers of 32 bits.
pub(crate) fn has_small_bounds(axis: &Interval) -> bool
    ensures { IsTrue result ↔ HasSmallBounds axis.now }
{
    i32::try_from(axis.lo).is_ok() && i32::try_from(axis.hi).is_ok()
}

/// How many whole numbers an interval has.
pub(crate) fn extent(axis: &Interval) -> u64
    requires small_bounds { HasSmallBounds axis.now }
    requires ordered { IsOrdered axis.now }
    ensures { result ≡ extent_of axis.now }
{
    axis.hi.abs_diff(axis.lo) + 1
}

/// Whether there are at most [`MAX_POINTS`] points.
#[tactic(auto, using(crate::proofs::Points::volume_steps))]
fn has_few_points(axes: &[Interval]) -> bool
    requires few_axes { length axes.now ≤ MAX_AXES }
    requires small_bounds { All HasSmallBounds axes.now }
    requires ordered { All IsOrdered axes.now }
    ensures { IsTrue result ↔ (length (points_of axes.now) ≤ MAX_POINTS) }
{
    let mut points = 1;
    for axis in axes {
        points *= extent(axis);
        if points > MAX_POINTS {
            return false;
        }
    }
    true
}

fn has_point(axes: &[Interval], p: &[i64]) -> bool
    ensures { IsTrue result ↔ IsIn p.now axes.now }
{
    axes.len() == p.len()
        && axes
            .iter()
            .zip(p)
            .all(|(axis, c)| axis.lo <= *c && *c <= axis.hi)
}

/// How many points a box has.
#[tactic(auto, using(crate::proofs::Points::volume_steps))]
pub(crate) fn volume_of(axes: &[Interval]) -> u64
    requires { IsRegion axes.now }
    ensures { result ≡ length (points_of axes.now) }
{
    let mut volume = 1;
    for axis in axes {
        volume *= extent(axis);
    }
    volume
}
