//! The axes of type lines.
ghost use Rattle.std.specs.Prelude.{◌≡◌};
ghost use Rattle.spec_workloads.specs.TypeLines as spec;
ghost use Rattle.ras_workload.specs.Kept.{IfPasses, are_bounds};

use ras_domain::{Bounds, Interval, MAX_AXES};
use std::marker::Model;

/// The least bound of an axis.
const LEAST: i128 = -2_147_483_648;

/// The greatest bound of an axis.
const GREATEST: i128 = 2_147_483_647;

/// An axis as it is told: its bounds may leave their range.
#[derive(Debug, Drop)]
pub struct WideInterval {
    lo: i128,
    hi: i128,
}

impl Model for WideInterval {
    ghost use Rattle.ras_domain.specs.declared.region.Interval.{Interval};

    ghost Value = { Interval };

    ghost view = { λ axis. record { lo = axis.lo; hi = axis.hi } };
}

/// A bound in its range.
fn small_bound(bound: i128) -> Option<i64>
    ensures { IfPasses (spec.is_small_bound bound) bound result }
{
    if LEAST <= bound && bound <= GREATEST {
        Some(bound as i64)
    } else {
        None
    }
}

impl WideInterval {
    /// An axis between two bounds; one that isn't told is the least or the greatest there is.
    pub fn told(lo: Option<i128>, hi: Option<i128>) -> WideInterval
        ensures { result ≡ spec.told_interval lo hi }
    {
        let lo = match lo {
            Some(lo) => lo,
            None => LEAST,
        };
        let hi = match hi {
            Some(hi) => hi,
            None => GREATEST,
        };
        WideInterval { lo, hi }
    }

    /// The axis, if its bounds are in their range and in order.
    fn bounded(&self) -> Option<Interval>
        ensures { IfPasses (spec.is_bounded_axis self.now) self.now result }
    {
        let lo = small_bound(self.lo)?;
        let hi = small_bound(self.hi)?;
        if lo <= hi {
            Some(Interval { lo, hi })
        } else {
            None
        }
    }
}

/// The axes of an array, if there are few enough and each is bounded.
pub fn bounds_of(axes: &[WideInterval]) -> Option<Bounds>
    ensures { IfPasses (are_bounds axes.now) (record { items = axes.now }) result }
{
    if axes.is_empty() || axes.len() > MAX_AXES {
        return None;
    }
    let mut bounds = Bounds::new();
    for axis in axes {
        let Some(axis) = axis.bounded() else {
            return None;
        };
        bounds.push(axis);
    }
    Some(bounds)
}
