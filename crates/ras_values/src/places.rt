//! The places of a concat's parts.
ghost use Rattle.std.specs.Prelude.{◌≡◌, ◌++◌, IfOk, IfSome, OnOk, Some, unsigned_abs};
ghost use Rattle.spec_expressions.specs.Shape.{interval_after, moved_after};
ghost use Rattle.ras_shape.specs.Moves.{box_begun_with, interval_begun_at};
ghost use Rattle.ras_values.specs.Nodes.{axes_kept};
ghost use Rattle.ras_values.specs.Prepared.{place_next, placed_with};
ghost use Rattle.ras_values.specs.Places.{before_seen};

use crate::boxes::axes_of;
use crate::extents::{push_axis, region_of};
use crate::moves::difference;
use ras_domain::{Bounds, Interval, Region};
use std::alloc::AllocError;

/// The place of the first part, and that of the part that was placed last.
#[derive(Drop)]
pub(crate) struct Before {
    first: Option<Region>,
    last: Option<Region>,
}

/// The place of the next part: its own box where it is the first, else moved so that it follows the last one on this
/// axis and begins with the first on the others. The error is want of memory, also where the place is no region.
pub(crate) fn place_after(
    along: &i64,
    before: &Option<Before>,
    own: &Option<Region>,
) -> Result<Option<Region>, AllocError>
    ensures { IfOk result (λ place. axes_kept place
        ≡ place_next (unsigned_abs along.now) (before_seen before.now) (axes_kept own.now)) }
{
    match before {
        None => region_of(axes_of(own)),
        Some(before) => {
            let mut moved = Bounds::new();
            push_moved(
                along.unsigned_abs(),
                axes_of(&before.first),
                axes_of(&before.last),
                axes_of(own),
                &mut moved,
            )?;
            region_of(moved.as_slice())
        }
    }
}

/// The same with this part placed last.
pub(crate) fn followed(before: Option<Before>, place: &Option<Region>) -> Result<Before, AllocError>
    ensures { IfOk result (λ more. before_seen (Some more) ≡ placed_with (before_seen before) (axes_kept place.now)) }
{
    let last = region_of(axes_of(place))?;
    match before {
        Some(before) => Ok(Before {
            first: before.first,
            last,
        }),
        None => {
            let first = region_of(axes_of(place))?;
            Ok(Before { first, last })
        }
    }
}

/// Puts the intervals of `b` at the end, moved so that they follow those of `before` on this axis and begin
/// with those of `first` on the others. The error is that a bound leaves 64 bits, or that there are more
/// than a region has.
fn push_moved(
    along: u64,
    first: &[Interval],
    before: &[Interval],
    b: &[Interval],
    moved: &mut Bounds,
) -> Result<(), AllocError>
    ensures { OnOk result (moved.new.items ≡ moved.old.items ++ moved_after along first.now before.now b.now) }
{
    let [one, firsts @ ..] = first else {
        return Ok(());
    };
    let [last, lasts @ ..] = before else {
        return Ok(());
    };
    let [next, others @ ..] = b else {
        return Ok(());
    };
    if along == 0 {
        let Some(axis) = behind(last, next) else {
            return Err(AllocError);
        };
        push_axis(&axis, moved)?;
        return push_begun(firsts, others, moved);
    }
    let Some(axis) = begun_at(&one.lo, next) else {
        return Err(AllocError);
    };
    push_axis(&axis, moved)?;
    push_moved(along - 1, firsts, lasts, others, moved)
}

/// Puts the intervals of `b` at the end, moved so that they begin with those of `first`. The error is that a bound
/// leaves 64 bits, or that there are more than a region has.
fn push_begun(first: &[Interval], b: &[Interval], moved: &mut Bounds) -> Result<(), AllocError>
    ensures { OnOk result (moved.new.items ≡ moved.old.items ++ box_begun_with first.now b.now) }
{
    let [one, firsts @ ..] = first else {
        return Ok(());
    };
    let [next, others @ ..] = b else {
        return Ok(());
    };
    let Some(axis) = begun_at(&one.lo, next) else {
        return Err(AllocError);
    };
    push_axis(&axis, moved)?;
    push_begun(firsts, others, moved)
}

/// The interval moved so that it follows another one, and None where a bound leaves 64 bits.
fn behind(before: &Interval, axis: &Interval) -> Option<Interval>
    ensures { IfSome result (λ moved. moved ≡ interval_after before.now axis.now) }
{
    let lo = before.hi.checked_add(1)?;
    begun_at(&lo, axis)
}

/// The interval moved so that it begins at `lo`, and None where a bound leaves 64 bits.
fn begun_at(lo: &i64, axis: &Interval) -> Option<Interval>
    ensures { IfSome result (λ moved. moved ≡ interval_begun_at lo.now axis.now) }
{
    let length = difference(&axis.hi, &axis.lo)?;
    let hi = lo.checked_add(length)?;
    Some(Interval { lo: *lo, hi })
}
