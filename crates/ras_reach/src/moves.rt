//! Boxes that are moved, and the places of joined parts.
ghost use Rattle.std.specs.Prelude.{◌≡◌, ◌++◌, map, neg_ℤ, unsigned_abs, IfOk, IfSome, OnOk, ◌-ℤ◌};
ghost use Rattle.ras_domain.specs.Boxes.{shifted_axis as shifted_axis_of, shifted_by};
ghost use Rattle.spec_expressions.specs.Reach.{moved_back as moved_back_of};
ghost use Rattle.spec_expressions.specs.Shape.{interval_after, moved_after as moved_after_of, placed_after, placed_parts};
ghost use Rattle.ras_reach.specs.Moved.{moved_to_begin, boxes_held, differences_between, interval_begun};

use ras_domain::Interval;
use std::alloc::{AllocError, Global};

/// The interval moved by an offset, and None where a bound leaves 64 bits.
fn shifted_axis(axis: &Interval, by: &i64) -> Option<Interval>
    ensures { IfSome result (λ moved. moved ≡ shifted_axis_of by.now axis.now) }
{
    Some(Interval {
        lo: axis.lo.checked_add(*by)?,
        hi: axis.hi.checked_add(*by)?,
    })
}

/// Puts the intervals at the end, each moved by its offset; one without an offset stays as it is. The
/// error is want of memory, or that a bound leaves 64 bits.
fn push_shifted(
    offsets: &[i64],
    axes: &[Interval],
    moved: &mut Vec<Interval>,
) -> Result<(), AllocError>
    ensures { OnOk result (moved.new.items ≡ moved.old.items ++ shifted_by offsets.now axes.now) }
{
    let [by, offsets @ ..] = offsets else {
        return moved.extend_from_slice(axes);
    };
    let [axis, axes @ ..] = axes else {
        return Ok(());
    };
    let Some(axis) = shifted_axis(axis, by) else {
        return Err(AllocError);
    };
    moved.push(axis)?;
    push_shifted(offsets, axes, moved)
}

/// The box moved by an offset on each axis. The error is want of memory, or that a bound leaves 64
/// bits.
fn shifted(alloc: Global, offsets: &[i64], axes: &[Interval]) -> Result<Vec<Interval>, AllocError>
    ensures { IfOk result (λ moved. moved.items ≡ shifted_by offsets.now axes.now) }
{
    let mut moved = Vec::new(alloc);
    push_shifted(offsets, axes, &mut moved)?;
    Ok(moved)
}

/// The box moved back by an offset on each axis. The error is want of memory, or that a bound leaves
/// 64 bits.
pub(crate) fn shifted_back(
    alloc: Global,
    offsets: &[i64],
    axes: &[Interval],
) -> Result<Vec<Interval>, AllocError>
    ensures { IfOk result (λ moved. moved.items ≡ shifted_by (map neg_ℤ offsets.now) axes.now) }
{
    let mut negated = Vec::new(alloc);
    push_negated(offsets, &mut negated)?;
    shifted(alloc, &negated, axes)
}

/// Puts the negated numbers at the end. The error is want of memory, or that one leaves 64 bits.
fn push_negated(numbers: &[i64], negated: &mut Vec<i64>) -> Result<(), AllocError>
    ensures { OnOk result (negated.new.items ≡ negated.old.items ++ map neg_ℤ numbers.now) }
{
    let [number, others @ ..] = numbers else {
        return Ok(());
    };
    let Some(opposite) = number.checked_neg() else {
        return Err(AllocError);
    };
    negated.push(opposite)?;
    push_negated(others, negated)
}

/// The difference, and None where it leaves 64 bits.
fn difference(a: &i64, b: &i64) -> Option<i64>
    ensures { IfSome result (λ z. z ≡ a.now -ℤ b.now) }
{
    a.checked_sub(*b)
}

/// Puts at the end how far the box `to` begins after the box `from` on each axis. The error is want of
/// memory, or that a difference leaves 64 bits.
fn push_differences(
    from: &[Interval],
    to: &[Interval],
    offsets: &mut Vec<i64>,
) -> Result<(), AllocError>
    ensures { OnOk result (offsets.new.items ≡ offsets.old.items ++ differences_between from.now to.now) }
{
    let [a, from @ ..] = from else {
        return Ok(());
    };
    let [b, to @ ..] = to else {
        return Ok(());
    };
    let Some(offset) = difference(&b.lo, &a.lo) else {
        return Err(AllocError);
    };
    offsets.push(offset)?;
    push_differences(from, to, offsets)
}

/// The box, moved as the box `to` lies to the box `from`. The error is want of memory, or that a bound
/// leaves 64 bits.
pub(crate) fn moved_back(
    alloc: Global,
    from: &[Interval],
    to: &[Interval],
    axes: &[Interval],
) -> Result<Vec<Interval>, AllocError>
    ensures { IfOk result (λ moved. moved.items ≡ moved_back_of from.now to.now axes.now) }
{
    let mut offsets = Vec::new(alloc);
    push_differences(from, to, &mut offsets)?;
    shifted(alloc, &offsets, axes)
}

/// The interval moved so that it begins at `lo`, and None where a bound leaves 64 bits.
fn begun_at(lo: &i64, axis: &Interval) -> Option<Interval>
    ensures { IfSome result (λ moved. moved ≡ interval_begun lo.now axis.now) }
{
    let length = difference(&axis.hi, &axis.lo)?;
    let hi = lo.checked_add(length)?;
    Some(Interval { lo: *lo, hi })
}

/// The interval moved so that it follows another one, and None where a bound leaves 64 bits.
fn behind(before: &Interval, axis: &Interval) -> Option<Interval>
    ensures { IfSome result (λ moved. moved ≡ interval_after before.now axis.now) }
{
    let lo = before.hi.checked_add(1)?;
    begun_at(&lo, axis)
}

/// Puts the intervals of `b` at the end, moved so that they begin with those of `first`. The error is
/// want of memory, or that a bound leaves 64 bits.
fn push_begun(
    first: &[Interval],
    b: &[Interval],
    moved: &mut Vec<Interval>,
) -> Result<(), AllocError>
    ensures { OnOk result (moved.new.items ≡ moved.old.items ++ moved_to_begin first.now b.now) }
{
    let [one, firsts @ ..] = first else {
        return Ok(());
    };
    let [next, others @ ..] = b else {
        return Ok(());
    };
    let Some(axis) = begun_at(&one.lo, next) else {
        return Err(AllocError);
    };
    moved.push(axis)?;
    push_begun(firsts, others, moved)
}

/// Puts the intervals of `b` at the end, moved so that they follow those of `before` on this axis and
/// begin with those of `first` on the others. The error is want of memory, or that a bound leaves 64
/// bits.
fn push_moved(
    along: u64,
    first: &[Interval],
    before: &[Interval],
    b: &[Interval],
    moved: &mut Vec<Interval>,
) -> Result<(), AllocError>
    ensures { OnOk result (moved.new.items ≡ moved.old.items ++ moved_after_of along first.now before.now b.now) }
{
    let [one, firsts @ ..] = first else {
        return Ok(());
    };
    let [last, lasts @ ..] = before else {
        return Ok(());
    };
    let [next, others @ ..] = b else {
        return Ok(());
    };
    if along == 0 {
        let Some(axis) = behind(last, next) else {
            return Err(AllocError);
        };
        moved.push(axis)?;
        return push_begun(firsts, others, moved);
    }
    let Some(axis) = begun_at(&one.lo, next) else {
        return Err(AllocError);
    };
    moved.push(axis)?;
    push_moved(along - 1, firsts, lasts, others, moved)
}

/// The box `b`, moved so that it follows `before` on this axis and begins with `first` on the others.
/// The error is want of memory, or that a bound leaves 64 bits.
fn moved_after(
    alloc: Global,
    along: u64,
    first: &[Interval],
    before: &[Interval],
    b: &[Interval],
) -> Result<Vec<Interval>, AllocError>
    ensures { IfOk result (λ moved. moved.items ≡ moved_after_of along first.now before.now b.now) }
{
    let mut moved = Vec::new(alloc);
    push_moved(along, first, before, b, &mut moved)?;
    Ok(moved)
}

/// Puts at the end the boxes of the parts after the first, each moved so that it follows its
/// predecessor. The error is want of memory, or that a bound leaves 64 bits.
#[tactic(auto, using(crate::proofs::Placing::placing))]
fn push_placed(
    alloc: Global,
    along: u64,
    first: &[Interval],
    before: &[Interval],
    parts: &[Vec<Interval>],
    places: &mut Vec<Vec<Interval>>,
) -> Result<(), AllocError>
    ensures { OnOk result (boxes_held places.new.items ≡ boxes_held places.old.items
        ++ placed_after along first.now before.now (boxes_held parts.now)) }
{
    let [part, parts @ ..] = parts else {
        return Ok(());
    };
    let next = moved_after(alloc, along, first, before, part)?;
    places.push(Vec::from_slice(alloc, &next)?)?;
    push_placed(alloc, along, first, &next, parts, places)
}

/// The boxes of joined parts, each moved to its place. The error is want of memory, or that a bound
/// leaves 64 bits.
#[tactic(auto, using(crate::proofs::Placing::placing))]
pub(crate) fn placed(
    alloc: Global,
    along: u64,
    parts: &[Vec<Interval>],
) -> Result<Vec<Vec<Interval>>, AllocError>
    ensures { IfOk result (λ places. boxes_held places.items ≡ placed_parts along (boxes_held parts.now)) }
{
    let [first, others @ ..] = parts else {
        return Ok(Vec::new(alloc));
    };
    let mut places = Vec::new(alloc);
    places.push(Vec::from_slice(alloc, first)?)?;
    push_placed(alloc, along, first, first, others, &mut places)?;
    Ok(places)
}

/// The number of an axis. A negative one, which no checked expression has, counts as its opposite.
pub(crate) fn axis_number(along: &i64) -> u64
    ensures { result ≡ unsigned_abs along.now }
{
    along.unsigned_abs()
}
