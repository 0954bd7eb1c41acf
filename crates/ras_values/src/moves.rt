//! Points moved along.
ghost use Rattle.std.specs.Prelude.{◌≡◌, ◌+◌, ◌≤◌, ◌-ℤ◌, ◌+ℤ◌, ◌++◌, neg_ℤ};
ghost use Rattle.std.specs.Prelude.{length, map, true, FitsSigned, IfSome, SomeIff};
ghost use Rattle.std.specs.Int.{w64};
ghost use Rattle.ras_domain.specs.Boxes.{moved_by};
ghost use Rattle.spec_expressions.specs.Eval.{moved_between};

use ras_domain::{Interval, MAX_AXES, Point};

/// The point moved back by an offset on each axis, and None where a coordinate leaves 64 bits.
pub(crate) fn moved_back(offsets: &Point, p: &Point) -> Option<Point>
    ensures { IfSome result (λ q. q.items ≡ moved_by (map neg_ℤ offsets.now.items) p.now.items) }
{
    let mut q = Point::new();
    push_moved_back(offsets.as_slice(), p.as_slice(), &mut q).then_some(q)
}

/// The point of the box `from`, moved to where it lies in the box `to`, and None where a coordinate leaves 64 bits.
pub(crate) fn moved_to(from: &[Interval], to: &[Interval], p: &Point) -> Option<Point>
    ensures { IfSome result (λ q. q.items ≡ moved_between from.now to.now p.now.items) }
{
    let mut q = Point::new();
    push_moved_to(from, to, p.as_slice(), &mut q).then_some(q)
}

/// Puts the moved coordinates at the end, and says whether all have 64 bits.
fn push_moved_back(offsets: &[i64], p: &[i64], q: &mut Point) -> bool
    requires { length q.old.items + length p.now ≤ MAX_AXES }
    ensures { result ≡ true → q.new.items ≡ q.old.items ++ moved_by (map neg_ℤ offsets.now) p.now }
{
    let [c, others @ ..] = p else {
        return true;
    };
    let [d, more @ ..] = offsets else {
        q.push(*c);
        return push_moved_back(offsets, others, q);
    };
    let Some(moved) = difference(c, d) else {
        return false;
    };
    q.push(moved);
    push_moved_back(more, others, q)
}

/// Puts the moved coordinates at the end, and says whether all have 64 bits.
fn push_moved_to(from: &[Interval], to: &[Interval], p: &[i64], q: &mut Point) -> bool
    requires { length q.old.items + length p.now ≤ MAX_AXES }
    ensures { result ≡ true → q.new.items ≡ q.old.items ++ moved_between from.now to.now p.now }
{
    let [c, others @ ..] = p else {
        return true;
    };
    let [first, firsts @ ..] = from else {
        return true;
    };
    let [last, lasts @ ..] = to else {
        return true;
    };
    let Some(by) = difference(&last.lo, &first.lo) else {
        return false;
    };
    let Some(moved) = sum(c, &by) else {
        return false;
    };
    q.push(moved);
    push_moved_to(firsts, lasts, others, q)
}

/// The difference, and None where it leaves 64 bits.
pub(crate) fn difference(a: &i64, b: &i64) -> Option<i64>
    ensures { SomeIff result (FitsSigned w64 (a.now -ℤ b.now)) (a.now -ℤ b.now) }
{
    a.checked_sub(*b)
}

/// The sum, and None where it leaves 64 bits.
fn sum(a: &i64, b: &i64) -> Option<i64>
    ensures { SomeIff result (FitsSigned w64 (a.now +ℤ b.now)) (a.now +ℤ b.now) }
{
    a.checked_add(*b)
}
