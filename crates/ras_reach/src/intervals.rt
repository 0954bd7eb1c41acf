//! Arithmetic on intervals of numbers, exact before it is cut to the numbers of 64 bits.
ghost use Rattle.std.specs.Prelude.{◌≡◌, ◌≤ℤ◌, ◌+ℤ◌, ◌-ℤ◌, ◌*ℤ◌, neg_ℤ, if◌then◌else◌, int_lt};
ghost use Rattle.std.specs.Int.{int_max, int_min};
ghost use Rattle.spec_expressions.specs.Reach.{bound_joined, difference_interval, negated_interval, product_interval, sum_interval};
ghost use Rattle.spec_expressions.specs.Reach.{within_wide as numbers_within_wide};

use ras_domain::Interval;

/// The least number of 64 bits.
const LEAST: i128 = -9_223_372_036_854_775_808;

/// The greatest number of 64 bits.
const GREATEST: i128 = 9_223_372_036_854_775_807;

// ---- numbers

fn opposite(x: &i64) -> i128
    ensures { result ≡ neg_ℤ x.now }
{
    -i128::from(*x)
}

fn added(x: &i64, y: &i64) -> i128
    ensures { result ≡ x.now +ℤ y.now }
{
    i128::from(*x) + i128::from(*y)
}

fn subtracted(x: &i64, y: &i64) -> i128
    ensures { result ≡ x.now -ℤ y.now }
{
    i128::from(*x) - i128::from(*y)
}

fn multiplied(x: &i64, y: &i64) -> i128
    ensures { result ≡ x.now *ℤ y.now }
{
    i128::from(*x) * i128::from(*y)
}

fn lesser(x: &i128, y: &i128) -> i128
    ensures { result ≡ int_min x.now y.now }
{
    if *y < *x { *y } else { *x }
}

fn greater(x: &i128, y: &i128) -> i128
    ensures { result ≡ int_max x.now y.now }
{
    if *y < *x { *x } else { *y }
}

/// The number itself, which 64 bits have.
fn narrowed(z: &i128) -> i64
    requires least { LEAST ≤ℤ z.now }
    requires greatest { z.now ≤ℤ GREATEST }
    ensures { result ≡ z.now }
{
    *z as i64
}

// ---- intervals

/// The numbers from `lo` to `hi`, and None where there is none.
fn unless_empty(lo: &i128, hi: &i128) -> Option<Interval>
    requires least { LEAST ≤ℤ lo.now }
    requires greatest { hi.now ≤ℤ GREATEST }
    ensures { result ≡ (if int_lt hi.now lo.now then None else Some (record { lo = lo.now; hi = hi.now })) }
{
    if *hi < *lo {
        return None;
    }
    Some(Interval {
        lo: narrowed(lo),
        hi: narrowed(hi),
    })
}

/// The numbers of 64 bits from `lo` to `hi`, and None where there is none.
fn within_wide(lo: &i128, hi: &i128) -> Option<Interval>
    ensures { result ≡ numbers_within_wide (record { lo = lo.now; hi = hi.now }) }
{
    unless_empty(&greater(lo, &LEAST), &lesser(hi, &GREATEST))
}

/// The negated numbers of an interval.
pub(crate) fn negated(a: Option<Interval>) -> Option<Interval>
    ensures { result ≡ negated_interval a }
{
    let a = a?;
    within_wide(&opposite(&a.hi), &opposite(&a.lo))
}

/// The sums of numbers of two intervals.
pub(crate) fn sum(a: Option<Interval>, b: Option<Interval>) -> Option<Interval>
    ensures { result ≡ bound_joined sum_interval a b }
{
    let a = a?;
    let b = b?;
    within_wide(&added(&a.lo, &b.lo), &added(&a.hi, &b.hi))
}

/// The differences of numbers of two intervals.
pub(crate) fn difference(a: Option<Interval>, b: Option<Interval>) -> Option<Interval>
    ensures { result ≡ bound_joined difference_interval a b }
{
    let a = a?;
    let b = b?;
    within_wide(&subtracted(&a.lo, &b.hi), &subtracted(&a.hi, &b.lo))
}

/// The least of the products of the ends of two intervals.
fn least_product(a: &Interval, b: &Interval) -> i128
    ensures { result ≡ (product_interval a.now b.now).lo }
{
    lesser(
        &lesser(&multiplied(&a.lo, &b.lo), &multiplied(&a.lo, &b.hi)),
        &lesser(&multiplied(&a.hi, &b.lo), &multiplied(&a.hi, &b.hi)),
    )
}

/// The greatest of the products of the ends of two intervals.
fn greatest_product(a: &Interval, b: &Interval) -> i128
    ensures { result ≡ (product_interval a.now b.now).hi }
{
    greater(
        &greater(&multiplied(&a.lo, &b.lo), &multiplied(&a.lo, &b.hi)),
        &greater(&multiplied(&a.hi, &b.lo), &multiplied(&a.hi, &b.hi)),
    )
}

/// The products of numbers of two intervals.
pub(crate) fn product(a: Option<Interval>, b: Option<Interval>) -> Option<Interval>
    ensures { result ≡ bound_joined product_interval a b }
{
    let a = a?;
    let b = b?;
    within_wide(&least_product(&a, &b), &greatest_product(&a, &b))
}
