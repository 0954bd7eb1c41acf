//! Exact sums of many numbers.
ghost use Rattle.std.specs.Prelude.{◌≡◌, ◌≤◌, ◌<◌, ◌*◌, ◌^◌, ◌+ℤ◌, false, length, map, unsigned_abs};
ghost use Rattle.ras_fold.specs.Sums.{sum_of_all};

use crate::number::Number;

/// How many numbers are added up at a time.
const BLOCK: usize = 1024;

/// A sum of [`BLOCK`] numbers of at most this size is one of 64 bits.
const NEAR: i64 = 4_503_599_627_370_496;

/// The exact sum.
pub(crate) fn sum<N: Number>(numbers: &[N]) -> i128
    requires { length numbers.now ≤ 2 ^ 24 }
    ensures value { result ≡ sum_of_all (map N.number numbers.now) }
    ensures size { unsigned_abs result ≤ 2 ^ 63 * length numbers.now }
{
    let mut total = 0;
    for block in numbers.chunks(BLOCK) {
        total += sum_of_block(block);
    }
    total
}

/// The exact sum of a block: in 64 bits, and in 128 where a number is far from 0.
fn sum_of_block<N: Number>(numbers: &[N]) -> i128
    requires { length numbers.now ≤ BLOCK }
    ensures value { result ≡ sum_of_all (map N.number numbers.now) }
    ensures size { unsigned_abs result ≤ 2 ^ 63 * length numbers.now }
{
    let (near, far) = near_sum(numbers);
    if far {
        return far_sum(numbers);
    }
    i128::from(near)
}

/// The sum, unless the flag is raised.
fn near_sum<N: Number>(numbers: &[N]) -> (i64, bool)
    requires { length numbers.now ≤ BLOCK }
    ensures value { result.1 ≡ false → result.0 ≡ sum_of_all (map N.number numbers.now) }
    ensures size { result.1 ≡ false → unsigned_abs result.0 ≤ 2 ^ 52 * length numbers.now }
{
    let mut total = 0;
    let mut far = false;
    for number in numbers {
        let (sum, flag) = add_near(total, number.widened());
        total = sum;
        far |= flag;
    }
    (total, far)
}

/// Adds a number; the flag is raised where it is far from 0.
fn add_near(total: i64, number: i64) -> (i64, bool)
    ensures size { result.1 ≡ false → unsigned_abs number ≤ 2 ^ 52 }
    ensures sum { result.1 ≡ false → unsigned_abs total < 2 ^ 62 → result.0 ≡ total +ℤ number }
{
    (
        total.wrapping_add(number),
        (number < -NEAR) | (number > NEAR),
    )
}

/// The sum in 128 bits.
fn far_sum<N: Number>(numbers: &[N]) -> i128
    requires { length numbers.now ≤ BLOCK }
    ensures value { result ≡ sum_of_all (map N.number numbers.now) }
    ensures size { unsigned_abs result ≤ 2 ^ 63 * length numbers.now }
{
    let mut total = 0;
    for number in numbers {
        total += i128::from(number.widened());
    }
    total
}
