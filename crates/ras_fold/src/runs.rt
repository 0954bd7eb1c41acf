//! What is kept of the numbers of a run.
ghost use Rattle.std.specs.Prelude.{◌≡◌, ◌≤◌, ◌^◌, ◌*ℤ◌, List, ℤ, pos, All, length, map, replicate};
ghost use Rattle.std.specs.List.{list_all, list_any};
ghost use Rattle.ras_cells.specs.Numbers.{is_true};
ghost use Rattle.ras_cells.specs.Runs.{IsRunOf};
ghost use Rattle.ras_cells.specs.Runs.{HasLength};
ghost use Rattle.ras_fold.specs.Kept.{IsKeptOf, number_kept};

use crate::kept::{kept_of_none, kept_of_one, product};
use crate::number::Number;
use crate::sums::sum;
use ras_cells::Run;
use ras_syntax::FoldOp;

/// Of the numbers of a run, of which there are so many.
pub(crate) fn kept_of_run(op: FoldOp, run: &Run<'_>, times: u64) -> Option<i128>
    requires length { HasLength run.now times }
    requires few { times ≤ 2 ^ 24 }
    ensures kept { (numbers : List ℤ) → IsRunOf numbers run.now → length numbers ≡ times
        → result ≡ number_kept op numbers }
    ensures bounds { IsKeptOf op times result }
{
    match run {
        Run::Uniform(number) => kept_of_many(op, *number, times),
        Run::U8(numbers) => kept_of_each(op, numbers),
        Run::I8(numbers) => kept_of_each(op, numbers),
        Run::U16(numbers) => kept_of_each(op, numbers),
        Run::I16(numbers) => kept_of_each(op, numbers),
        Run::U32(numbers) => kept_of_each(op, numbers),
        Run::I32(numbers) => kept_of_each(op, numbers),
        Run::Plain(numbers) => kept_of_each(op, numbers),
    }
}

/// Of one number, so many times.
fn kept_of_many(op: FoldOp, number: i64, times: u64) -> Option<i128>
    requires { times ≤ 2 ^ 24 }
    ensures kept { (numbers : List ℤ) → All (λ n. n ≡ number) numbers → length numbers ≡ times
        → result ≡ number_kept op numbers }
    ensures bounds { IsKeptOf op times result }
{
    if times == 0 {
        return kept_of_none(op);
    }
    match op {
        FoldOp::Plus => Some(multiple(number, times)),
        FoldOp::Times => power(number, times),
        _ => kept_of_one(op, number),
    }
}

/// The sum of one number, so many times.
fn multiple(number: i64, times: u64) -> i128
    requires { times ≤ 2 ^ 24 }
    ensures { result ≡ number *ℤ pos times }
{
    i128::from(number) * i128::from(times)
}

/// The product of one number, so many times.
fn power(number: i64, times: u64) -> Option<i128>
    ensures { result ≡ number_kept FoldOp.Times (replicate times number) }
{
    let mut kept = Some(1);
    'factors: for _ in 0..times {
        kept = product(kept, Some(i128::from(number)));
    }
    kept
}

/// Of each of these numbers.
fn kept_of_each<N: Number>(op: FoldOp, numbers: &[N]) -> Option<i128>
    requires { length numbers.now ≤ 2 ^ 24 }
    ensures kept { result ≡ number_kept op (map N.number numbers.now) }
    ensures bounds { IsKeptOf op (length numbers.now) result }
{
    match op {
        FoldOp::Plus => Some(sum(numbers)),
        FoldOp::Times => product_of_each(numbers),
        FoldOp::Min => least(numbers).map(i128::from),
        FoldOp::Max => greatest(numbers).map(i128::from),
        FoldOp::And => Some(i128::from(are_all_true(numbers))),
        FoldOp::Or => Some(i128::from(is_one_true(numbers))),
    }
}

/// Of a product.
fn product_of_each<N: Number>(numbers: &[N]) -> Option<i128>
    ensures { result ≡ number_kept FoldOp.Times (map N.number numbers.now) }
{
    let mut kept = Some(1);
    for number in numbers {
        kept = product(kept, Some(i128::from(number.widened())));
    }
    kept
}

/// The least number.
fn least<N: Number>(numbers: &[N]) -> Option<i64>
    ensures { result ≡ number_kept FoldOp.Min (map N.number numbers.now) }
{
    let [first, others @ ..] = numbers else {
        return None;
    };
    let mut least = first.widened();
    for number in others {
        least = least.min(number.widened());
    }
    Some(least)
}

/// The greatest number.
fn greatest<N: Number>(numbers: &[N]) -> Option<i64>
    ensures { result ≡ number_kept FoldOp.Max (map N.number numbers.now) }
{
    let [first, others @ ..] = numbers else {
        return None;
    };
    let mut greatest = first.widened();
    for number in others {
        greatest = greatest.max(number.widened());
    }
    Some(greatest)
}

/// Whether no number is 0.
fn are_all_true<N: Number>(numbers: &[N]) -> bool
    ensures { result ≡ list_all is_true (map N.number numbers.now) }
{
    let mut all = true;
    for number in numbers {
        all &= number.widened() != 0;
    }
    all
}

/// Whether some number isn't 0.
fn is_one_true<N: Number>(numbers: &[N]) -> bool
    ensures { result ≡ list_any is_true (map N.number numbers.now) }
{
    let mut one = false;
    for number in numbers {
        one |= number.widened() != 0;
    }
    one
}
