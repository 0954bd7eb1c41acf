//! What is kept of numbers that are folded.
ghost use Rattle.std.specs.Prelude.{◌≡◌, ◌^◌, ◌*ℤ◌, [], ◌∷◌};
ghost use Rattle.ras_fold.specs.Kept.{IsWithin, both_true as both_true_of, greatest_of_both, if_small, joined, number_kept, large_times as large_times_of, least_of_both, one_true as one_true_of, product_of, sum_of};
ghost use Rattle.spec_expressions.specs.Fold.{wide_cell as wide_cell_of};
ghost use Rattle.ras_fold.specs.Closed.{closed_from};

use ras_cells::{Cell, CellFault, Numbers};
use ras_syntax::FoldOp;

/// The greatest size of a product that can still come back to a number of 64 bits.
const LARGEST: u128 = 9_223_372_036_854_775_808;

/// Of no number.
pub(crate) fn kept_of_none(op: FoldOp) -> Option<i128>
    ensures { result ≡ number_kept op [] }
{
    match op {
        FoldOp::Plus | FoldOp::Or => Some(0),
        FoldOp::Times | FoldOp::And => Some(1),
        FoldOp::Min | FoldOp::Max => None,
    }
}

/// Of one number.
pub(crate) fn kept_of_one(op: FoldOp, number: i64) -> Option<i128>
    ensures { result ≡ number_kept op (number ∷ []) }
{
    match op {
        FoldOp::Plus | FoldOp::Times | FoldOp::Min | FoldOp::Max => Some(i128::from(number)),
        FoldOp::And | FoldOp::Or => Some(i128::from(number != 0)),
    }
}

/// Of some numbers and others.
pub(crate) fn join(op: FoldOp, a: Option<i128>, b: Option<i128>) -> Option<i128>
    requires a { IsWithin (2 ^ 88) a }
    requires b { IsWithin (2 ^ 88) b }
    ensures { result ≡ joined op a b }
{
    match op {
        FoldOp::Plus => sum(a, b),
        FoldOp::Times => product(a, b),
        FoldOp::Min => least(a, b),
        FoldOp::Max => greatest(a, b),
        FoldOp::And => both_true(a, b),
        FoldOp::Or => one_true(a, b),
    }
}

fn sum(a: Option<i128>, b: Option<i128>) -> Option<i128>
    requires a { IsWithin (2 ^ 88) a }
    requires b { IsWithin (2 ^ 88) b }
    ensures { result ≡ sum_of a b }
{
    match (a, b) {
        (Some(x), Some(y)) => Some(x + y),
        _ => None,
    }
}

pub(crate) fn product(a: Option<i128>, b: Option<i128>) -> Option<i128>
    ensures { result ≡ product_of a b }
{
    match (a, b) {
        (Some(x), Some(y)) => small_product(x, y),
        (Some(x), None) => large_times(x),
        (None, Some(y)) => large_times(y),
        (None, None) => None,
    }
}

/// The product, unless it is too large to come back.
fn small_product(x: i128, y: i128) -> Option<i128>
    ensures { result ≡ if_small (x *ℤ y) }
{
    let product = x.checked_mul(y)?;
    if product.unsigned_abs() <= LARGEST {
        Some(product)
    } else {
        None
    }
}

/// A product that is too large, times a number.
fn large_times(x: i128) -> Option<i128>
    ensures { result ≡ large_times_of x }
{
    if x == 0 { Some(0) } else { None }
}

fn least(a: Option<i128>, b: Option<i128>) -> Option<i128>
    ensures { result ≡ least_of_both a b }
{
    match (a, b) {
        (Some(x), Some(y)) => Some(if y < x { y } else { x }),
        (Some(_), None) => a,
        (None, _) => b,
    }
}

fn greatest(a: Option<i128>, b: Option<i128>) -> Option<i128>
    ensures { result ≡ greatest_of_both a b }
{
    match (a, b) {
        (Some(x), Some(y)) => Some(if y < x { x } else { y }),
        (Some(_), None) => a,
        (None, _) => b,
    }
}

fn both_true(a: Option<i128>, b: Option<i128>) -> Option<i128>
    ensures { result ≡ both_true_of a b }
{
    match (a, b) {
        (Some(x), Some(y)) => Some(i128::from(x != 0 && y != 0)),
        _ => None,
    }
}

fn one_true(a: Option<i128>, b: Option<i128>) -> Option<i128>
    ensures { result ≡ one_true_of a b }
{
    match (a, b) {
        (Some(x), Some(y)) => Some(i128::from(x != 0 || y != 0)),
        _ => None,
    }
}

/// The outcome of a fold, from what is kept.
pub(crate) fn closed(op: FoldOp, kept: Option<i128>) -> Result<Cell, CellFault>
    ensures { result ≡ closed_from op kept }
{
    match kept {
        Some(number) => wide_cell(number),
        None => without_number(op),
    }
}

/// The cell of a number, where it is one of 64 bits.
fn wide_cell(number: i128) -> Result<Cell, CellFault>
    ensures { result ≡ wide_cell_of number }
{
    let Ok(number) = i64::try_from(number) else {
        return Err(CellFault::Overflow);
    };
    let mut numbers = Numbers::new();
    numbers.push(number);
    Ok(Cell::Value(numbers))
}

/// The outcome where no number is kept: there was none, or the product is too large.
fn without_number(op: FoldOp) -> Result<Cell, CellFault>
    ensures { result ≡ closed_from op None }
{
    match op {
        FoldOp::Min | FoldOp::Max => Ok(Cell::Null),
        FoldOp::Plus | FoldOp::Times | FoldOp::And | FoldOp::Or => Err(CellFault::Overflow),
    }
}
