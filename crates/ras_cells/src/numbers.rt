//! What the operations do to numbers.
ghost use Rattle.std.specs.Prelude.{◌≡◌};
ghost use Rattle.ras_cells.specs.Numbers.{of_number, of_numbers, cast_number as cast_of_number, quotient as quotient_of, remainder as remainder_of, bit as bit_outcome, is_true as truth_of};

use crate::atom::Atom;
use crate::cell::CellFault;

/// An operation on one operand.
#[derive(Clone, Copy, Debug, PartialEq, Eq)]
pub enum Op1 {
    /// The number with the other sign.
    Neg,
    /// The number without its sign.
    Abs,
    /// The other truth value.
    Not,
}

/// An operation on two operands.
#[derive(Clone, Copy, Debug, PartialEq, Eq)]
pub enum Op2 {
    Add,
    Sub,
    Mul,
    /// The quotient, truncated towards 0.
    Div,
    /// The remainder of that quotient, which has the sign of the dividend.
    Mod,
    Eq,
    Ne,
    Lt,
    Le,
    Gt,
    Ge,
    And,
    Or,
    Xor,
    /// A bit of the two's complement form of 64 bits, by its number; bit 0 is the least.
    Bit,
    /// The second operand, or the first where the second is null or all zeros.
    Overlay,
}

/// The operation on a number. [`CellFault::Overflow`] where the exact result leaves 64 bits.
#[tactic(auto, using(crate::proofs::Wide::wide_is))]
pub fn apply1_to_number(op: Op1, x: i64) -> Result<i64, CellFault>
    ensures { result ≡ of_number op x }
{
    match op {
        Op1::Neg => x.checked_neg().ok_or(CellFault::Overflow),
        Op1::Abs => x.checked_abs().ok_or(CellFault::Overflow),
        Op1::Not => Ok(i64::from(!is_true(x))),
    }
}

/// The operation on two numbers. [`CellFault::Overflow`] where the exact result leaves 64 bits,
/// [`CellFault::DivideByZero`] where the divisor is 0, [`CellFault::IndexOut`] where there is no
/// such bit.
#[tactic(auto, using(crate::proofs::Wide::wide_is))]
pub fn apply2_to_numbers(op: Op2, x: i64, y: i64) -> Result<i64, CellFault>
    ensures { result ≡ of_numbers op x y }
{
    match op {
        Op2::Add => x.checked_add(y).ok_or(CellFault::Overflow),
        Op2::Sub => x.checked_sub(y).ok_or(CellFault::Overflow),
        Op2::Mul => x.checked_mul(y).ok_or(CellFault::Overflow),
        Op2::Div => quotient(x, y),
        Op2::Mod => remainder(x, y),
        Op2::Eq => Ok(i64::from(x == y)),
        Op2::Ne => Ok(i64::from(x != y)),
        Op2::Lt => Ok(i64::from(x < y)),
        Op2::Le => Ok(i64::from(x <= y)),
        Op2::Gt => Ok(i64::from(x > y)),
        Op2::Ge => Ok(i64::from(x >= y)),
        Op2::And => Ok(i64::from(is_true(x) && is_true(y))),
        Op2::Or => Ok(i64::from(is_true(x) || is_true(y))),
        Op2::Xor => Ok(i64::from(is_true(x) != is_true(y))),
        Op2::Bit => bit(x, y),
        Op2::Overlay => Ok(if y == 0 { x } else { y }),
    }
}

/// The number itself, or [`CellFault::CastRange`] where the atom doesn't have it.
pub fn cast_number(to: Atom, x: i64) -> Result<i64, CellFault>
    ensures { result ≡ cast_of_number to x }
{
    if to.contains(x) {
        Ok(x)
    } else {
        Err(CellFault::CastRange)
    }
}

/// The quotient, truncated towards 0.
#[tactic(auto, using(crate::proofs::Wide::wide_is))]
fn quotient(x: i64, y: i64) -> Result<i64, CellFault>
    ensures { result ≡ quotient_of x y }
{
    if y == 0 {
        return Err(CellFault::DivideByZero);
    }
    x.checked_div(y).ok_or(CellFault::Overflow)
}

/// What that quotient leaves.
fn remainder(x: i64, y: i64) -> Result<i64, CellFault>
    ensures { result ≡ remainder_of x y }
{
    if y == 0 {
        return Err(CellFault::DivideByZero);
    }
    Ok(x.wrapping_rem(y))
}

/// The bit of that number in the two's complement form of 64 bits.
fn bit(x: i64, i: i64) -> Result<i64, CellFault>
    ensures { result ≡ bit_outcome x i }
{
    if 0 <= i && i < 64 {
        Ok((x >> i) & 1)
    } else {
        Err(CellFault::IndexOut)
    }
}

/// The truth value that a number stands for.
fn is_true(x: i64) -> bool
    ensures { result ≡ truth_of x }
{
    x != 0
}
