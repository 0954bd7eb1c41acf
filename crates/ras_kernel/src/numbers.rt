//! The operations on numbers, each in two forms: a fast one that may raise a flag in place of an
//! answer, and the exact one.
ghost use Rattle.std.specs.Prelude.{◌≡◌, false};

use ras_cells::{Atom, CellFault, Op1, Op2, apply1_to_number, apply2_to_numbers, cast_number};

/// An operation on one number.
pub(crate) trait Unary {
    ghost use Rattle.std.specs.Prelude.{ℤ, Result};
    ghost use Rattle.ras_cells.specs.declared.cell.CellFault.{CellFault};

    ghost outcome: { Self → ℤ → Result ℤ CellFault };

    /// The number, where the flag isn't raised.
    fn fast(&self, x: i64) -> (i64, bool)
        ensures { result.1 ≡ false → outcome self.now x ≡ Ok result.0 };

    /// The number, or the fault.
    fn exact(&self, x: i64) -> Result<i64, CellFault>
        ensures { result ≡ outcome self.now x };
}

/// An operation on two numbers.
pub(crate) trait Binary {
    ghost use Rattle.std.specs.Prelude.{ℤ, Result};
    ghost use Rattle.ras_cells.specs.declared.cell.CellFault.{CellFault};

    ghost outcome: { ℤ → ℤ → Result ℤ CellFault };

    /// The number, where the flag isn't raised.
    fn fast(x: i64, y: i64) -> (i64, bool)
        ensures { result.1 ≡ false → outcome x y ≡ Ok result.0 };

    /// The number, or the fault.
    fn exact(x: i64, y: i64) -> Result<i64, CellFault>
        ensures { result ≡ outcome x y };
}

#[derive(Clone, Copy)]
pub(crate) struct Neg;

impl Unary for Neg {
    ghost use Rattle.ras_cells.specs.declared.numbers.Op1.TheVariants as operations;
    ghost use Rattle.ras_cells.specs.Numbers.{of_number};

    ghost outcome = { λ _ x. of_number operations.Neg x };

    fn fast(&self, x: i64) -> (i64, bool) {
        x.overflowing_neg()
    }

    fn exact(&self, x: i64) -> Result<i64, CellFault> {
        apply1_to_number(Op1::Neg, x)
    }
}

#[derive(Clone, Copy)]
pub(crate) struct Abs;

impl Unary for Abs {
    ghost use Rattle.ras_cells.specs.declared.numbers.Op1.TheVariants as operations;
    ghost use Rattle.ras_cells.specs.Numbers.{of_number};

    ghost outcome = { λ _ x. of_number operations.Abs x };

    fn fast(&self, x: i64) -> (i64, bool) {
        x.overflowing_abs()
    }

    fn exact(&self, x: i64) -> Result<i64, CellFault> {
        apply1_to_number(Op1::Abs, x)
    }
}

#[derive(Clone, Copy)]
pub(crate) struct Not;

impl Unary for Not {
    ghost use Rattle.ras_cells.specs.declared.numbers.Op1.TheVariants as operations;
    ghost use Rattle.ras_cells.specs.Numbers.{of_number};

    ghost outcome = { λ _ x. of_number operations.Not x };

    fn fast(&self, x: i64) -> (i64, bool) {
        (i64::from(x == 0), false)
    }

    fn exact(&self, x: i64) -> Result<i64, CellFault> {
        apply1_to_number(Op1::Not, x)
    }
}

/// A cast to this atom.
#[derive(Clone, Copy)]
pub(crate) struct Cast {
    pub(crate) to: Atom,
}

impl Unary for Cast {
    ghost use Rattle.ras_cells.specs.Numbers.{cast_number as cast_of_number};

    ghost outcome = { λ cast x. cast_of_number cast.to x };

    fn fast(&self, x: i64) -> (i64, bool) {
        (x, !self.to.contains(x))
    }

    fn exact(&self, x: i64) -> Result<i64, CellFault> {
        cast_number(self.to, x)
    }
}

pub(crate) struct Add;

impl Binary for Add {
    ghost use Rattle.ras_cells.specs.declared.numbers.Op2.TheVariants as operations;
    ghost use Rattle.ras_cells.specs.Numbers.{of_numbers};

    ghost outcome = { λ x y. of_numbers operations.Add x y };

    fn fast(x: i64, y: i64) -> (i64, bool) {
        x.overflowing_add(y)
    }

    fn exact(x: i64, y: i64) -> Result<i64, CellFault> {
        apply2_to_numbers(Op2::Add, x, y)
    }
}

pub(crate) struct Sub;

impl Binary for Sub {
    ghost use Rattle.ras_cells.specs.declared.numbers.Op2.TheVariants as operations;
    ghost use Rattle.ras_cells.specs.Numbers.{of_numbers};

    ghost outcome = { λ x y. of_numbers operations.Sub x y };

    fn fast(x: i64, y: i64) -> (i64, bool) {
        x.overflowing_sub(y)
    }

    fn exact(x: i64, y: i64) -> Result<i64, CellFault> {
        apply2_to_numbers(Op2::Sub, x, y)
    }
}

pub(crate) struct Mul;

impl Binary for Mul {
    ghost use Rattle.ras_cells.specs.declared.numbers.Op2.TheVariants as operations;
    ghost use Rattle.ras_cells.specs.Numbers.{of_numbers};

    ghost outcome = { λ x y. of_numbers operations.Mul x y };

    fn fast(x: i64, y: i64) -> (i64, bool) {
        x.overflowing_mul(y)
    }

    fn exact(x: i64, y: i64) -> Result<i64, CellFault> {
        apply2_to_numbers(Op2::Mul, x, y)
    }
}

/// The product of numbers of 32 bits; the flag is raised at any others.
pub(crate) struct MulSmall;

impl Binary for MulSmall {
    ghost use Rattle.ras_cells.specs.declared.numbers.Op2.TheVariants as operations;
    ghost use Rattle.ras_cells.specs.Numbers.{of_numbers};

    ghost outcome = { λ x y. of_numbers operations.Mul x y };

    fn fast(x: i64, y: i64) -> (i64, bool) {
        match (i32::try_from(x), i32::try_from(y)) {
            (Ok(x), Ok(y)) => (i64::from(x) * i64::from(y), false),
            _ => (0, true),
        }
    }

    fn exact(x: i64, y: i64) -> Result<i64, CellFault> {
        apply2_to_numbers(Op2::Mul, x, y)
    }
}

pub(crate) struct Div;

impl Binary for Div {
    ghost use Rattle.ras_cells.specs.declared.numbers.Op2.TheVariants as operations;
    ghost use Rattle.ras_cells.specs.Numbers.{of_numbers};

    ghost outcome = { λ x y. of_numbers operations.Div x y };

    fn fast(x: i64, y: i64) -> (i64, bool) {
        match x.checked_div(y) {
            Some(quotient) => (quotient, false),
            None => (0, true),
        }
    }

    fn exact(x: i64, y: i64) -> Result<i64, CellFault> {
        apply2_to_numbers(Op2::Div, x, y)
    }
}

pub(crate) struct Mod;

impl Binary for Mod {
    ghost use Rattle.ras_cells.specs.declared.numbers.Op2.TheVariants as operations;
    ghost use Rattle.ras_cells.specs.Numbers.{of_numbers};

    ghost outcome = { λ x y. of_numbers operations.Mod x y };

    fn fast(x: i64, y: i64) -> (i64, bool) {
        if y == 0 {
            (0, true)
        } else {
            (x.wrapping_rem(y), false)
        }
    }

    fn exact(x: i64, y: i64) -> Result<i64, CellFault> {
        apply2_to_numbers(Op2::Mod, x, y)
    }
}

pub(crate) struct Eq;

impl Binary for Eq {
    ghost use Rattle.ras_cells.specs.declared.numbers.Op2.TheVariants as operations;
    ghost use Rattle.ras_cells.specs.Numbers.{of_numbers};

    ghost outcome = { λ x y. of_numbers operations.Eq x y };

    fn fast(x: i64, y: i64) -> (i64, bool) {
        (i64::from(x == y), false)
    }

    fn exact(x: i64, y: i64) -> Result<i64, CellFault> {
        apply2_to_numbers(Op2::Eq, x, y)
    }
}

pub(crate) struct Ne;

impl Binary for Ne {
    ghost use Rattle.ras_cells.specs.declared.numbers.Op2.TheVariants as operations;
    ghost use Rattle.ras_cells.specs.Numbers.{of_numbers};

    ghost outcome = { λ x y. of_numbers operations.Ne x y };

    fn fast(x: i64, y: i64) -> (i64, bool) {
        (i64::from(x != y), false)
    }

    fn exact(x: i64, y: i64) -> Result<i64, CellFault> {
        apply2_to_numbers(Op2::Ne, x, y)
    }
}

pub(crate) struct Lt;

impl Binary for Lt {
    ghost use Rattle.ras_cells.specs.declared.numbers.Op2.TheVariants as operations;
    ghost use Rattle.ras_cells.specs.Numbers.{of_numbers};

    ghost outcome = { λ x y. of_numbers operations.Lt x y };

    fn fast(x: i64, y: i64) -> (i64, bool) {
        (i64::from(x < y), false)
    }

    fn exact(x: i64, y: i64) -> Result<i64, CellFault> {
        apply2_to_numbers(Op2::Lt, x, y)
    }
}

pub(crate) struct Le;

impl Binary for Le {
    ghost use Rattle.ras_cells.specs.declared.numbers.Op2.TheVariants as operations;
    ghost use Rattle.ras_cells.specs.Numbers.{of_numbers};

    ghost outcome = { λ x y. of_numbers operations.Le x y };

    fn fast(x: i64, y: i64) -> (i64, bool) {
        (i64::from(x <= y), false)
    }

    fn exact(x: i64, y: i64) -> Result<i64, CellFault> {
        apply2_to_numbers(Op2::Le, x, y)
    }
}

pub(crate) struct Gt;

impl Binary for Gt {
    ghost use Rattle.ras_cells.specs.declared.numbers.Op2.TheVariants as operations;
    ghost use Rattle.ras_cells.specs.Numbers.{of_numbers};

    ghost outcome = { λ x y. of_numbers operations.Gt x y };

    fn fast(x: i64, y: i64) -> (i64, bool) {
        (i64::from(x > y), false)
    }

    fn exact(x: i64, y: i64) -> Result<i64, CellFault> {
        apply2_to_numbers(Op2::Gt, x, y)
    }
}

pub(crate) struct Ge;

impl Binary for Ge {
    ghost use Rattle.ras_cells.specs.declared.numbers.Op2.TheVariants as operations;
    ghost use Rattle.ras_cells.specs.Numbers.{of_numbers};

    ghost outcome = { λ x y. of_numbers operations.Ge x y };

    fn fast(x: i64, y: i64) -> (i64, bool) {
        (i64::from(x >= y), false)
    }

    fn exact(x: i64, y: i64) -> Result<i64, CellFault> {
        apply2_to_numbers(Op2::Ge, x, y)
    }
}

pub(crate) struct And;

impl Binary for And {
    ghost use Rattle.ras_cells.specs.declared.numbers.Op2.TheVariants as operations;
    ghost use Rattle.ras_cells.specs.Numbers.{of_numbers};

    ghost outcome = { λ x y. of_numbers operations.And x y };

    fn fast(x: i64, y: i64) -> (i64, bool) {
        (i64::from((x != 0) & (y != 0)), false)
    }

    fn exact(x: i64, y: i64) -> Result<i64, CellFault> {
        apply2_to_numbers(Op2::And, x, y)
    }
}

pub(crate) struct Or;

impl Binary for Or {
    ghost use Rattle.ras_cells.specs.declared.numbers.Op2.TheVariants as operations;
    ghost use Rattle.ras_cells.specs.Numbers.{of_numbers};

    ghost outcome = { λ x y. of_numbers operations.Or x y };

    fn fast(x: i64, y: i64) -> (i64, bool) {
        (i64::from((x != 0) | (y != 0)), false)
    }

    fn exact(x: i64, y: i64) -> Result<i64, CellFault> {
        apply2_to_numbers(Op2::Or, x, y)
    }
}

pub(crate) struct Xor;

impl Binary for Xor {
    ghost use Rattle.ras_cells.specs.declared.numbers.Op2.TheVariants as operations;
    ghost use Rattle.ras_cells.specs.Numbers.{of_numbers};

    ghost outcome = { λ x y. of_numbers operations.Xor x y };

    fn fast(x: i64, y: i64) -> (i64, bool) {
        (i64::from((x != 0) != (y != 0)), false)
    }

    fn exact(x: i64, y: i64) -> Result<i64, CellFault> {
        apply2_to_numbers(Op2::Xor, x, y)
    }
}

pub(crate) struct Bit;

impl Binary for Bit {
    ghost use Rattle.ras_cells.specs.declared.numbers.Op2.TheVariants as operations;
    ghost use Rattle.ras_cells.specs.Numbers.{of_numbers};

    ghost outcome = { λ x y. of_numbers operations.Bit x y };

    fn fast(x: i64, y: i64) -> (i64, bool) {
        if 0 <= y && y < 64 {
            ((x >> y) & 1, false)
        } else {
            (0, true)
        }
    }

    fn exact(x: i64, y: i64) -> Result<i64, CellFault> {
        apply2_to_numbers(Op2::Bit, x, y)
    }
}
