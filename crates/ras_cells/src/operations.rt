//! Operations on cells and on outcomes.
ghost use Rattle.std.specs.Prelude.{◌≡◌, IfOk};
ghost use Rattle.std.specs.List.{list_all};
ghost use Rattle.ras_cells.specs.Numbers.{is_zero};
ghost use Rattle.ras_cells.specs.Cells.{IsSingle, Takes, applied1, applied2, cast_to, overlay_of, outcome1 as outcome1_of, outcome2 as outcome2_of, single as single_of};

use crate::atom::Atom;
use crate::cell::{Cell, CellFault, Numbers};
use crate::numbers::{Op1, Op2, apply1_to_number, apply2_to_numbers, cast_number};

/// The operation on a cell: null where the cell is null, else as [`apply1_to_number`] says.
pub fn apply1(op: Op1, a: &Cell) -> Result<Cell, CellFault>
    requires { IsSingle a.now }
    ensures { result ≡ applied1 op a.now }
{
    match a {
        Cell::Null => Ok(Cell::Null),
        Cell::Value(numbers) => Ok(single(apply1_to_number(op, numbers[0])?)),
    }
}

/// The operation on two cells. [`Op2::Overlay`] gives b where it is neither null nor all zeros,
/// else a. Every other operation gives null where a cell is null, also where the numbers would
/// have a fault, and else what [`apply2_to_numbers`] says.
pub fn apply2(op: Op2, a: &Cell, b: &Cell) -> Result<Cell, CellFault>
    requires { Takes op a.now b.now }
    ensures { result ≡ applied2 op a.now b.now }
{
    if op == Op2::Overlay {
        return Ok(overlay(a, b));
    }
    match (a, b) {
        (Cell::Value(x), Cell::Value(y)) => Ok(single(apply2_to_numbers(op, x[0], y[0])?)),
        _ => Ok(Cell::Null),
    }
}

/// The cell as one of another atom: null stays null and a number stays the same.
/// [`CellFault::CastRange`] where the atom doesn't have the number.
pub fn cast(to: Atom, a: &Cell) -> Result<Cell, CellFault>
    requires { IsSingle a.now }
    ensures { result ≡ cast_to to a.now }
{
    match a {
        Cell::Null => Ok(Cell::Null),
        Cell::Value(numbers) => Ok(single(cast_number(to, numbers[0])?)),
    }
}

/// The outcome of an operation from that of its operand, whose fault comes first.
pub fn outcome1(op: Op1, a: Result<Cell, CellFault>) -> Result<Cell, CellFault>
    requires { IfOk a IsSingle }
    ensures { result ≡ outcome1_of op a }
{
    apply1(op, &a?)
}

/// The outcome of an operation from those of its operands. The fault of the first operand comes
/// first, then that of the second, and only then null and the operation's own fault.
pub fn outcome2(
    op: Op2,
    a: Result<Cell, CellFault>,
    b: Result<Cell, CellFault>,
) -> Result<Cell, CellFault>
    requires { IfOk a (λ x. IfOk b (λ y. Takes op x y)) }
    ensures { result ≡ outcome2_of op a b }
{
    let a = a?;
    let b = b?;
    apply2(op, &a, &b)
}

/// The cell of one number.
fn single(number: i64) -> Cell
    ensures { result ≡ single_of number }
{
    let mut numbers = Numbers::new();
    numbers.push(number);
    Cell::Value(numbers)
}

/// b where it is neither null nor all zeros, else a.
fn overlay(a: &Cell, b: &Cell) -> Cell
    ensures { result ≡ overlay_of a.now b.now }
{
    match b {
        Cell::Value(numbers) if !are_zeros(numbers.as_slice()) => copy_of(b),
        Cell::Value(_) | Cell::Null => copy_of(a),
    }
}

/// Whether all numbers are 0.
fn are_zeros(numbers: &[i64]) -> bool
    ensures { result ≡ list_all is_zero numbers.now }
{
    numbers.iter().all(|number| *number == 0)
}

/// An equal cell.
fn copy_of(a: &Cell) -> Cell
    ensures { result ≡ a.now }
{
    match a {
        Cell::Null => Cell::Null,
        Cell::Value(numbers) => Cell::Value(copy_of_numbers(numbers)),
    }
}

/// Equal numbers.
pub(crate) fn copy_of_numbers(numbers: &Numbers) -> Numbers
    ensures { result ≡ numbers.now }
{
    Numbers::try_from(numbers.as_slice()).unwrap()
}
