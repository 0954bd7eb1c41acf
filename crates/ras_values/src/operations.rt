//! Operations on any cells: an operation on one number takes the first one of a composite cell.
ghost use Rattle.std.specs.Prelude.{◌≡◌, ◌++◌, Ok, IfSome, slice_get, unsigned_abs};
ghost use Rattle.std.specs.List.{list_all};
ghost use Rattle.ras_cells.specs.Numbers.{is_zero};
ghost use Rattle.ras_cells.specs.Cells.{applied1, applied2, cast_to, overlay_of, only as only_of, single as single_of};
ghost use Rattle.spec_expressions.specs.Eval.{component_of, holds as holds_of, optional_number, position_in, with_component};

use ras_cells::{
    Atom, Cell, CellFault, Numbers, Op1, Op2, apply1_to_number, apply2_to_numbers, cast_number,
};

/// The operation on a cell: null where the cell is null, else as [`apply1_to_number`] says.
pub(crate) fn operate1(op: Op1, x: &Cell) -> Result<Cell, CellFault>
    ensures { result ≡ applied1 op x.now }
{
    match x {
        Cell::Null => Ok(Cell::Null),
        Cell::Value(numbers) => Ok(single(&apply1_to_number(op, only(numbers))?)),
    }
}

/// The operation on two cells: an overlay, or null where one is null, else as [`apply2_to_numbers`]
/// says.
pub(crate) fn operate2(op: Op2, x: &Cell, y: &Cell) -> Result<Cell, CellFault>
    ensures { result ≡ applied2 op x.now y.now }
{
    if op == Op2::Overlay {
        return Ok(overlay(x, y));
    }
    match (x, y) {
        (Cell::Value(a), Cell::Value(b)) => {
            Ok(single(&apply2_to_numbers(op, only(a), only(b))?))
        }
        _ => Ok(Cell::Null),
    }
}

/// The cell as one of another atom.
pub(crate) fn cast(to: Atom, x: &Cell) -> Result<Cell, CellFault>
    ensures { result ≡ cast_to to x.now }
{
    match x {
        Cell::Null => Ok(Cell::Null),
        Cell::Value(numbers) => Ok(single(&cast_number(to, only(numbers))?)),
    }
}

/// The component of this number, and null where there is none.
pub(crate) fn component(x: &Cell, part: &i64) -> Cell
    ensures { component_of x.now part.now ≡ Ok result }
{
    match x {
        Cell::Null => Cell::Null,
        Cell::Value(numbers) => at(numbers.as_slice(), part),
    }
}

/// The number at a place as a cell, and null where there is none.
pub(crate) fn at(numbers: &[i64], place: &i64) -> Cell
    ensures { optional_number (slice_get numbers.now (unsigned_abs place.now)) ≡ Ok result }
{
    match usize::try_from(place.unsigned_abs()) {
        Ok(place) => match numbers.get(place) {
            Some(number) => single(number),
            None => Cell::Null,
        },
        Err(_) => Cell::Null,
    }
}

/// Whether a condition holds. A null one doesn't.
pub(crate) fn holds(x: &Cell) -> bool
    ensures { result ≡ holds_of x.now }
{
    match x {
        Cell::Null => false,
        Cell::Value(numbers) => only(numbers) != 0,
    }
}

/// The number of a cell, and None of a null.
pub(crate) fn number_of(x: &Cell) -> Option<i64>
    ensures { result ≡ position_in x.now }
{
    match x {
        Cell::Null => None,
        Cell::Value(numbers) => Some(only(numbers)),
    }
}

/// The components of both side by side: null where one is null, and None where there are too many.
pub(crate) fn side_by_side(whole: &Cell, x: &Cell) -> Option<Cell>
    ensures { IfSome result (λ both. both ≡ with_component whole.now x.now) }
{
    let Cell::Value(first) = whole else {
        return Some(Cell::Null);
    };
    let Cell::Value(second) = x else {
        return Some(Cell::Null);
    };
    Some(Cell::Value(joined(first, second)?))
}

/// The numbers of both, and None where there are too many.
fn joined(first: &Numbers, second: &Numbers) -> Option<Numbers>
    ensures { IfSome result (λ both. both.items ≡ first.now.items ++ second.now.items) }
{
    let mut both = copy_of_numbers(first);
    for number in second {
        if both.try_push(*number).is_err() {
            return None;
        }
    }
    Some(both)
}

/// The first number, and 0 where there is none.
fn only(numbers: &Numbers) -> i64
    ensures { result ≡ only_of numbers.now.items }
{
    match numbers.first() {
        Some(number) => *number,
        None => 0,
    }
}

/// The cell of one number.
pub(crate) fn single(number: &i64) -> Cell
    ensures { result ≡ single_of number.now }
{
    let mut numbers = Numbers::new();
    numbers.push(*number);
    Cell::Value(numbers)
}

/// y where it is neither null nor all zeros, else x.
fn overlay(x: &Cell, y: &Cell) -> Cell
    ensures { result ≡ overlay_of x.now y.now }
{
    match y {
        Cell::Value(numbers) if !are_zeros(numbers.as_slice()) => copy_of(y),
        Cell::Value(_) | Cell::Null => copy_of(x),
    }
}

/// Whether all numbers are 0.
fn are_zeros(numbers: &[i64]) -> bool
    ensures { result ≡ list_all is_zero numbers.now }
{
    numbers.iter().all(|number| *number == 0)
}

/// An equal cell.
pub(crate) fn copy_of(x: &Cell) -> Cell
    ensures { result ≡ x.now }
{
    match x {
        Cell::Null => Cell::Null,
        Cell::Value(numbers) => Cell::Value(copy_of_numbers(numbers)),
    }
}

/// Equal numbers.
fn copy_of_numbers(numbers: &Numbers) -> Numbers
    ensures { result ≡ numbers.now }
{
    Numbers::try_from(numbers.as_slice()).unwrap()
}
