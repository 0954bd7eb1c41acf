//! Reading and storing the numbers of an array.
ghost use Rattle.std.specs.Prelude.{◌≡◌, length, replicate};
ghost use Rattle.ras_cells.specs.Stored.{HasWidthOf, read_of, stored_of, default_of, reads_as_null as is_read_as_null, is_null_number as is_null_value, filled_with as filled_of, atoms_of, first_null as first_null_of};
ghost use Rattle.ras_cells.specs.Atoms.{are_in_range as are_within};

use crate::atom::Atom;
use crate::cell::{Cell, CellFault, CellType, NullSet, Numbers};
use crate::operations::copy_of_numbers;

/// The cell of these stored numbers: null where it has one number and that lies in an interval of
/// the null set.
pub fn read_stored(n: &Numbers, nulls: &NullSet) -> Cell
    ensures { result ≡ read_of n.now nulls.now }
{
    if reads_as_null(n.as_slice(), nulls.as_slice()) {
        Cell::Null
    } else {
        Cell::Value(copy_of_numbers(n))
    }
}

/// The numbers that a cell is stored as in an array of this type. Null is stored as the lower end of
/// the first null interval, and is [`CellFault::NullStore`] where there is none. A number that its
/// component's atom doesn't have is [`CellFault::CastRange`].
pub fn to_stored(a: &Cell, to: &CellType, nulls: &NullSet) -> Result<Numbers, CellFault>
    requires { HasWidthOf to.now a.now }
    ensures { result ≡ stored_of a.now to.now nulls.now }
{
    match a {
        Cell::Null => match first_null(nulls) {
            Some(number) => Ok(filled_with(to, number)),
            None => Err(CellFault::NullStore),
        },
        Cell::Value(numbers) if are_in_range(to.atoms(), numbers.as_slice()) => {
            Ok(copy_of_numbers(numbers))
        }
        Cell::Value(_) => Err(CellFault::CastRange),
    }
}

/// The numbers of a cell that nothing was written to: the lower end of the first null interval for
/// each component, or zeros where there is none.
pub fn default_cell(of: &CellType, nulls: &NullSet) -> Numbers
    ensures { result ≡ default_of of.now nulls.now }
{
    filled_with(of, first_null(nulls).unwrap_or(0))
}

/// Whether the cell of these numbers is null.
fn reads_as_null(numbers: &[i64], nulls: &[(i64, i64)]) -> bool
    ensures { result ≡ is_read_as_null numbers.now nulls.now }
{
    numbers.len() == 1 && is_null_number(numbers[0], nulls)
}

/// Whether the number lies in one of the intervals.
fn is_null_number(number: i64, nulls: &[(i64, i64)]) -> bool
    ensures { result ≡ is_null_value nulls.now number }
{
    nulls.iter().any(|(least, greatest)| *least <= number && number <= *greatest)
}

/// The lower end of the first null interval.
fn first_null(nulls: &NullSet) -> Option<i64>
    ensures { result ≡ first_null_of nulls.now.items }
{
    nulls.first().map(|(least, _)| *least)
}

/// Whether each number is in the range of its atom.
fn are_in_range(atoms: &[Atom], numbers: &[i64]) -> bool
    requires { length atoms.now ≡ length numbers.now }
    ensures { result ≡ are_within atoms.now numbers.now }
{
    atoms
        .iter()
        .zip(numbers)
        .all(|(atom, number)| atom.contains(*number))
}

/// This number for each component.
fn filled_with(of: &CellType, number: i64) -> Numbers
    ensures { result ≡ filled_of of.now number }
{
    let mut numbers = Numbers::new();
    for _ in of.atoms() {
        numbers.push(number);
    }
    numbers
}
