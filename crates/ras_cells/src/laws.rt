//! Laws of the definitions, each the contract of a function that does nothing.
ghost use Rattle.std.specs.Prelude.{◌≡◌, ◌≢◌, ◌↔◌, ◌*ℤ◌, ◌-ℤ◌, ◌^◌, ℤ, ℕ, pos, int_div, int_rem, IsTrue, List, Ok, Err, OnOk, if◌then◌else◌};
ghost use Rattle.ras_cells.specs.declared.atom.Atom.{Atom};
ghost use Rattle.ras_cells.specs.declared.atom.Atom.TheVariants as atoms;
ghost use Rattle.ras_cells.specs.declared.cell.Cell.{Cell};
ghost use Rattle.ras_cells.specs.declared.cell.Cell.TheVariants.{Null, Value};
ghost use Rattle.ras_cells.specs.declared.cell.CellFault.{CellFault};
ghost use Rattle.ras_cells.specs.declared.cell.CellType.{CellType};
ghost use Rattle.ras_cells.specs.declared.numbers.Op1.{Op1};
ghost use Rattle.ras_cells.specs.declared.numbers.Op2.{Op2};
ghost use Rattle.ras_cells.specs.Atoms.{IsInRange, is_in_range, AreInRange, are_in_range};
ghost use Rattle.ras_cells.specs.Numbers.{bit_of};
ghost use Rattle.ras_cells.specs.Cells.{IsSingle, applied1, applied2, cast_to, overlay_of};
ghost use Rattle.ras_cells.specs.Laws.{IsDivision, made_of_bits, IsCellOf, IsOfAtom, result1_of, result2_of, MayGive1, MayGive2};
ghost use Rattle.ras_cells.specs.Stored.{Numbers, NullSet, IsNullSetOf, HasWidthOf, atoms_of, read_of, stored_of, default_of, reads_as_null};

/// Quotient and remainder are the one pair with which the division comes out, the remainder being
/// smaller than the divisor and of no other sign than the dividend.
pub fn divisions_come_out()
    ensures exist { (x y : ℤ) → y ≢ pos 0 → IsDivision x y (int_div x y) (int_rem x y) }
    ensures alone { (x y q r : ℤ) → IsDivision x y q r → (q ≡ int_div x y) × (r ≡ int_rem x y) }
{}

/// A number of 64 bits is what its bits make in two's complement form, where bit 63 counts
/// -2^63.
pub fn bits_make_the_number()
    ensures { (x : ℤ) → IsInRange atoms.Wide x → made_of_bits x 63 -ℤ (bit_of x 63 *ℤ pos (2 ^ 63)) ≡ x }
{}

/// The tests of ranges are right, and each atom's range lies in that of 64 bits.
pub fn ranges_are_tested()
    ensures one { (atom : Atom) (z : ℤ) → IsTrue (is_in_range atom z) ↔ IsInRange atom z }
    ensures all { (atoms : List Atom) (zs : List ℤ) → IsTrue (are_in_range atoms zs) ↔ AreInRange atoms zs }
    ensures wide { (atom : Atom) (z : ℤ) → IsInRange atom z → IsInRange atoms.Wide z }
{}

/// What an operation gives is in the range of its result's atom.
pub fn results_are_in_range()
    ensures one { (op : Op1) (a c : Cell) → applied1 op a ≡ Ok c → IsOfAtom (result1_of op) c }
    ensures two { (op : Op2) (atom : Atom) (a b c : Cell) → IsOfAtom atom a → IsOfAtom atom b
        → applied2 op a b ≡ Ok c → IsOfAtom (result2_of op atom) c }
    ensures cast { (atom : Atom) (a c : Cell) → cast_to atom a ≡ Ok c → IsOfAtom atom c }
    ensures overlay { (atoms : List Atom) (a b : Cell) → IsCellOf atoms a → IsCellOf atoms b
        → IsCellOf atoms (overlay_of a b) }
{}

/// A cell of one atom is an operand of every operation, and a cell of a type is stored in it.
pub fn typed_cells_are_operands()
    ensures single { (atom : Atom) (a : Cell) → IsOfAtom atom a → IsSingle a }
    ensures stored { (of : CellType) (a : Cell) → IsCellOf (atoms_of of) a → HasWidthOf of a }
{}

/// Each operation gives a cell, or one of the faults that are its own.
pub fn faults_are_the_operations_own()
    ensures one { (op : Op1) (a : Cell) (fault : CellFault) → applied1 op a ≡ Err fault → MayGive1 op fault }
    ensures two { (op : Op2) (a b : Cell) (fault : CellFault) → applied2 op a b ≡ Err fault → MayGive2 op fault }
{}

/// What is stored is in range, and is read as what was stored: a null as null, and numbers as
/// themselves, unless they are a null value.
pub fn stored_cells_are_read_back()
    ensures in_range { (a : Cell) (of : CellType) (nulls : NullSet) (numbers : Numbers) → IsNullSetOf of nulls.items
        → stored_of a of nulls ≡ Ok numbers → AreInRange (atoms_of of) numbers.items }
    ensures null { (of : CellType) (nulls : NullSet) (numbers : Numbers) → IsNullSetOf of nulls.items
        → stored_of Null of nulls ≡ Ok numbers → read_of numbers nulls ≡ Null }
    ensures value { (cell : Numbers) (of : CellType) (nulls : NullSet) (numbers : Numbers)
        → stored_of (Value cell) of nulls ≡ Ok numbers
        → read_of numbers nulls ≡ (if reads_as_null cell.items nulls.items then Null else Value cell) }
{}

/// A default cell is in range and is stored as itself.
pub fn default_cells_are_stored_as_themselves()
    ensures in_range { (of : CellType) (nulls : NullSet) → IsNullSetOf of nulls.items
        → AreInRange (atoms_of of) (default_of of nulls).items }
    ensures stored { (of : CellType) (nulls : NullSet) → IsNullSetOf of nulls.items
        → stored_of (read_of (default_of of nulls) nulls) of nulls ≡ Ok (default_of of nulls) }
{}
