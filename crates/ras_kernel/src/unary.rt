//! Operations on one operand, and casts.
ghost use Rattle.std.specs.Prelude.{◌≡◌, ◌<◌, ◌≤◌, ℕ, length, false};
ghost use Rattle.ras_cells.specs.Cells.{applied1, cast_to};
ghost use Rattle.ras_cells.specs.Numbers.{of_number};
ghost use Rattle.ras_kernel.specs.Numbers.{AreOutcomes, unless_null};
ghost use Rattle.ras_kernel.specs.Runs.{AreFlagsOf, HoldsBelow, IsRun, run_cell, is_null, run_number};

use crate::blocks::end_of_block;
use crate::nulls::{is_null_at, join};
use crate::numbers::{Abs, Cast, Neg, Not, Unary};
use ras_cells::{Atom, CellFault, Op1};

/// The operation at each place of a run: its numbers and null flags go to `out` and `outn`. The
/// error is the least place that has a fault, with the fault; the places before it are computed.
/// A run in which no place is null may have no flags, and `outn` none where the operand has none.
pub fn run1(
    op: Op1,
    a: &[i64],
    an: &[bool],
    out: &mut [i64],
    outn: &mut [bool],
) -> Result<(), (usize, CellFault)>
    requires a { length a.now ≡ length out.old }
    requires an { AreFlagsOf an.now (length outn.old) }
    requires outn { AreFlagsOf outn.old (length out.old) }
    ensures { IsRun (λ i. applied1 op (run_cell a.now an.now i))
        (length out.old) result out.new outn.new }
{
    join(an, &[], outn);
    on_numbers(op, a, outn, out)
}

/// The cast of each place of a run, as [`run1`] does its operation.
pub fn run_cast(
    to: Atom,
    a: &[i64],
    an: &[bool],
    out: &mut [i64],
    outn: &mut [bool],
) -> Result<(), (usize, CellFault)>
    requires a { length a.now ≡ length out.old }
    requires an { AreFlagsOf an.now (length outn.old) }
    requires outn { AreFlagsOf outn.old (length out.old) }
    ensures { IsRun (λ i. cast_to to (run_cell a.now an.now i))
        (length out.old) result out.new outn.new }
{
    join(an, &[], outn);
    run_unary(&Cast { to }, a, outn, out)
}

/// The operation at the numbers that aren't null.
fn on_numbers(op: Op1, a: &[i64], nulls: &[bool], out: &mut [i64]) -> Result<(), (usize, CellFault)>
    requires a { length a.now ≡ length out.old }
    requires nulls { AreFlagsOf nulls.now (length out.old) }
    ensures { IsRun (λ i. unless_null (is_null nulls.now i) (of_number op (run_number a.now i)))
        (length out.old) result out.new nulls.now }
{
    match op {
        Op1::Neg => run_unary(&Neg, a, nulls, out),
        Op1::Abs => run_unary(&Abs, a, nulls, out),
        Op1::Not => run_unary(&Not, a, nulls, out),
    }
}

/// The operation at the numbers that aren't null, a block at a time: all of its numbers at once,
/// and one by one where that raises the flag.
fn run_unary<O: Unary>(
    operation: &O,
    a: &[i64],
    nulls: &[bool],
    out: &mut [i64],
) -> Result<(), (usize, CellFault)>
    requires a { length a.now ≡ length out.old }
    requires nulls { AreFlagsOf nulls.now (length out.old) }
    ensures { IsRun
        (λ i. unless_null (is_null nulls.now i) (O.outcome operation.now (run_number a.now i)))
        (length out.old) result out.new nulls.now }
{
    let mut from = 0;
    while from < out.len() {
        let to = end_of_block(from, out.len());
        if each(operation, a, out, from, to) {
            one_by_one(operation, a, nulls, out, from, to)?;
        }
        from = to;
    }
    Ok(())
}

/// The operation at each number of a block, and whether one of them may have a fault.
fn each<O: Unary>(operation: &O, a: &[i64], out: &mut [i64], from: usize, to: usize) -> bool
    requires a { length a.now ≡ length out.old }
    requires order { from ≤ to }
    requires to { to ≤ length out.old }
    ensures before { (i : ℕ) → i < from → run_number out.new i ≡ run_number out.old i }
    ensures block { result ≡ false
        → AreOutcomes (λ i. O.outcome operation.now (run_number a.now i)) from to out.new }
{
    let mut faulty = false;
    for i in from..to {
        let (number, flag) = operation.fast(a[i]);
        out[i] = number;
        faulty |= flag;
    }
    faulty
}

/// The operation at the numbers of a block that aren't null, up to the first fault.
fn one_by_one<O: Unary>(
    operation: &O,
    a: &[i64],
    nulls: &[bool],
    out: &mut [i64],
    from: usize,
    to: usize,
) -> Result<(), (usize, CellFault)>
    requires a { length a.now ≡ length out.old }
    requires nulls { AreFlagsOf nulls.now (length out.old) }
    requires order { from ≤ to }
    requires to { to ≤ length out.old }
    requires before { HoldsBelow
        (λ i. unless_null (is_null nulls.now i) (O.outcome operation.now (run_number a.now i)))
        from out.old nulls.now }
    ensures { IsRun
        (λ i. unless_null (is_null nulls.now i) (O.outcome operation.now (run_number a.now i)))
        to result out.new nulls.now }
{
    for i in from..to {
        if !is_null_at(nulls, i) {
            match operation.exact(a[i]) {
                Ok(number) => out[i] = number,
                Err(fault) => return Err((i, fault)),
            }
        }
    }
    Ok(())
}
