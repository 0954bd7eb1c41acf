//! Operations on two operands.
ghost use Rattle.std.specs.Prelude.{◌≡◌, ◌≢◌, ◌<◌, ◌≤◌, ℕ, length, false};
ghost use Rattle.ras_cells.specs.Cells.{applied2};
ghost use Rattle.ras_cells.specs.Numbers.{of_numbers};
ghost use Rattle.ras_kernel.specs.Numbers.{AreOutcomes, unless_null};
ghost use Rattle.ras_kernel.specs.Runs.{AreFlagsOf, HoldsBelow, IsRun, run_cell, is_null, run_number};

use crate::blocks::end_of_block;
use crate::nulls::{is_null_at, join};
use crate::numbers::{
    Add, And, Binary, Bit, Div, Eq, Ge, Gt, Le, Lt, Mod, Mul, MulSmall, Ne, Or, Sub, Xor,
};
use crate::overlays::overlay;
use ras_cells::{CellFault, Op2};

/// The operation at each place of two runs: its numbers and null flags go to `out` and `outn`. The
/// error is the least place that has a fault, with the fault; the places before it are computed.
/// A run in which no place is null may have no flags, and `outn` none where neither operand has
/// any.
pub fn run2(
    op: Op2,
    a: &[i64],
    an: &[bool],
    b: &[i64],
    bn: &[bool],
    out: &mut [i64],
    outn: &mut [bool],
) -> Result<(), (usize, CellFault)>
    requires a { length a.now ≡ length out.old }
    requires an { AreFlagsOf an.now (length outn.old) }
    requires b { length b.now ≡ length out.old }
    requires bn { AreFlagsOf bn.now (length outn.old) }
    requires outn { AreFlagsOf outn.old (length out.old) }
    ensures { IsRun (λ i. applied2 op (run_cell a.now an.now i) (run_cell b.now bn.now i))
        (length out.old) result out.new outn.new }
{
    if op == Op2::Overlay {
        overlay(a, an, b, bn, out, outn);
        return Ok(());
    }
    join(an, bn, outn);
    on_numbers(op, a, b, outn, out)
}

/// The operation at the numbers that aren't null.
fn on_numbers(
    op: Op2,
    a: &[i64],
    b: &[i64],
    nulls: &[bool],
    out: &mut [i64],
) -> Result<(), (usize, CellFault)>
    requires op { op ≢ Op2.Overlay }
    requires a { length a.now ≡ length out.old }
    requires b { length b.now ≡ length out.old }
    requires nulls { AreFlagsOf nulls.now (length out.old) }
    ensures { IsRun
        (λ i. unless_null (is_null nulls.now i)
        (of_numbers op (run_number a.now i) (run_number b.now i)))
        (length out.old) result out.new nulls.now }
{
    match op {
        Op2::Add => run_binary::<Add>(a, b, nulls, out),
        Op2::Sub => run_binary::<Sub>(a, b, nulls, out),
        Op2::Mul => multiply(a, b, nulls, out),
        Op2::Div => run_binary::<Div>(a, b, nulls, out),
        Op2::Mod => run_binary::<Mod>(a, b, nulls, out),
        Op2::Eq => run_binary::<Eq>(a, b, nulls, out),
        Op2::Ne => run_binary::<Ne>(a, b, nulls, out),
        Op2::Lt => run_binary::<Lt>(a, b, nulls, out),
        Op2::Le => run_binary::<Le>(a, b, nulls, out),
        Op2::Gt => run_binary::<Gt>(a, b, nulls, out),
        Op2::Ge => run_binary::<Ge>(a, b, nulls, out),
        Op2::And => run_binary::<And>(a, b, nulls, out),
        Op2::Or => run_binary::<Or>(a, b, nulls, out),
        Op2::Xor => run_binary::<Xor>(a, b, nulls, out),
        Op2::Bit => run_binary::<Bit>(a, b, nulls, out),
        Op2::Overlay => unreachable!(),
    }
}

/// The product, first as one of small numbers.
fn multiply(a: &[i64], b: &[i64], nulls: &[bool], out: &mut [i64]) -> Result<(), (usize, CellFault)>
    requires a { length a.now ≡ length out.old }
    requires b { length b.now ≡ length out.old }
    requires nulls { AreFlagsOf nulls.now (length out.old) }
    ensures { IsRun
        (λ i. unless_null (is_null nulls.now i)
        (of_numbers Op2.Mul (run_number a.now i) (run_number b.now i)))
        (length out.old) result out.new nulls.now }
{
    if each::<MulSmall>(a, b, out, 0, out.len()) {
        return run_binary::<Mul>(a, b, nulls, out);
    }
    Ok(())
}

/// The operation at the numbers that aren't null, a block at a time: all of its numbers at once,
/// and one by one where that raises the flag.
fn run_binary<O: Binary>(
    a: &[i64],
    b: &[i64],
    nulls: &[bool],
    out: &mut [i64],
) -> Result<(), (usize, CellFault)>
    requires a { length a.now ≡ length out.old }
    requires b { length b.now ≡ length out.old }
    requires nulls { AreFlagsOf nulls.now (length out.old) }
    ensures { IsRun
        (λ i. unless_null (is_null nulls.now i) (O.outcome (run_number a.now i) (run_number b.now i)))
        (length out.old) result out.new nulls.now }
{
    let mut from = 0;
    while from < out.len() {
        let to = end_of_block(from, out.len());
        if each::<O>(a, b, out, from, to) {
            one_by_one::<O>(a, b, nulls, out, from, to)?;
        }
        from = to;
    }
    Ok(())
}

/// The operation at each pair of numbers of a block, and whether one of them may have a fault.
fn each<O: Binary>(a: &[i64], b: &[i64], out: &mut [i64], from: usize, to: usize) -> bool
    requires a { length a.now ≡ length out.old }
    requires b { length b.now ≡ length out.old }
    requires order { from ≤ to }
    requires to { to ≤ length out.old }
    ensures before { (i : ℕ) → i < from → run_number out.new i ≡ run_number out.old i }
    ensures block { result ≡ false
        → AreOutcomes (λ i. O.outcome (run_number a.now i) (run_number b.now i)) from to out.new }
{
    let mut faulty = false;
    for i in from..to {
        let (number, flag) = O::fast(a[i], b[i]);
        out[i] = number;
        faulty |= flag;
    }
    faulty
}

/// The operation at the pairs of numbers of a block that aren't null, up to the first fault.
fn one_by_one<O: Binary>(
    a: &[i64],
    b: &[i64],
    nulls: &[bool],
    out: &mut [i64],
    from: usize,
    to: usize,
) -> Result<(), (usize, CellFault)>
    requires a { length a.now ≡ length out.old }
    requires b { length b.now ≡ length out.old }
    requires nulls { AreFlagsOf nulls.now (length out.old) }
    requires order { from ≤ to }
    requires to { to ≤ length out.old }
    requires before { HoldsBelow
        (λ i. unless_null (is_null nulls.now i) (O.outcome (run_number a.now i) (run_number b.now i)))
        from out.old nulls.now }
    ensures { IsRun
        (λ i. unless_null (is_null nulls.now i) (O.outcome (run_number a.now i) (run_number b.now i)))
        to result out.new nulls.now }
{
    for i in from..to {
        if !is_null_at(nulls, i) {
            match O::exact(a[i], b[i]) {
                Ok(number) => out[i] = number,
                Err(fault) => return Err((i, fault)),
            }
        }
    }
    Ok(())
}
