//! The overlay: the second cell, or the first where the second is null or 0.
ghost use Rattle.std.specs.Prelude.{◌≡◌, ◌<◌, ◌&&◌, ◌||◌, ℕ, length, if◌then◌else◌};
ghost use Rattle.ras_cells.specs.Cells.{applied2};
ghost use Rattle.ras_cells.specs.Numbers.{is_zero};
ghost use Rattle.ras_kernel.specs.Numbers.{gives_way};
ghost use Rattle.ras_kernel.specs.Runs.{AreFlagsOf, HoldsBelow, run_cell, is_null, run_number};

use ras_cells::Op2;

/// The overlay of each place of two runs.
pub(crate) fn overlay(
    a: &[i64],
    an: &[bool],
    b: &[i64],
    bn: &[bool],
    out: &mut [i64],
    outn: &mut [bool],
)
    requires a { length a.now ≡ length out.old }
    requires an { AreFlagsOf an.now (length outn.old) }
    requires b { length b.now ≡ length out.old }
    requires bn { AreFlagsOf bn.now (length outn.old) }
    requires outn { AreFlagsOf outn.old (length out.old) }
    ensures { HoldsBelow
        (λ i. applied2 Op2.Overlay (run_cell a.now an.now i) (run_cell b.now bn.now i))
        (length out.old) out.new outn.new }
{
    choose_nulls(an, b, bn, outn);
    if bn.is_empty() {
        choose_by_numbers(a, b, out);
    } else {
        choose_by_cells(a, b, bn, out);
    }
}

/// A place is null where a is null and b gives way.
fn choose_nulls(an: &[bool], b: &[i64], bn: &[bool], outn: &mut [bool])
    requires an { AreFlagsOf an.now (length outn.old) }
    requires bn { AreFlagsOf bn.now (length outn.old) }
    requires outn { AreFlagsOf outn.old (length b.now) }
    ensures { (i : ℕ) → i < length b.now
        → is_null outn.new i ≡ (is_null an.now i && gives_way b.now bn.now i) }
{
    if an.is_empty() {
        outn.fill(false);
    } else if bn.is_empty() {
        choose_nulls_by_numbers(an, b, outn);
    } else {
        choose_nulls_by_cells(an, b, bn, outn);
    }
}

/// The same where a has flags and b has none.
fn choose_nulls_by_numbers(an: &[bool], b: &[i64], outn: &mut [bool])
    requires an { length an.now ≡ length outn.old }
    requires b { length b.now ≡ length outn.old }
    ensures { (i : ℕ) → i < length outn.old
        → is_null outn.new i ≡ (is_null an.now i && is_zero (run_number b.now i)) }
{
    for i in 0..outn.len() {
        outn[i] = an[i] & (b[i] == 0);
    }
}

/// The same where both have flags.
fn choose_nulls_by_cells(an: &[bool], b: &[i64], bn: &[bool], outn: &mut [bool])
    requires an { length an.now ≡ length outn.old }
    requires b { length b.now ≡ length outn.old }
    requires bn { length bn.now ≡ length outn.old }
    ensures { (i : ℕ) → i < length outn.old
        → is_null outn.new i ≡ (is_null an.now i && gives_way b.now bn.now i) }
{
    for i in 0..outn.len() {
        outn[i] = an[i] & (bn[i] | (b[i] == 0));
    }
}

/// The number of a where b is 0, else that of b.
fn choose_by_numbers(a: &[i64], b: &[i64], out: &mut [i64])
    requires a { length a.now ≡ length out.old }
    requires b { length b.now ≡ length out.old }
    ensures { (i : ℕ) → i < length out.old
        → run_number out.new i
        ≡ (if is_zero (run_number b.now i) then run_number a.now i else run_number b.now i) }
{
    for i in 0..out.len() {
        out[i] = choose(false, a[i], b[i]);
    }
}

/// The number of a where b is null or 0, else that of b.
fn choose_by_cells(a: &[i64], b: &[i64], bn: &[bool], out: &mut [i64])
    requires a { length a.now ≡ length out.old }
    requires b { length b.now ≡ length out.old }
    requires bn { length bn.now ≡ length out.old }
    ensures { (i : ℕ) → i < length out.old
        → run_number out.new i
        ≡ (if gives_way b.now bn.now i then run_number a.now i else run_number b.now i) }
{
    for i in 0..out.len() {
        out[i] = choose(bn[i], a[i], b[i]);
    }
}

/// The number of a where b is null or 0, else that of b. Both are read before the choice, so that
/// it takes no branch.
fn choose(is_null: bool, under: i64, over: i64) -> i64
    ensures { result ≡ (if is_null || is_zero over then under else over) }
{
    if is_null | (over == 0) { under } else { over }
}
