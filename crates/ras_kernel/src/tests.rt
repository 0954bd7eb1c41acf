//! Runs of every length against the operations on single cells, and tables worked out by hand.
ghost use Rattle.std.specs.Prelude.{◌≡◌, ◌≤◌, length};
ghost use Rattle.ras_cells.specs.Cells.{IsSingle};

use crate::{run_cast, run1, run2, widen};
use ras_cells::{Atom, Cell, CellFault, Numbers, Op1, Op2, Run, apply1, apply2, cast};
use std::process::Abort;

const MIN: i64 = i64::MIN;

const MAX: i64 = i64::MAX;

/// The longest run.
const LONGEST: usize = 70;

/// The numbers of the runs, in turn: of few bits and of many.
const SMALL: [i64; 7] = [3, -1, 5, 1, -2, 4, 63];

const LARGE: [i64; 7] = [MAX, 0, -1, MIN, 4_294_967_296, 64, 2_147_483_648];

fn cell_of(number: i64, is_null: bool) -> Cell
    ensures { IsSingle result }
{
    if is_null {
        return Cell::Null;
    }
    let mut numbers = Numbers::new();
    numbers.push(number);
    Cell::Value(numbers)
}

/// A run of small numbers that begins anywhere, and ends with a large one where that is asked.
fn numbers_from(first: usize, large_at: usize) -> [i64; LONGEST] {
    let mut numbers = [0; LONGEST];
    for i in 0..LONGEST {
        let from = if i == large_at { LARGE } else { SMALL };
        numbers[i] = from[first.wrapping_add(i) % 7];
    }
    numbers
}

/// Null flags with one flag of `every` set.
fn flags_of(every: usize) -> [bool; LONGEST] {
    let mut flags = [false; LONGEST];
    for i in 0..LONGEST {
        flags[i] = every != 0 && i % every == 1;
    }
    flags
}

fn compare1(rt: &impl Abort, op: Op1, a: &[i64], an: &[bool])
    requires few { length a.now ≤ LONGEST }
    requires flags { length an.now ≡ length a.now }
{
    let mut out = [0; LONGEST];
    let mut outn = [false; LONGEST];
    let got = run1(op, a, an, &mut out[..a.len()], &mut outn[..a.len()]);
    for i in 0..a.len() {
        match apply1(op, &cell_of(a[i], an[i])) {
            Ok(cell) => assert_eq!(rt; cell_of(out[i], outn[i]), cell, "{op:?} at {i}"),
            Err(fault) => {
                assert_eq!(rt; got, Err((i, fault)), "{op:?}");
                return;
            }
        }
    }
    assert_eq!(rt; got, Ok(()), "{op:?}");
}

fn compare_cast(rt: &impl Abort, to: Atom, a: &[i64], an: &[bool])
    requires few { length a.now ≤ LONGEST }
    requires flags { length an.now ≡ length a.now }
{
    let mut out = [0; LONGEST];
    let mut outn = [false; LONGEST];
    let got = run_cast(to, a, an, &mut out[..a.len()], &mut outn[..a.len()]);
    for i in 0..a.len() {
        match cast(to, &cell_of(a[i], an[i])) {
            Ok(cell) => assert_eq!(rt; cell_of(out[i], outn[i]), cell, "{to:?} at {i}"),
            Err(fault) => {
                assert_eq!(rt; got, Err((i, fault)), "{to:?}");
                return;
            }
        }
    }
    assert_eq!(rt; got, Ok(()), "{to:?}");
}

fn compare2(rt: &impl Abort, op: Op2, a: &[i64], an: &[bool], b: &[i64], bn: &[bool])
    requires few { length a.now ≤ LONGEST }
    requires a { length an.now ≡ length a.now }
    requires b { length b.now ≡ length a.now }
    requires bn { length bn.now ≡ length a.now }
{
    let mut out = [0; LONGEST];
    let mut outn = [false; LONGEST];
    let got = run2(op, a, an, b, bn, &mut out[..a.len()], &mut outn[..a.len()]);
    for i in 0..a.len() {
        match apply2(op, &cell_of(a[i], an[i]), &cell_of(b[i], bn[i])) {
            Ok(cell) => assert_eq!(rt; cell_of(out[i], outn[i]), cell, "{op:?} at {i}"),
            Err(fault) => {
                assert_eq!(rt; got, Err((i, fault)), "{op:?}");
                return;
            }
        }
    }
    assert_eq!(rt; got, Ok(()), "{op:?}");
}

const UNARY: [Op1; 3] = [Op1::Neg, Op1::Abs, Op1::Not];

const BINARY: [Op2; 16] = [
    Op2::Add,
    Op2::Sub,
    Op2::Mul,
    Op2::Div,
    Op2::Mod,
    Op2::Eq,
    Op2::Ne,
    Op2::Lt,
    Op2::Le,
    Op2::Gt,
    Op2::Ge,
    Op2::And,
    Op2::Or,
    Op2::Xor,
    Op2::Bit,
    Op2::Overlay,
];

const ATOMS: [Atom; 8] = [
    Atom::Bool,
    Atom::Octet,
    Atom::Char,
    Atom::Short,
    Atom::Ushort,
    Atom::Long,
    Atom::Ulong,
    Atom::Wide,
];

/// Each operation over the first `len` places.
fn compare_all(rt: &impl Abort, len: usize, large_at: usize, nulls: usize)
    requires { len ≤ LONGEST }
{
    let a = numbers_from(len, large_at);
    let b = numbers_from(nulls, large_at);
    let an = flags_of(nulls);
    let bn = flags_of(nulls / 2);
    for op in &UNARY {
        compare1(rt, *op, &a[..len], &an[..len]);
    }
    for to in &ATOMS {
        compare_cast(rt, *to, &a[..len], &an[..len]);
    }
    for op in &BINARY {
        compare2(rt, *op, &a[..len], &an[..len], &b[..len], &bn[..len]);
    }
}

#[test]
fn runs_of_every_length_are_those_of_single_cells(rt: HostRuntime) {
    for len in 0..LONGEST + 1 {
        compare_all(&rt, len, LONGEST, 0);
        compare_all(&rt, len, len / 2, 0);
        compare_all(&rt, len, len.saturating_sub(1), 5);
        compare_all(&rt, len, len / 3, 9);
    }
}

#[test]
fn a_run_stops_at_its_least_fault(rt: HostRuntime) {
    let cases: [(Op2, [i64; 4], [i64; 4], Result<(), (usize, CellFault)>); 6] = [
        (
            Op2::Add,
            [1, MAX, MAX, 2],
            [1, 0, 1, MAX],
            Err((2, CellFault::Overflow)),
        ),
        (
            Op2::Div,
            [7, 7, 7, MIN],
            [2, 0, 0, -1],
            Err((1, CellFault::DivideByZero)),
        ),
        (
            Op2::Div,
            [MIN, 7, 7, 7],
            [-1, 0, 1, 1],
            Err((0, CellFault::Overflow)),
        ),
        (
            Op2::Bit,
            [5, 5, 5, 5],
            [0, 63, 64, -1],
            Err((2, CellFault::IndexOut)),
        ),
        (
            Op2::Mul,
            [2_147_483_648, 2_147_483_648, 0, 3],
            [-4_294_967_296, 4_294_967_296, 0, 3],
            Err((1, CellFault::Overflow)),
        ),
        (Op2::Mod, [MIN, 7, -7, 0], [-1, 2, 2, 3], Ok(())),
    ];
    for (i, (op, a, b, want)) in cases.iter().enumerate() {
        let mut out = [0; 4];
        let got = run2(*op, a, &[], b, &[], &mut out, &mut []);
        assert_eq!(&rt; got, *want, "at case {i}");
    }
}

#[test]
fn a_run_of_several_blocks(rt: HostRuntime) {
    let mut a = [1; 2500];
    let mut an = [false; 2500];
    let b = [2; 2500];
    let mut out = [0; 2500];
    let mut outn = [true; 2500];
    let got = run2(Op2::Add, &a, &[], &b, &[], &mut out, &mut []);
    assert_eq!(&rt; got, Ok(()));
    assert_eq!(&rt; out, [3; 2500]);
    a[1500] = MAX;
    a[2200] = MAX;
    let got = run2(Op2::Add, &a, &an, &b, &[], &mut out, &mut outn);
    assert_eq!(&rt; got, Err((1500, CellFault::Overflow)));
    an[1500] = true;
    let got = run2(Op2::Add, &a, &an, &b, &[], &mut out, &mut outn);
    assert_eq!(&rt; got, Err((2200, CellFault::Overflow)));
    assert_eq!(&rt; (out[1501], outn[1500], outn[1501]), (3, true, false));
}

#[test]
fn a_null_hides_a_fault(rt: HostRuntime) {
    let mut out = [0; 3];
    let mut outn = [true; 3];
    let got = run2(
        Op2::Div,
        &[6, 7, 8],
        &[false, false, true],
        &[3, 0, 0],
        &[false, true, false],
        &mut out,
        &mut outn,
    );
    assert_eq!(&rt; got, Ok(()));
    assert_eq!(&rt; out[0], 2);
    assert_eq!(&rt; outn, [false, true, true]);
}

#[test]
fn runs_are_widened_by_their_kinds(rt: HostRuntime) {
    let cases: [(Run<'_>, [i64; 2]); 8] = [
        (Run::Uniform(-9), [-9, -9]),
        (Run::U8(&[200, 0]), [200, 0]),
        (Run::I8(&[-56, 127]), [-56, 127]),
        (Run::U16(&[65_535, 1]), [65_535, 1]),
        (Run::I16(&[-1, 32_767]), [-1, 32_767]),
        (Run::U32(&[4_294_967_295, 2]), [4_294_967_295, 2]),
        (Run::I32(&[-2_147_483_648, 3]), [-2_147_483_648, 3]),
        (Run::Plain(&[MIN, MAX]), [MIN, MAX]),
    ];
    for (i, (run, want)) in cases.iter().enumerate() {
        let mut out = [0; 2];
        widen(run, &mut out);
        assert_eq!(&rt; out, *want, "at case {i}");
    }
}
