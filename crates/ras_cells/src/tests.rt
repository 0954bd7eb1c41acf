//! Values worked out by hand from the rules.
ghost use Rattle.std.specs.Prelude.{IfOk};
ghost use Rattle.ras_cells.specs.Cells.{IsSingle};

use crate::{
    Atom, Cell, CellFault, CellType, MAX_COMPONENTS, MAX_NULLS, NullSet, Numbers, Op1, Op2, apply1,
    apply2, cast, default_cell, outcome1, outcome2, read_stored, to_stored,
};
use arrayvec::ArrayVec;
use std::process::Abort;

const MIN: i64 = i64::MIN;

const MAX: i64 = i64::MAX;

/// A cell of one number, or null.
type Single = Option<i64>;

/// A cell of any number of components, or null.
type Components<'a> = Option<&'a [i64]>;

fn cell_of(number: Single) -> Cell
    ensures { IsSingle result }
{
    match number {
        Some(number) => {
            let mut numbers = Numbers::new();
            numbers.push(number);
            Cell::Value(numbers)
        }
        None => Cell::Null,
    }
}

fn outcome_of(want: Result<Single, CellFault>) -> Result<Cell, CellFault>
    ensures { IfOk result IsSingle }
{
    match want {
        Ok(number) => Ok(cell_of(number)),
        Err(fault) => Err(fault),
    }
}

fn numbers_of(rt: &impl Abort, numbers: &[i64]) -> Numbers {
    assert!(rt; numbers.len() <= MAX_COMPONENTS);
    Numbers::try_from(numbers).unwrap()
}

fn components_of(rt: &impl Abort, numbers: Components<'_>) -> Cell {
    match numbers {
        Some(numbers) => Cell::Value(numbers_of(rt, numbers)),
        None => Cell::Null,
    }
}

fn nulls_of(rt: &impl Abort, nulls: &[(i64, i64)]) -> NullSet {
    assert!(rt; nulls.len() <= MAX_NULLS);
    NullSet::try_from(nulls).unwrap()
}

fn composite_of(rt: &impl Abort, atoms: &[Atom]) -> CellType {
    assert!(rt; atoms.len() <= MAX_COMPONENTS);
    CellType::Composite(ArrayVec::try_from(atoms).unwrap())
}

#[test]
fn operations_on_one_cell(rt: HostRuntime) {
    let cases: [(Op1, Single, Result<Single, CellFault>); 13] = [
        (Op1::Neg, Some(5), Ok(Some(-5))),
        (Op1::Neg, Some(0), Ok(Some(0))),
        (Op1::Neg, Some(MAX), Ok(Some(-9_223_372_036_854_775_807))),
        (Op1::Neg, Some(MIN), Err(CellFault::Overflow)),
        (Op1::Neg, None, Ok(None)),
        (Op1::Abs, Some(-5), Ok(Some(5))),
        (Op1::Abs, Some(MAX), Ok(Some(MAX))),
        (Op1::Abs, Some(-9_223_372_036_854_775_807), Ok(Some(MAX))),
        (Op1::Abs, Some(MIN), Err(CellFault::Overflow)),
        (Op1::Abs, None, Ok(None)),
        (Op1::Not, Some(0), Ok(Some(1))),
        (Op1::Not, Some(1), Ok(Some(0))),
        (Op1::Not, None, Ok(None)),
    ];
    for (i, (op, a, want)) in cases.iter().enumerate() {
        assert_eq!(&rt; apply1(*op, &cell_of(*a)), outcome_of(*want), "at case {i}");
    }
}

#[test]
fn arithmetic_on_two_cells(rt: HostRuntime) {
    let cases: [(Op2, i64, i64, Result<i64, CellFault>); 47] = [
        (Op2::Add, MAX, 0, Ok(MAX)),
        (Op2::Add, MAX, 1, Err(CellFault::Overflow)),
        (Op2::Add, MIN, -1, Err(CellFault::Overflow)),
        (Op2::Add, MIN, MAX, Ok(-1)),
        (Op2::Sub, MIN, 1, Err(CellFault::Overflow)),
        (Op2::Sub, MAX, -1, Err(CellFault::Overflow)),
        (Op2::Sub, 0, MIN, Err(CellFault::Overflow)),
        (Op2::Sub, -1, MIN, Ok(MAX)),
        // The square root of 2^63 lies between these two.
        (
            Op2::Mul,
            3_037_000_499,
            3_037_000_499,
            Ok(9_223_372_030_926_249_001),
        ),
        (
            Op2::Mul,
            3_037_000_500,
            3_037_000_500,
            Err(CellFault::Overflow),
        ),
        (Op2::Mul, MIN, 1, Ok(MIN)),
        (Op2::Mul, MIN, -1, Err(CellFault::Overflow)),
        (Op2::Mul, 2_147_483_648, -4_294_967_296, Ok(MIN)),
        (
            Op2::Mul,
            2_147_483_648,
            4_294_967_296,
            Err(CellFault::Overflow),
        ),
        (Op2::Mul, 0, MIN, Ok(0)),
        (Op2::Div, 7, 2, Ok(3)),
        (Op2::Div, -7, 2, Ok(-3)),
        (Op2::Div, 7, -2, Ok(-3)),
        (Op2::Div, -7, -2, Ok(3)),
        (Op2::Div, 1, MIN, Ok(0)),
        (Op2::Div, MIN, MIN, Ok(1)),
        (Op2::Div, MIN, 1, Ok(MIN)),
        (Op2::Div, MIN, -1, Err(CellFault::Overflow)),
        (Op2::Div, -9_223_372_036_854_775_807, -1, Ok(MAX)),
        (Op2::Div, 0, 0, Err(CellFault::DivideByZero)),
        (Op2::Div, MIN, 0, Err(CellFault::DivideByZero)),
        (Op2::Mod, 7, 2, Ok(1)),
        (Op2::Mod, -7, 2, Ok(-1)),
        (Op2::Mod, 7, -2, Ok(1)),
        (Op2::Mod, -7, -2, Ok(-1)),
        (Op2::Mod, MIN, -1, Ok(0)),
        (Op2::Mod, MIN, 10, Ok(-8)),
        (Op2::Mod, MIN, MAX, Ok(-1)),
        (Op2::Mod, 5, MIN, Ok(5)),
        (Op2::Mod, 5, 0, Err(CellFault::DivideByZero)),
        // 5 is 101 and -6 is ..11010 in two's complement form.
        (Op2::Bit, 5, 0, Ok(1)),
        (Op2::Bit, 5, 1, Ok(0)),
        (Op2::Bit, -6, 2, Ok(0)),
        (Op2::Bit, -6, 3, Ok(1)),
        (Op2::Bit, -1, 63, Ok(1)),
        (Op2::Bit, MIN, 62, Ok(0)),
        (Op2::Bit, MIN, 63, Ok(1)),
        (Op2::Bit, MAX, 62, Ok(1)),
        (Op2::Bit, MAX, 63, Ok(0)),
        (Op2::Bit, 5, 64, Err(CellFault::IndexOut)),
        (Op2::Bit, 5, -1, Err(CellFault::IndexOut)),
        (Op2::Bit, 5, MIN, Err(CellFault::IndexOut)),
    ];
    for (i, (op, a, b, want)) in cases.iter().enumerate() {
        let want = match want {
            Ok(number) => Ok(Some(*number)),
            Err(fault) => Err(*fault),
        };
        let got = apply2(*op, &cell_of(Some(*a)), &cell_of(Some(*b)));
        assert_eq!(&rt; got, outcome_of(want), "at case {i}");
    }
}

#[test]
fn truth_values_of_two_cells(rt: HostRuntime) {
    // Each operation at (0,0), (0,1), (1,0), (1,1).
    let cases: [(Op2, [i64; 4]); 9] = [
        (Op2::Eq, [1, 0, 0, 1]),
        (Op2::Ne, [0, 1, 1, 0]),
        (Op2::Lt, [0, 1, 0, 0]),
        (Op2::Le, [1, 1, 0, 1]),
        (Op2::Gt, [0, 0, 1, 0]),
        (Op2::Ge, [1, 0, 1, 1]),
        (Op2::And, [0, 0, 0, 1]),
        (Op2::Or, [0, 1, 1, 1]),
        (Op2::Xor, [0, 1, 1, 0]),
    ];
    for (op, want) in &cases {
        for (i, (a, b)) in [(0, 0), (0, 1), (1, 0), (1, 1)].iter().enumerate() {
            let got = apply2(*op, &cell_of(Some(*a)), &cell_of(Some(*b)));
            assert_eq!(&rt; got, outcome_of(Ok(Some(want[i]))), "at case {i} of {op:?}");
        }
    }
    let ends = apply2(Op2::Lt, &cell_of(Some(MIN)), &cell_of(Some(MAX)));
    assert_eq!(&rt; ends, outcome_of(Ok(Some(1))));
}

#[test]
fn null_comes_before_the_operations_own_fault(rt: HostRuntime) {
    let cases: [(Op2, Single, Single, Single); 11] = [
        (Op2::Add, None, Some(1), None),
        (Op2::Add, Some(1), None, None),
        (Op2::Div, None, Some(0), None),
        (Op2::Mod, None, None, None),
        (Op2::Bit, None, Some(64), None),
        (Op2::And, Some(0), None, None),
        (Op2::Or, None, Some(1), None),
        (Op2::Overlay, None, Some(5), Some(5)),
        (Op2::Overlay, Some(3), None, Some(3)),
        (Op2::Overlay, None, Some(0), None),
        (Op2::Overlay, Some(3), Some(0), Some(3)),
    ];
    for (i, (op, a, b, want)) in cases.iter().enumerate() {
        assert_eq!(&rt;
            apply2(*op, &cell_of(*a), &cell_of(*b)),
            outcome_of(Ok(*want)),
            "at case {i}"
        );
    }
}

#[test]
fn operands_faults_come_first_from_left_to_right(rt: HostRuntime) {
    let zero: Result<Single, CellFault> = Ok(Some(0));
    let null: Result<Single, CellFault> = Ok(None);
    let overflow: Result<Single, CellFault> = Err(CellFault::Overflow);
    let out: Result<Single, CellFault> = Err(CellFault::IndexOut);
    let cases = [
        (overflow, out, overflow),
        (null, out, out),
        (zero, out, out),
        (overflow, zero, overflow),
        (null, zero, null),
        (zero, zero, Err(CellFault::DivideByZero)),
    ];
    for (i, (a, b, want)) in cases.iter().enumerate() {
        let got = outcome2(Op2::Div, outcome_of(*a), outcome_of(*b));
        assert_eq!(&rt; got, outcome_of(*want), "at case {i}");
    }
    assert_eq!(&rt; outcome1(Op1::Neg, outcome_of(out)), outcome_of(out));
    assert_eq!(&rt; outcome1(Op1::Neg, outcome_of(null)), outcome_of(null));
}

#[test]
fn overlays_of_composite_cells(rt: HostRuntime) {
    let ones: &[i64] = &[1; 8];
    let last: &[i64] = &[0, 0, 0, 0, 0, 0, 0, -1];
    let cases: [(Components<'_>, Components<'_>, Components<'_>); 6] = [
        (Some(&[1, 2]), Some(&[0, 0]), Some(&[1, 2])),
        (Some(&[1, 2]), Some(&[0, 3]), Some(&[0, 3])),
        (Some(&[1, 2]), None, Some(&[1, 2])),
        (None, Some(&[0, 0]), None),
        (Some(ones), Some(&[0; 8]), Some(ones)),
        (Some(ones), Some(last), Some(last)),
    ];
    for (i, (a, b, want)) in cases.iter().enumerate() {
        let got = apply2(
            Op2::Overlay,
            &components_of(&rt, *a),
            &components_of(&rt, *b),
        );
        assert_eq!(&rt; got, Ok(components_of(&rt, *want)), "at case {i}");
    }
}

#[test]
fn atoms_end_where_their_ranges_do(rt: HostRuntime) {
    let cases = [
        (Atom::Bool, 0, 1),
        (Atom::Octet, -128, 127),
        (Atom::Char, 0, 255),
        (Atom::Short, -32_768, 32_767),
        (Atom::Ushort, 0, 65_535),
        (Atom::Long, -2_147_483_648, 2_147_483_647),
        (Atom::Ulong, 0, 4_294_967_295),
    ];
    for (i, (atom, least, greatest)) in cases.iter().enumerate() {
        let out = outcome_of(Err(CellFault::CastRange));
        let least: i64 = *least;
        let greatest: i64 = *greatest;
        assert_eq!(&rt;
            cast(*atom, &cell_of(Some(least))),
            outcome_of(Ok(Some(least))),
            "at case {i}"
        );
        assert_eq!(&rt;
            cast(*atom, &cell_of(Some(greatest))),
            outcome_of(Ok(Some(greatest))),
            "at case {i}"
        );
        assert_eq!(&rt;
            cast(*atom, &cell_of(least.checked_sub(1))),
            out,
            "at case {i}"
        );
        assert_eq!(&rt;
            cast(*atom, &cell_of(greatest.checked_add(1))),
            out,
            "at case {i}"
        );
        assert_eq!(&rt; cast(*atom, &Cell::Null), Ok(Cell::Null), "at case {i}");
    }
    assert_eq!(&rt;
        cast(Atom::Wide, &cell_of(Some(MIN))),
        outcome_of(Ok(Some(MIN)))
    );
    assert_eq!(&rt;
        cast(Atom::Wide, &cell_of(Some(MAX))),
        outcome_of(Ok(Some(MAX)))
    );
}

fn stored(
    rt: &impl Abort,
    a: Components<'_>,
    to: &CellType,
    nulls: &NullSet,
) -> Result<Numbers, CellFault> {
    match a {
        None => to_stored(&Cell::Null, to, nulls),
        Some(numbers) => {
            assert!(rt; numbers.len() == to.atoms().len());
            to_stored(&Cell::Value(Numbers::try_from(numbers).unwrap()), to, nulls)
        }
    }
}

#[test]
fn cells_are_stored_in_atoms(rt: HostRuntime) {
    let cases: [(Atom, &[(i64, i64)], Single, Result<i64, CellFault>); 14] = [
        (Atom::Char, &[], Some(255), Ok(255)),
        (Atom::Char, &[], Some(256), Err(CellFault::CastRange)),
        (Atom::Char, &[], Some(-1), Err(CellFault::CastRange)),
        (Atom::Char, &[], None, Err(CellFault::NullStore)),
        (Atom::Char, &[(0, 0)], None, Ok(0)),
        (Atom::Char, &[(5, 9), (20, 20)], None, Ok(5)),
        (Atom::Char, &[(5, 9), (20, 20)], Some(7), Ok(7)),
        (Atom::Octet, &[(-128, -1)], None, Ok(-128)),
        (Atom::Octet, &[], Some(-128), Ok(-128)),
        (Atom::Octet, &[], Some(-129), Err(CellFault::CastRange)),
        (Atom::Bool, &[], Some(1), Ok(1)),
        (Atom::Bool, &[], Some(2), Err(CellFault::CastRange)),
        (Atom::Ulong, &[], Some(4_294_967_295), Ok(4_294_967_295)),
        (
            Atom::Ulong,
            &[],
            Some(4_294_967_296),
            Err(CellFault::CastRange),
        ),
    ];
    for (i, (atom, nulls, a, want)) in cases.iter().enumerate() {
        let numbers = a.map(|number| [number]);
        let got = match &numbers {
            Some(numbers) => stored(
                &rt,
                Some(numbers),
                &CellType::Atom(*atom),
                &nulls_of(&rt, nulls),
            ),
            None => stored(&rt, None, &CellType::Atom(*atom), &nulls_of(&rt, nulls)),
        };
        let want = match want {
            Ok(number) => Ok(numbers_of(&rt, &[*number])),
            Err(fault) => Err(*fault),
        };
        assert_eq!(&rt; got, want, "at case {i}");
    }
}

#[test]
fn composite_cells_are_stored_component_by_component(rt: HostRuntime) {
    let two: &[Atom] = &[Atom::Char, Atom::Short];
    let cases: [(&[Atom], Components<'_>, Result<&[i64], CellFault>); 7] = [
        (
            &[Atom::Long],
            Some(&[-2_147_483_648]),
            Ok(&[-2_147_483_648]),
        ),
        (two, Some(&[255, -32_768]), Ok(&[255, -32_768])),
        (two, Some(&[256, 0]), Err(CellFault::CastRange)),
        (two, Some(&[0, 32_768]), Err(CellFault::CastRange)),
        (two, None, Err(CellFault::NullStore)),
        (&[Atom::Bool; 8], Some(&[1; 8]), Ok(&[1; 8])),
        (
            &[Atom::Bool; 8],
            Some(&[1, 1, 1, 1, 1, 1, 1, 2]),
            Err(CellFault::CastRange),
        ),
    ];
    for (i, (atoms, a, want)) in cases.iter().enumerate() {
        let got = stored(&rt, *a, &composite_of(&rt, atoms), &NullSet::new());
        let want = match want {
            Ok(numbers) => Ok(numbers_of(&rt, numbers)),
            Err(fault) => Err(*fault),
        };
        assert_eq!(&rt; got, want, "at case {i}");
    }
}

#[test]
fn null_values_read_as_null(rt: HostRuntime) {
    let nulls = nulls_of(&rt, &[(5, 9), (20, 20)]);
    let cases = [
        (4, false),
        (5, true),
        (9, true),
        (10, false),
        (19, false),
        (20, true),
        (21, false),
    ];
    for (number, is_null) in &cases {
        let got = read_stored(&numbers_of(&rt, &[*number]), &nulls);
        let want = cell_of((!*is_null).then_some(*number));
        assert_eq!(&rt; got, want, "at {number}");
    }
    let pair: &[i64] = &[5, 5];
    let got = read_stored(&numbers_of(&rt, pair), &NullSet::new());
    assert_eq!(&rt; got, components_of(&rt, Some(pair)));
}

#[test]
fn default_cells_are_null_or_zeros(rt: HostRuntime) {
    let none = NullSet::new();
    let five = nulls_of(&rt, &[(5, 9), (20, 20)]);
    let char = CellType::Atom(Atom::Char);
    assert_eq!(&rt; default_cell(&char, &none), numbers_of(&rt, &[0]));
    assert_eq!(&rt; default_cell(&char, &five), numbers_of(&rt, &[5]));
    let two = composite_of(&rt, &[Atom::Short, Atom::Bool]);
    assert_eq!(&rt; default_cell(&two, &none), numbers_of(&rt, &[0, 0]));
    let eight = composite_of(&rt, &[Atom::Octet; 8]);
    assert_eq!(&rt; default_cell(&eight, &none), numbers_of(&rt, &[0; 8]));
}
