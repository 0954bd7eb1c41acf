//! Folds worked out by hand.
ghost use Rattle.std.specs.Prelude.{◌≡◌, ◌+◌, ◌≤◌, length};
ghost use Rattle.ras_cells.specs.Runs.{HasLength};

use crate::Summary;
use ras_cells::{Cell, CellFault, Numbers, Run};
use ras_syntax::FoldOp;
use std::process::Abort;

const MIN: i64 = i64::MIN;

const MAX: i64 = i64::MAX;

/// A number, or null.
type Single = Option<i64>;

/// What a fold comes to.
type Want = Result<Single, CellFault>;

const OVERFLOW: Want = Err(CellFault::Overflow);

const TWENTY: [Single; 20] = [
    Some(1),
    Some(2),
    Some(3),
    Some(4),
    Some(5),
    Some(6),
    Some(7),
    Some(8),
    Some(9),
    Some(10),
    Some(11),
    Some(12),
    Some(13),
    Some(14),
    Some(15),
    Some(16),
    Some(17),
    Some(18),
    Some(19),
    Some(20),
];

const OPERATIONS: [FoldOp; 6] = [
    FoldOp::Plus,
    FoldOp::Times,
    FoldOp::Min,
    FoldOp::Max,
    FoldOp::And,
    FoldOp::Or,
];

fn outcome_of(want: Want) -> Result<Cell, CellFault> {
    match want? {
        None => Ok(Cell::Null),
        Some(number) => {
            let mut numbers = Numbers::new();
            numbers.push(number);
            Ok(Cell::Value(numbers))
        }
    }
}

/// The summary of some numbers and nulls.
fn summary_of(op: FoldOp, numbers: &[Single]) -> Summary
    requires { length numbers.now ≤ 100 }
    ensures op { result.op ≡ op }
    ensures count { result.count ≤ length numbers.now }
{
    let mut summary = Summary::empty(op);
    for number in numbers {
        summary.add_number(*number);
    }
    summary
}

/// Folds the numbers whole, and in two pieces cut at each place.
fn check(rt: &impl Abort, op: FoldOp, numbers: &[Single], want: Want)
    requires { length numbers.now ≤ 100 }
{
    let whole = summary_of(op, numbers).close();
    assert_eq!(rt; whole, outcome_of(want), "{op:?} of {numbers:?}");
    for cut in 0..numbers.len() + 1 {
        let first = summary_of(op, &numbers[..cut]);
        let second = summary_of(op, &numbers[cut..]);
        let got = first.merge(second).close();
        assert_eq!(rt; got, outcome_of(want), "{op:?} of {numbers:?} cut at {cut}");
    }
}

#[test]
fn sums_are_exact(rt: HostRuntime) {
    let cases: [(&[Single], Want); 8] = [
        (&[], Ok(Some(0))),
        (&[None], Ok(Some(0))),
        (&[Some(1), None, Some(2)], Ok(Some(3))),
        (&[Some(MAX), Some(MAX), Some(-MAX)], Ok(Some(MAX))),
        (&[Some(MAX), Some(1)], OVERFLOW),
        (&[Some(MAX), Some(1), Some(-1)], Ok(Some(MAX))),
        (&[Some(MIN), Some(-1)], OVERFLOW),
        (&[Some(MIN), Some(-1), Some(1)], Ok(Some(MIN))),
    ];
    for (numbers, want) in &cases {
        check(&rt, FoldOp::Plus, numbers, *want);
    }
}

#[test]
fn products_are_exact(rt: HostRuntime) {
    let cases: [(&[Single], Want); 12] = [
        (&[], Ok(Some(1))),
        (&[Some(-3), None, Some(3)], Ok(Some(-9))),
        (&TWENTY, Ok(Some(2_432_902_008_176_640_000))),
        (&[Some(2_432_902_008_176_640_000), Some(21)], OVERFLOW),
        (
            &[Some(0), Some(2_432_902_008_176_640_000), Some(21)],
            Ok(Some(0)),
        ),
        (&[Some(MIN), Some(2), Some(0)], Ok(Some(0))),
        (
            &[Some(MAX), Some(MAX), Some(MAX), Some(MAX), Some(0)],
            Ok(Some(0)),
        ),
        (&[Some(MIN), Some(-1)], OVERFLOW),
        (&[Some(MIN), Some(-1), Some(-1)], Ok(Some(MIN))),
        (&[Some(4_611_686_018_427_387_904), Some(2)], OVERFLOW),
        (&[Some(4_611_686_018_427_387_904), Some(-2)], Ok(Some(MIN))),
        (&[Some(MIN), Some(2), Some(1)], OVERFLOW),
    ];
    for (numbers, want) in &cases {
        check(&rt, FoldOp::Times, numbers, *want);
    }
}

#[test]
fn least_greatest_and_truth_values(rt: HostRuntime) {
    let cases: [(FoldOp, &[Single], Single); 13] = [
        (FoldOp::Min, &[], None),
        (FoldOp::Min, &[None, None], None),
        (FoldOp::Min, &[Some(3), None, Some(-5), Some(4)], Some(-5)),
        (FoldOp::Min, &[Some(MAX), Some(MIN)], Some(MIN)),
        (FoldOp::Max, &[None], None),
        (FoldOp::Max, &[Some(-3), None, Some(-5), Some(-4)], Some(-3)),
        (FoldOp::Max, &[Some(MIN), Some(MAX)], Some(MAX)),
        (FoldOp::And, &[], Some(1)),
        (FoldOp::And, &[Some(1), None, Some(1)], Some(1)),
        (FoldOp::And, &[Some(1), Some(0), Some(1)], Some(0)),
        (FoldOp::Or, &[None], Some(0)),
        (FoldOp::Or, &[Some(0), Some(0)], Some(0)),
        (FoldOp::Or, &[Some(0), Some(1), Some(0)], Some(1)),
    ];
    for (op, numbers, want) in &cases {
        check(&rt, *op, numbers, Ok(*want));
    }
}

#[test]
fn the_fault_of_least_place_is_the_folds(rt: HostRuntime) {
    let mut first = summary_of(FoldOp::Plus, &[Some(MAX), Some(1)]);
    first.add_fault(5, CellFault::IndexOut);
    first.add_fault(3, CellFault::DivideByZero);
    first.add_fault(3, CellFault::CastRange);
    first.add_fault(4, CellFault::NullStore);
    assert_eq!(&rt; first.close(), Err(CellFault::DivideByZero));
    let mut second = Summary::empty(FoldOp::Plus);
    second.add_fault(3, CellFault::IndexOut);
    let merged = first.merge(second);
    assert_eq!(&rt; merged.close(), Err(CellFault::DivideByZero));
    let mut third = Summary::empty(FoldOp::Plus);
    third.add_fault(2, CellFault::CastRange);
    assert_eq!(&rt; merged.merge(third).close(), Err(CellFault::CastRange));
}

/// Each fold of a run.
fn check_run(rt: &impl Abort, run: &Run<'_>, times: u64, wants: &[Want; 6])
    requires length { HasLength run.now times }
    requires few { times ≤ 10000 }
{
    for (op, want) in OPERATIONS.iter().zip(wants) {
        let mut summary = Summary::empty(*op);
        summary.add_run(run, times);
        assert_eq!(rt; summary.close(), outcome_of(*want), "{op:?} of {run:?}");
    }
}

#[test]
fn runs_of_each_width(rt: HostRuntime) {
    let cases: [(Run<'_>, u64, [Single; 6]); 8] = [
        (
            Run::Uniform(-2),
            3,
            [Some(-6), Some(-8), Some(-2), Some(-2), Some(1), Some(1)],
        ),
        (
            Run::Uniform(5),
            0,
            [Some(0), Some(1), None, None, Some(1), Some(0)],
        ),
        (
            Run::U8(&[200, 0, 3]),
            3,
            [Some(203), Some(0), Some(0), Some(200), Some(0), Some(1)],
        ),
        (
            Run::I8(&[-128, 2]),
            2,
            [
                Some(-126),
                Some(-256),
                Some(-128),
                Some(2),
                Some(1),
                Some(1),
            ],
        ),
        (
            Run::U16(&[65_535, 3]),
            2,
            [
                Some(65_538),
                Some(196_605),
                Some(3),
                Some(65_535),
                Some(1),
                Some(1),
            ],
        ),
        (
            Run::I16(&[-32_768, -1]),
            2,
            [
                Some(-32_769),
                Some(32_768),
                Some(-32_768),
                Some(-1),
                Some(1),
                Some(1),
            ],
        ),
        (
            Run::U32(&[4_294_967_295, 2]),
            2,
            [
                Some(4_294_967_297),
                Some(8_589_934_590),
                Some(2),
                Some(4_294_967_295),
                Some(1),
                Some(1),
            ],
        ),
        (
            Run::I32(&[-2_147_483_648, 2]),
            2,
            [
                Some(-2_147_483_646),
                Some(-4_294_967_296),
                Some(-2_147_483_648),
                Some(2),
                Some(1),
                Some(1),
            ],
        ),
    ];
    for (run, times, wants) in &cases {
        check_run(&rt, run, *times, &wants.map(Ok));
    }
}

#[test]
fn long_runs_of_large_numbers(rt: HostRuntime) {
    let mut numbers = [MAX; 3000];
    for i in 0..1500 {
        numbers[2 * i] = MIN;
    }
    let wants = [
        Ok(Some(-1500)),
        OVERFLOW,
        Ok(Some(MIN)),
        Ok(Some(MAX)),
        Ok(Some(1)),
        Ok(Some(1)),
    ];
    check_run(&rt, &Run::Plain(&numbers), 3000, &wants);
    numbers[2999] = 0;
    let wants = [
        OVERFLOW,
        Ok(Some(0)),
        Ok(Some(MIN)),
        Ok(Some(MAX)),
        Ok(Some(0)),
        Ok(Some(1)),
    ];
    check_run(&rt, &Run::Plain(&numbers), 3000, &wants);
}
