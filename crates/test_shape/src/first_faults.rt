//! Texts of selects with several shape faults, of which the first one is told. The places are worked out by hand from the
//! rules.
use crate::told::{COLOURS, LINE, Row, SQUARE, Shown, judge};
use ras_syntax::ShapeFault;

/// Of several faults of one box: a bound, then an empty axis, then a part outside, then the size. Of the parts of a
/// concat: extents, then a bound, then the size.
const OF_ONE_BOX: &[Row] = &[
    (
        "select a[2:1,0:2147483648] from G as a",
        &[SQUARE],
        Shown::Fault(7, 26, ShapeFault::BoundOut),
    ),
    (
        "select a[4,0:2147483648] from G as a",
        &[SQUARE],
        Shown::Fault(7, 24, ShapeFault::BoundOut),
    ),
    (
        "select a[9223372036854775807+1,2:1] from G as a",
        &[SQUARE],
        Shown::Fault(7, 35, ShapeFault::BoundOut),
    ),
    (
        "select a[0:4,9223372036854775807+1] from G as a",
        &[SQUARE],
        Shown::Fault(7, 35, ShapeFault::BoundOut),
    ),
    (
        "select a[2:1,0:9] from G as a",
        &[SQUARE],
        Shown::Fault(7, 17, ShapeFault::EmptyDomain),
    ),
    (
        "select a[0:9,2:1] from G as a",
        &[SQUARE],
        Shown::Fault(7, 17, ShapeFault::EmptyDomain),
    ),
    (
        "select a[4,2:1] from G as a",
        &[SQUARE],
        Shown::Fault(7, 15, ShapeFault::EmptyDomain),
    ),
    (
        "select a[2:1,4] from G as a",
        &[SQUARE],
        Shown::Fault(7, 15, ShapeFault::EmptyDomain),
    ),
    (
        "select a[9:8,0] from G as a",
        &[SQUARE],
        Shown::Fault(7, 15, ShapeFault::EmptyDomain),
    ),
    (
        "select marray x in [1:0,0:2147483648] values 0",
        &[],
        Shown::Fault(7, 46, ShapeFault::BoundOut),
    ),
    (
        "select marray x in [0:16777216,0:2147483648] values 0",
        &[],
        Shown::Fault(7, 53, ShapeFault::BoundOut),
    ),
    (
        "select marray x in [0:16777216,1:0] values 0",
        &[],
        Shown::Fault(7, 44, ShapeFault::EmptyDomain),
    ),
    (
        "select condense + over x in [1:0,0:2147483648] using 1",
        &[],
        Shown::Fault(7, 54, ShapeFault::BoundOut),
    ),
    (
        "select condense + over x in [0:16777216,1:0] using 1",
        &[],
        Shown::Fault(7, 52, ShapeFault::EmptyDomain),
    ),
    (
        "select extend(a,[2:1,0:2147483648]) from G as a",
        &[SQUARE],
        Shown::Fault(7, 35, ShapeFault::BoundOut),
    ),
    (
        "select extend(a,[1:1,0:2147483648]) from G as a",
        &[SQUARE],
        Shown::Fault(7, 35, ShapeFault::BoundOut),
    ),
    (
        "select extend(a,[2:1,0:1]) from G as a",
        &[SQUARE],
        Shown::Fault(7, 26, ShapeFault::EmptyDomain),
    ),
    (
        "select extend(a,[1:0,0:16777216]) from G as a",
        &[SQUARE],
        Shown::Fault(7, 33, ShapeFault::EmptyDomain),
    ),
    (
        "select extend(a,[1:4096,0:4096]) from G as a",
        &[SQUARE],
        Shown::Fault(7, 32, ShapeFault::Outside),
    ),
    (
        "select concat shift(a,[2147483644,0]) with a[0:3,0:2] along 0 from G as a",
        &[SQUARE],
        Shown::Fault(7, 61, ShapeFault::ExtentsDiffer),
    ),
    (
        "select concat marray x in [0:0,1:8388608] values 1 with marray x in [0:0,1:8388609] values 1 along 0",
        &[],
        Shown::Fault(7, 100, ShapeFault::ExtentsDiffer),
    ),
    (
        "select concat shift(marray x in [1:16777216] values 1,[2130706431]) with marray x in [1:1] values 1 along 0",
        &[],
        Shown::Fault(7, 107, ShapeFault::BoundOut),
    ),
];

/// The parts of a form are looked at before the whole, in the order of the text.
const OF_PARTS: &[Row] = &[
    (
        "select a[0:4,0:0] + a from G as a",
        &[SQUARE],
        Shown::Fault(7, 17, ShapeFault::Outside),
    ),
    (
        "select a + a[0:4,0:0] from G as a",
        &[SQUARE],
        Shown::Fault(11, 21, ShapeFault::Outside),
    ),
    (
        "select a[4,0] + a[2:1,0] from G as a",
        &[SQUARE],
        Shown::Fault(7, 13, ShapeFault::Outside),
    ),
    (
        "select a[2:1,0] + a[4,0] from G as a",
        &[SQUARE],
        Shown::Fault(7, 15, ShapeFault::EmptyDomain),
    ),
    (
        "select -a[4,0] from G as a",
        &[SQUARE],
        Shown::Fault(8, 14, ShapeFault::Outside),
    ),
    (
        "select (octet) a[4,0] from G as a",
        &[SQUARE],
        Shown::Fault(15, 21, ShapeFault::Outside),
    ),
    (
        "select c[2].red from R as c",
        &[COLOURS],
        Shown::Fault(7, 11, ShapeFault::Outside),
    ),
    (
        "select a[4:4,0:0] overlay a[2:1,0:0] from G as a",
        &[SQUARE],
        Shown::Fault(7, 17, ShapeFault::Outside),
    ),
    (
        "select a overlay a[2:1,0:0] from G as a",
        &[SQUARE],
        Shown::Fault(17, 27, ShapeFault::EmptyDomain),
    ),
    (
        "select a[0:1,2:1][9,9] from G as a",
        &[SQUARE],
        Shown::Fault(7, 17, ShapeFault::EmptyDomain),
    ),
    (
        "select a[0:4,0:0][a[2:1,0:0][0,0],0] from G as a",
        &[SQUARE],
        Shown::Fault(7, 17, ShapeFault::Outside),
    ),
    (
        "select a[a[9,9],4] from G as a",
        &[SQUARE],
        Shown::Fault(9, 15, ShapeFault::Outside),
    ),
    (
        "select a[9,a[2:1,0][1]] from G as a",
        &[SQUARE],
        Shown::Fault(11, 19, ShapeFault::EmptyDomain),
    ),
    (
        "select a[sdom(a[0:4,0:0])[0].lo:sdom(a[2:1,0:0])[0].hi,9] from G as a",
        &[SQUARE],
        Shown::Fault(14, 24, ShapeFault::Outside),
    ),
    (
        "select a[*:sdom(a[2:1,0:0])[0].hi,9] from G as a",
        &[SQUARE],
        Shown::Fault(16, 26, ShapeFault::EmptyDomain),
    ),
    (
        "select {1, a[4,0], a[2:1,0]} from G as a",
        &[SQUARE],
        Shown::Fault(11, 17, ShapeFault::Outside),
    ),
    (
        "select {a, a[0:4,0:3]} from G as a",
        &[SQUARE],
        Shown::Fault(11, 21, ShapeFault::Outside),
    ),
    (
        "select case when a[4,0] > 1 then a[2:1,0:0] else a end from G as a",
        &[SQUARE],
        Shown::Fault(17, 23, ShapeFault::Outside),
    ),
    (
        "select case when a > 1 then a[2:1,0:3] else a[4:4,0:3] end from G as a",
        &[SQUARE],
        Shown::Fault(28, 38, ShapeFault::EmptyDomain),
    ),
    (
        "select case when true then 1 when a[4,0] > 1 then 2 else a[2:1,0][1] end from G as a",
        &[SQUARE],
        Shown::Fault(34, 40, ShapeFault::Outside),
    ),
    (
        "select case when a > 1 then a[0:0,0:3] else a[4,0] end from G as a",
        &[SQUARE],
        Shown::Fault(44, 50, ShapeFault::Outside),
    ),
    (
        "select marray x in [0:sdom(a[4:4,0:0])[0].hi] values a[9,2:1][1] from G as a",
        &[SQUARE],
        Shown::Fault(27, 37, ShapeFault::Outside),
    ),
    (
        "select marray x in sdom(a[4:4,0:0]) values 1 from G as a",
        &[SQUARE],
        Shown::Fault(24, 34, ShapeFault::Outside),
    ),
    (
        "select marray x in [1:0] values a[4,0] from G as a",
        &[SQUARE],
        Shown::Fault(32, 38, ShapeFault::Outside),
    ),
    (
        "select marray x in [0:0,0:0] values a[0:4,0:0][x] from G as a",
        &[SQUARE],
        Shown::Fault(36, 46, ShapeFault::Outside),
    ),
    (
        "select condense + over x in sdom(a[2:1,0:0]) where a[4,0] > 1 using a[5,0] from G as a",
        &[SQUARE],
        Shown::Fault(33, 43, ShapeFault::EmptyDomain),
    ),
    (
        "select condense + over x in [1:0] where a[4,0] > 1 using a[5,0] from G as a",
        &[SQUARE],
        Shown::Fault(40, 46, ShapeFault::Outside),
    ),
    (
        "select condense + over x in [1:0] where true using a[5,0] from G as a",
        &[SQUARE],
        Shown::Fault(51, 57, ShapeFault::Outside),
    ),
    (
        "select add_cells(a[0:4,0:0]) from G as a",
        &[SQUARE],
        Shown::Fault(17, 27, ShapeFault::Outside),
    ),
    (
        "select count_cells(a = a[0:0,0:3]) from G as a",
        &[SQUARE],
        Shown::Fault(19, 33, ShapeFault::DomainsDiffer),
    ),
    (
        "select sdom(a[2:1,0:0]) from G as a",
        &[SQUARE],
        Shown::Fault(12, 22, ShapeFault::EmptyDomain),
    ),
    (
        "select sdom(a[0:4,0:0])[0].lo from G as a",
        &[SQUARE],
        Shown::Fault(12, 22, ShapeFault::Outside),
    ),
    (
        "select shift(a[4,0:3],[sdom(a[2:1,0:0])[0].lo]) from G as a",
        &[SQUARE],
        Shown::Fault(13, 21, ShapeFault::Outside),
    ),
    (
        "select shift(a,[sdom(a[2:1,0:0])[0].lo,9223372036854775807]) from G as a",
        &[SQUARE],
        Shown::Fault(21, 31, ShapeFault::EmptyDomain),
    ),
    (
        "select extend(a[0:4,0:0],[1:0,0:0]) from G as a",
        &[SQUARE],
        Shown::Fault(14, 24, ShapeFault::Outside),
    ),
    (
        "select extend(a,sdom(a[2:1,0:0])) from G as a",
        &[SQUARE],
        Shown::Fault(21, 31, ShapeFault::EmptyDomain),
    ),
    (
        "select extend(a,[sdom(a[0:4,0:0])[0].lo:-1,0:0]) from G as a",
        &[SQUARE],
        Shown::Fault(22, 32, ShapeFault::Outside),
    ),
    (
        "select concat a[4:4,0:0] with a[2:1,0:0] along 0 from G as a",
        &[SQUARE],
        Shown::Fault(14, 24, ShapeFault::Outside),
    ),
    (
        "select concat a with a[2:1,0:0] along 0 from G as a",
        &[SQUARE],
        Shown::Fault(21, 31, ShapeFault::EmptyDomain),
    ),
    (
        "select concat a with a[0:0,0:0] with a[4:4,0:0] along 0 from G as a",
        &[SQUARE],
        Shown::Fault(37, 47, ShapeFault::Outside),
    ),
    (
        "select add_cells(a) + b[4] from G as a, N as b",
        &[SQUARE, LINE],
        Shown::Fault(22, 26, ShapeFault::Outside),
    ),
];

#[test]
fn the_first_of_several_faults_is_told(rt: HostRuntime) {
    judge(&rt, OF_ONE_BOX);
    judge(&rt, OF_PARTS);
}
