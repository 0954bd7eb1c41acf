//! Texts of selects with the first shape fault of their bodies and its place. The places are worked out by hand from the
//! rules.
use crate::told::{COLOURS, LATER, LINE, LOWEST, MOVED, Row, SQUARE, Shown, WIDER, judge};
use ras_syntax::ShapeFault;

/// A part outside the domain that it is taken from, and a domain that doesn't have the array's own.
const OUTSIDE: &[Row] = &[
    (
        "select a[0:4,0:0] from G as a",
        &[SQUARE],
        Shown::Fault(7, 17, ShapeFault::Outside),
    ),
    (
        "select a[-1:0,0:0] from G as a",
        &[SQUARE],
        Shown::Fault(7, 18, ShapeFault::Outside),
    ),
    (
        "select a[0:0,0:4] from G as a",
        &[SQUARE],
        Shown::Fault(7, 17, ShapeFault::Outside),
    ),
    (
        "select a[0:3,0:3] from G as a",
        &[LATER],
        Shown::Fault(7, 17, ShapeFault::Outside),
    ),
    (
        "select a[0:1,2:5] from G as a",
        &[MOVED],
        Shown::Fault(7, 17, ShapeFault::Outside),
    ),
    (
        "select a[-3:*,3:4] from G as a",
        &[MOVED],
        Shown::Fault(7, 18, ShapeFault::Outside),
    ),
    (
        "select a[*:4,0] from G as a",
        &[SQUARE],
        Shown::Fault(7, 15, ShapeFault::Outside),
    ),
    (
        "select a[4,0] from G as a",
        &[SQUARE],
        Shown::Fault(7, 13, ShapeFault::Outside),
    ),
    (
        "select a[0,-1] from G as a",
        &[SQUARE],
        Shown::Fault(7, 14, ShapeFault::Outside),
    ),
    (
        "select a[0:3,4] from G as a",
        &[SQUARE],
        Shown::Fault(7, 15, ShapeFault::Outside),
    ),
    (
        "select a[0,0] from G as a",
        &[MOVED],
        Shown::Fault(7, 13, ShapeFault::Outside),
    ),
    (
        "select a[2*2,0] from G as a",
        &[SQUARE],
        Shown::Fault(7, 15, ShapeFault::Outside),
    ),
    (
        "select a[sdom(a)[0].hi+1,0] from G as a",
        &[SQUARE],
        Shown::Fault(7, 27, ShapeFault::Outside),
    ),
    (
        "select a[4,a[0,0]] from G as a",
        &[SQUARE],
        Shown::Fault(7, 18, ShapeFault::Outside),
    ),
    // A position that leaves 32 bits has a value all the same.
    (
        "select a[4294967296,0] from G as a",
        &[SQUARE],
        Shown::Fault(7, 22, ShapeFault::Outside),
    ),
    (
        "select a[-9223372036854775807-1,0] from G as a",
        &[SQUARE],
        Shown::Fault(7, 34, ShapeFault::Outside),
    ),
    (
        "select a[0:1,0:1][2,0] from G as a",
        &[SQUARE],
        Shown::Fault(7, 22, ShapeFault::Outside),
    ),
    (
        "select a[1:1,1:1][0,1] from G as a",
        &[SQUARE],
        Shown::Fault(7, 22, ShapeFault::Outside),
    ),
    (
        "select a[1:2,0][0:1] from G as a",
        &[SQUARE],
        Shown::Fault(7, 20, ShapeFault::Outside),
    ),
    (
        "select b[4] from G as a, N as b",
        &[SQUARE, LINE],
        Shown::Fault(7, 11, ShapeFault::Outside),
    ),
    (
        "select a[1:2, 0] from G as a",
        &[LATER],
        Shown::Fault(7, 16, ShapeFault::Outside),
    ),
    (
        "select extend(a,[0:2,0:9]) from G as a",
        &[SQUARE],
        Shown::Fault(7, 26, ShapeFault::Outside),
    ),
    (
        "select extend(a,[-9:9,1:9]) from G as a",
        &[SQUARE],
        Shown::Fault(7, 27, ShapeFault::Outside),
    ),
    (
        "select extend(a,sdom(a[0:2,0:3])) from G as a",
        &[SQUARE],
        Shown::Fault(7, 33, ShapeFault::Outside),
    ),
    (
        "select extend(a,[4:9,4:9]) from G as a",
        &[SQUARE],
        Shown::Fault(7, 26, ShapeFault::Outside),
    ),
];

/// Arrays of one operation on different domains.
const DIFFERENT: &[Row] = &[
    (
        "select a + a[0:0,0:3] from G as a",
        &[SQUARE],
        Shown::Fault(7, 21, ShapeFault::DomainsDiffer),
    ),
    (
        "select a[0:0,0:3] - a[1:1,0:3] from G as a",
        &[SQUARE],
        Shown::Fault(7, 30, ShapeFault::DomainsDiffer),
    ),
    (
        "select a = b from G as a, G as b",
        &[SQUARE, MOVED],
        Shown::Fault(7, 12, ShapeFault::DomainsDiffer),
    ),
    (
        "select a * b from G as a, G as b",
        &[SQUARE, WIDER],
        Shown::Fault(7, 12, ShapeFault::DomainsDiffer),
    ),
    (
        "select bit(a, a[0:0,0:3]) from G as a",
        &[SQUARE],
        Shown::Fault(7, 25, ShapeFault::DomainsDiffer),
    ),
    (
        "select (a > 1) and (a[0:0,0:3] > 1) from G as a",
        &[SQUARE],
        Shown::Fault(7, 35, ShapeFault::DomainsDiffer),
    ),
    (
        "select a + 1 + a[0:0,0:3] from G as a",
        &[SQUARE],
        Shown::Fault(7, 25, ShapeFault::DomainsDiffer),
    ),
    (
        "select 1 + (a - a[0:0,0:3]) from G as a",
        &[SQUARE],
        Shown::Fault(12, 26, ShapeFault::DomainsDiffer),
    ),
    (
        "select a overlay a[0:0,0:3] from G as a",
        &[SQUARE],
        Shown::Fault(7, 27, ShapeFault::DomainsDiffer),
    ),
    (
        "select c overlay c[0:0] from R as c",
        &[COLOURS],
        Shown::Fault(7, 23, ShapeFault::DomainsDiffer),
    ),
    (
        "select {a, a[0:0,0:3]} from G as a",
        &[SQUARE],
        Shown::Fault(7, 22, ShapeFault::DomainsDiffer),
    ),
    (
        "select {1, a, 2, b} from G as a, G as b",
        &[SQUARE, WIDER],
        Shown::Fault(7, 19, ShapeFault::DomainsDiffer),
    ),
    (
        "select case when a > 1 then a[0:0,0:3] else 0c end from G as a",
        &[SQUARE],
        Shown::Fault(7, 50, ShapeFault::DomainsDiffer),
    ),
    (
        "select case when true then a else a[0:0,0:3] end from G as a",
        &[SQUARE],
        Shown::Fault(7, 48, ShapeFault::DomainsDiffer),
    ),
    (
        "select case when a > 1 then 1 when a[0:0,0:3] > 1 then 2 else 3 end from G as a",
        &[SQUARE],
        Shown::Fault(7, 67, ShapeFault::DomainsDiffer),
    ),
    (
        "select case when a > 1 then 1 when true then 2 else a[0:0,0:3] end from G as a",
        &[SQUARE],
        Shown::Fault(7, 66, ShapeFault::DomainsDiffer),
    ),
];

/// Parts of a concat with different extents on another axis.
const EXTENTS: &[Row] = &[
    (
        "select concat a[0:0,0:3] with a[0:1,0:2] along 0 from G as a",
        &[SQUARE],
        Shown::Fault(7, 48, ShapeFault::ExtentsDiffer),
    ),
    (
        "select concat a[0:0,0:3] with a[0:1,0:2] along 1 from G as a",
        &[SQUARE],
        Shown::Fault(7, 48, ShapeFault::ExtentsDiffer),
    ),
    (
        "select concat a with a[0:3,1:3] along 0 from G as a",
        &[SQUARE],
        Shown::Fault(7, 39, ShapeFault::ExtentsDiffer),
    ),
    (
        "select concat a with a with a[0:2,0:3] along 1 from G as a",
        &[SQUARE],
        Shown::Fault(7, 46, ShapeFault::ExtentsDiffer),
    ),
    (
        "select concat a with b along 0 from G as a, G as b",
        &[SQUARE, MOVED],
        Shown::Fault(7, 30, ShapeFault::ExtentsDiffer),
    ),
];

/// A lower bound above the upper one.
const EMPTY: &[Row] = &[
    (
        "select a[2:1,0:3] from G as a",
        &[SQUARE],
        Shown::Fault(7, 17, ShapeFault::EmptyDomain),
    ),
    (
        "select a[0:3,3:0] from G as a",
        &[SQUARE],
        Shown::Fault(7, 17, ShapeFault::EmptyDomain),
    ),
    (
        "select a[0,3:2] from G as a",
        &[SQUARE],
        Shown::Fault(7, 15, ShapeFault::EmptyDomain),
    ),
    (
        "select a[4:*,0] from G as a",
        &[SQUARE],
        Shown::Fault(7, 15, ShapeFault::EmptyDomain),
    ),
    (
        "select a[*:-3,3] from G as a",
        &[MOVED],
        Shown::Fault(7, 16, ShapeFault::EmptyDomain),
    ),
    (
        "select a[sdom(a)[0].hi:sdom(a)[0].lo,3] from G as a",
        &[MOVED],
        Shown::Fault(7, 39, ShapeFault::EmptyDomain),
    ),
    (
        "select marray x in [1:0] values 0",
        &[],
        Shown::Fault(7, 33, ShapeFault::EmptyDomain),
    ),
    (
        "select marray x in [0:1,-1:-2] values 0",
        &[],
        Shown::Fault(7, 39, ShapeFault::EmptyDomain),
    ),
    (
        "select condense + over x in [3:2] using 1",
        &[],
        Shown::Fault(7, 41, ShapeFault::EmptyDomain),
    ),
    (
        "select extend(a,[0:3,1:0]) from G as a",
        &[SQUARE],
        Shown::Fault(7, 26, ShapeFault::EmptyDomain),
    ),
];

/// A bound that leaves 32 bits, and a static computation that leaves 64.
const BOUNDS: &[Row] = &[
    (
        "select a[0:2147483648,0:0] from G as a",
        &[SQUARE],
        Shown::Fault(7, 26, ShapeFault::BoundOut),
    ),
    (
        "select a[-2147483649:0,0:0] from G as a",
        &[SQUARE],
        Shown::Fault(7, 27, ShapeFault::BoundOut),
    ),
    (
        "select a[0,*:4294967296] from G as a",
        &[SQUARE],
        Shown::Fault(7, 24, ShapeFault::BoundOut),
    ),
    (
        "select a[-9223372036854775807-1:0,0:0] from G as a",
        &[SQUARE],
        Shown::Fault(7, 38, ShapeFault::BoundOut),
    ),
    (
        "select a[9223372036854775807+1,0] from G as a",
        &[SQUARE],
        Shown::Fault(7, 33, ShapeFault::BoundOut),
    ),
    (
        "select a[9223372036854775807+1-1,0] from G as a",
        &[SQUARE],
        Shown::Fault(7, 35, ShapeFault::BoundOut),
    ),
    (
        "select a[0,-9223372036854775807-2] from G as a",
        &[SQUARE],
        Shown::Fault(7, 34, ShapeFault::BoundOut),
    ),
    (
        "select a[-(-9223372036854775807-1),0] from G as a",
        &[SQUARE],
        Shown::Fault(7, 37, ShapeFault::BoundOut),
    ),
    (
        "select a[0:4294967296*4294967296,0] from G as a",
        &[SQUARE],
        Shown::Fault(7, 35, ShapeFault::BoundOut),
    ),
    (
        "select a[sdom(a)[0].hi+9223372036854775807:3,0] from G as a",
        &[SQUARE],
        Shown::Fault(7, 47, ShapeFault::BoundOut),
    ),
    (
        "select marray x in [0:2147483648] values 0",
        &[],
        Shown::Fault(7, 42, ShapeFault::BoundOut),
    ),
    (
        "select marray x in [-2147483649:-2147483649] values 0",
        &[],
        Shown::Fault(7, 53, ShapeFault::BoundOut),
    ),
    (
        "select marray x in [0:0,0:9223372036854775807*2] values 0",
        &[],
        Shown::Fault(7, 57, ShapeFault::BoundOut),
    ),
    (
        "select condense + over x in [0:2147483648] using 1",
        &[],
        Shown::Fault(7, 50, ShapeFault::BoundOut),
    ),
    (
        "select condense max over x in [9223372036854775807+1:0] using 1",
        &[],
        Shown::Fault(7, 63, ShapeFault::BoundOut),
    ),
    (
        "select extend(a,[0:2147483648,0:3]) from G as a",
        &[SQUARE],
        Shown::Fault(7, 35, ShapeFault::BoundOut),
    ),
    (
        "select extend(a,[0:3,-(-9223372036854775807-1):3]) from G as a",
        &[SQUARE],
        Shown::Fault(7, 50, ShapeFault::BoundOut),
    ),
    (
        "select shift(a,[2147483645,0]) from G as a",
        &[SQUARE],
        Shown::Fault(7, 30, ShapeFault::BoundOut),
    ),
    (
        "select shift(a,[0,-2147483649]) from G as a",
        &[SQUARE],
        Shown::Fault(7, 31, ShapeFault::BoundOut),
    ),
    (
        "select shift(a,[-2147483647,0]) from G as a",
        &[MOVED],
        Shown::Fault(7, 31, ShapeFault::BoundOut),
    ),
    (
        "select shift(a,[4294967295,0]) from G as a",
        &[LOWEST],
        Shown::Fault(7, 30, ShapeFault::BoundOut),
    ),
    (
        "select shift(a,[9223372036854775807+1,0]) from G as a",
        &[SQUARE],
        Shown::Fault(7, 41, ShapeFault::BoundOut),
    ),
    (
        "select shift(a,[0,9223372036854775807]) from G as a",
        &[SQUARE],
        Shown::Fault(7, 39, ShapeFault::BoundOut),
    ),
    (
        "select concat shift(a,[2147483644,0]) with a along 0 from G as a",
        &[SQUARE],
        Shown::Fault(7, 52, ShapeFault::BoundOut),
    ),
    (
        "select concat shift(a,[0,2147483640]) with a with a along 1 from G as a",
        &[SQUARE],
        Shown::Fault(7, 59, ShapeFault::BoundOut),
    ),
];

/// One point or one stored number more than there may be.
const TOO_LARGE: &[Row] = &[
    (
        "select marray x in [0:16777216] values 0",
        &[],
        Shown::Fault(7, 40, ShapeFault::ArrayTooLarge),
    ),
    (
        "select marray x in [0:4095,0:4096] values 0",
        &[],
        Shown::Fault(7, 43, ShapeFault::ArrayTooLarge),
    ),
    (
        "select marray x in [-2147483648:2147483647,-2147483648:2147483647] values 0",
        &[],
        Shown::Fault(7, 75, ShapeFault::ArrayTooLarge),
    ),
    (
        "select marray x in [0:8388608] values {1, 2}",
        &[],
        Shown::Fault(7, 44, ShapeFault::ArrayTooLarge),
    ),
    (
        "select marray x in [1:5592406] values {1, 2, 3}",
        &[],
        Shown::Fault(7, 47, ShapeFault::ArrayTooLarge),
    ),
    (
        "select condense + over x in [1:16777217] using 1",
        &[],
        Shown::Fault(7, 48, ShapeFault::ArrayTooLarge),
    ),
    (
        "select {marray x in [1:8388609] values 1, 2}",
        &[],
        Shown::Fault(7, 44, ShapeFault::ArrayTooLarge),
    ),
    (
        "select case when marray x in [1:8388609] values true then {1, 2} else {3, 4} end",
        &[],
        Shown::Fault(7, 80, ShapeFault::ArrayTooLarge),
    ),
    (
        "select extend(a,[0:4095,0:4096]) from G as a",
        &[SQUARE],
        Shown::Fault(7, 32, ShapeFault::ArrayTooLarge),
    ),
    (
        "select extend(c,[0:5592405]) from R as c",
        &[COLOURS],
        Shown::Fault(7, 28, ShapeFault::ArrayTooLarge),
    ),
    (
        "select concat marray x in [1:8388608] values 1 with marray x in [1:8388609] values 1 along 0",
        &[],
        Shown::Fault(7, 92, ShapeFault::ArrayTooLarge),
    ),
    (
        "select concat marray x in [1:4194304] values {1, 2} with marray x in [1:4194305] values {1, 2} along 0",
        &[],
        Shown::Fault(7, 102, ShapeFault::ArrayTooLarge),
    ),
];

#[test]
fn each_form_has_its_faults(rt: HostRuntime) {
    judge(&rt, OUTSIDE);
    judge(&rt, DIFFERENT);
    judge(&rt, EXTENTS);
    judge(&rt, EMPTY);
    judge(&rt, BOUNDS);
    judge(&rt, TOO_LARGE);
}
