//! Texts of selects, and what their bodies stand for. The shapes are worked out by hand from the rules.
use crate::told::{COLOURS, LINE, LOWEST, MOVED, Row, SQUARE, Shown, WIDER, judge};

/// Numbers, iterators, operators, casts, composite cells, components and cases.
const OPERATORS: &[Row] = &[
    ("select 1", &[], Shown::Scalar),
    ("select true", &[], Shown::Scalar),
    ("select 1", &[SQUARE], Shown::Scalar),
    (
        "select a from G as a",
        &[SQUARE],
        Shown::Array(&[(0, 3), (0, 3)]),
    ),
    (
        "select a from G as a",
        &[MOVED],
        Shown::Array(&[(-2, 1), (3, 5)]),
    ),
    (
        "select a from G as a, N as b",
        &[SQUARE, LINE],
        Shown::Array(&[(0, 3), (0, 3)]),
    ),
    (
        "select b from G as a, N as b",
        &[SQUARE, LINE],
        Shown::Array(&[(0, 3)]),
    ),
    (
        "select -a from G as a",
        &[SQUARE],
        Shown::Array(&[(0, 3), (0, 3)]),
    ),
    (
        "select abs(a) from G as a",
        &[MOVED],
        Shown::Array(&[(-2, 1), (3, 5)]),
    ),
    (
        "select not (a > 1) from G as a",
        &[SQUARE],
        Shown::Array(&[(0, 3), (0, 3)]),
    ),
    ("select not true", &[], Shown::Scalar),
    (
        "select (octet) a from G as a",
        &[SQUARE],
        Shown::Array(&[(0, 3), (0, 3)]),
    ),
    ("select 1 + 2", &[], Shown::Scalar),
    (
        "select a + 1 from G as a",
        &[SQUARE],
        Shown::Array(&[(0, 3), (0, 3)]),
    ),
    (
        "select 1 + a from G as a",
        &[MOVED],
        Shown::Array(&[(-2, 1), (3, 5)]),
    ),
    (
        "select a * a - a from G as a",
        &[MOVED],
        Shown::Array(&[(-2, 1), (3, 5)]),
    ),
    (
        "select div(a, 2) from G as a",
        &[SQUARE],
        Shown::Array(&[(0, 3), (0, 3)]),
    ),
    (
        "select bit(a, 0) from G as a",
        &[SQUARE],
        Shown::Array(&[(0, 3), (0, 3)]),
    ),
    (
        "select a = b from G as a, G as b",
        &[MOVED, MOVED],
        Shown::Array(&[(-2, 1), (3, 5)]),
    ),
    (
        "select a[0:0,0:3] + b[0:0,0:3] from G as a, G as b",
        &[SQUARE, WIDER],
        Shown::Array(&[(0, 0), (0, 3)]),
    ),
    (
        "select shift(a[1:1,0:3],[-1,0]) overlay a[0:0,0:3] from G as a",
        &[SQUARE],
        Shown::Array(&[(0, 0), (0, 3)]),
    ),
    ("select {1, 2}", &[], Shown::Scalar),
    (
        "select {a[0:0,0:1], 5} from G as a",
        &[SQUARE],
        Shown::Array(&[(0, 0), (0, 1)]),
    ),
    (
        "select {5, a, a + 1} from G as a",
        &[MOVED],
        Shown::Array(&[(-2, 1), (3, 5)]),
    ),
    ("select {1, 2}.1", &[], Shown::Scalar),
    (
        "select c.green from R as c",
        &[COLOURS],
        Shown::Array(&[(0, 1)]),
    ),
    ("select c[0].2 from R as c", &[COLOURS], Shown::Scalar),
    (
        "select {a, true}.0 from G as a",
        &[SQUARE],
        Shown::Array(&[(0, 3), (0, 3)]),
    ),
    (
        "select case when true then 1 else 2 end",
        &[],
        Shown::Scalar,
    ),
    (
        "select case when a > 1 then 1 else 0 end from G as a",
        &[SQUARE],
        Shown::Array(&[(0, 3), (0, 3)]),
    ),
    (
        "select case when true then a[0:0,0:3] else 0 end from G as a",
        &[SQUARE],
        Shown::Array(&[(0, 0), (0, 3)]),
    ),
    (
        "select case when true then 1 when false then 2 else a end from G as a",
        &[MOVED],
        Shown::Array(&[(-2, 1), (3, 5)]),
    ),
    (
        "select case when true then c else {1c, 2c, 3c} end from R as c",
        &[COLOURS],
        Shown::Array(&[(0, 1)]),
    ),
];

/// Trims and positions.
const INDEXES: &[Row] = &[
    (
        "select a[1:2,0] from G as a",
        &[SQUARE],
        Shown::Array(&[(1, 2)]),
    ),
    (
        "select a[0,1:2] from G as a",
        &[SQUARE],
        Shown::Array(&[(1, 2)]),
    ),
    (
        "select a[1:2,0:0] from G as a",
        &[SQUARE],
        Shown::Array(&[(1, 2), (0, 0)]),
    ),
    (
        "select a[0:3,0:3] from G as a",
        &[SQUARE],
        Shown::Array(&[(0, 3), (0, 3)]),
    ),
    ("select a[2,3] from G as a", &[SQUARE], Shown::Scalar),
    ("select b[3] from N as b", &[LINE], Shown::Scalar),
    (
        "select a[*:1,2:*] from G as a",
        &[SQUARE],
        Shown::Array(&[(0, 1), (2, 3)]),
    ),
    (
        "select a[*:*,*:*] from G as a",
        &[MOVED],
        Shown::Array(&[(-2, 1), (3, 5)]),
    ),
    (
        "select a[*:-1,4:*] from G as a",
        &[MOVED],
        Shown::Array(&[(-2, -1), (4, 5)]),
    ),
    (
        "select a[-1,*:*] from G as a",
        &[MOVED],
        Shown::Array(&[(3, 5)]),
    ),
    (
        "select a[*:*,5] from G as a",
        &[MOVED],
        Shown::Array(&[(-2, 1)]),
    ),
    ("select a[-2,3] from G as a", &[MOVED], Shown::Scalar),
    (
        "select a[*:-2147483648,*:*] from G as a",
        &[LOWEST],
        Shown::Array(&[(-2_147_483_648, -2_147_483_648), (0, 0)]),
    ),
    ("select a[2,*:*][3] from G as a", &[SQUARE], Shown::Scalar),
    (
        "select a[1:2,1:2][*:*,2] from G as a",
        &[SQUARE],
        Shown::Array(&[(1, 2)]),
    ),
    (
        "select a[(1+1):3*1,4-3:-(-2)] from G as a",
        &[SQUARE],
        Shown::Array(&[(2, 3), (1, 2)]),
    ),
    (
        "select a[sdom(a)[0].lo+1:sdom(a)[0].hi,sdom(a)[1].hi] from G as a",
        &[MOVED],
        Shown::Array(&[(-1, 1)]),
    ),
    (
        "select a[sdom(b)[0].hi,0:sdom(b)[0].hi] from G as a, N as b",
        &[SQUARE, LINE],
        Shown::Array(&[(0, 3)]),
    ),
    // A position that isn't static is looked at with each cell.
    (
        "select a[a[0,0],0:1] from G as a",
        &[SQUARE],
        Shown::Array(&[(0, 1)]),
    ),
    ("select a[4c,0] from G as a", &[SQUARE], Shown::Scalar),
    (
        "select a[abs(9),1:2] from G as a",
        &[SQUARE],
        Shown::Array(&[(1, 2)]),
    ),
];

/// Arrays that are made, moved, grown and joined.
const MADE: &[Row] = &[
    (
        "select marray x in [0:3] values x[0]",
        &[],
        Shown::Array(&[(0, 3)]),
    ),
    (
        "select marray x in [-2:-1,5:5] values 1",
        &[],
        Shown::Array(&[(-2, -1), (5, 5)]),
    ),
    (
        "select marray x in [1+1:2*3] values {x[0], 10}",
        &[],
        Shown::Array(&[(2, 6)]),
    ),
    (
        "select marray x in [0:0,0:1,0:2,0:3,0:4,-5:5] values 1",
        &[],
        Shown::Array(&[(0, 0), (0, 1), (0, 2), (0, 3), (0, 4), (-5, 5)]),
    ),
    (
        "select marray x in [-2147483648:-2147483648,2147483647:2147483647] values 1",
        &[],
        Shown::Array(&[
            (-2_147_483_648, -2_147_483_648),
            (2_147_483_647, 2_147_483_647),
        ]),
    ),
    (
        "select marray x in sdom(a) values a[x] from G as a",
        &[MOVED],
        Shown::Array(&[(-2, 1), (3, 5)]),
    ),
    (
        "select marray x in sdom(a[1:2,0]) values x[0] from G as a",
        &[SQUARE],
        Shown::Array(&[(1, 2)]),
    ),
    (
        "select marray x in [sdom(a)[0].lo:sdom(a)[1].hi] values 1 from G as a",
        &[MOVED],
        Shown::Array(&[(-2, 5)]),
    ),
    // Where a cell lies outside, the array's shape stands.
    (
        "select marray x in [0:4,0:4] values a[x] from G as a",
        &[SQUARE],
        Shown::Array(&[(0, 4), (0, 4)]),
    ),
    (
        "select marray x in [0:4] values a[x[0],x[0]] from G as a",
        &[SQUARE],
        Shown::Array(&[(0, 4)]),
    ),
    (
        "select shift(a[1:1,0:3],[-1,0]) from G as a",
        &[SQUARE],
        Shown::Array(&[(0, 0), (0, 3)]),
    ),
    (
        "select shift(a,[2,-3]) from G as a",
        &[MOVED],
        Shown::Array(&[(0, 3), (0, 2)]),
    ),
    (
        "select shift(a,[sdom(a)[0].lo,1+1]) from G as a",
        &[MOVED],
        Shown::Array(&[(-4, -1), (5, 7)]),
    ),
    (
        "select shift(a,[2147483644,-2147483648]) from G as a",
        &[SQUARE],
        Shown::Array(&[
            (2_147_483_644, 2_147_483_647),
            (-2_147_483_648, -2_147_483_645),
        ]),
    ),
    (
        "select shift(a,[4294967294,0]) from G as a",
        &[LOWEST],
        Shown::Array(&[(2_147_483_646, 2_147_483_647), (0, 0)]),
    ),
    (
        "select extend(a[1:1,1:1],[0:1,0:1]) from G as a",
        &[SQUARE],
        Shown::Array(&[(0, 1), (0, 1)]),
    ),
    (
        "select extend(a,[-2:1,3:5]) from G as a",
        &[MOVED],
        Shown::Array(&[(-2, 1), (3, 5)]),
    ),
    (
        "select extend(a,[-9:1,3:10]) from G as a",
        &[MOVED],
        Shown::Array(&[(-9, 1), (3, 10)]),
    ),
    (
        "select extend(a[0:1,0:0],sdom(a)) from G as a",
        &[SQUARE],
        Shown::Array(&[(0, 3), (0, 3)]),
    ),
    (
        "select concat a[0:0,0:3] with a[3:3,0:3] along 0 from G as a",
        &[SQUARE],
        Shown::Array(&[(0, 1), (0, 3)]),
    ),
    (
        "select concat a[0:1,0:0] with a[2:3,3:3] along 1 from G as a",
        &[SQUARE],
        Shown::Array(&[(0, 1), (0, 1)]),
    ),
    (
        "select concat a[1:1,0:3] with a[0:0,0:3] with a[2:3,0:3] along 0 from G as a",
        &[SQUARE],
        Shown::Array(&[(1, 4), (0, 3)]),
    ),
    (
        "select concat a[0:0,0:3] with a[3:3,0:2] along 1 from G as a",
        &[SQUARE],
        Shown::Array(&[(0, 0), (0, 6)]),
    ),
    (
        "select concat a with a along 1 from G as a",
        &[MOVED],
        Shown::Array(&[(-2, 1), (3, 8)]),
    ),
    (
        "select concat b[2:3] with b along 0 from N as b",
        &[LINE],
        Shown::Array(&[(2, 7)]),
    ),
    (
        "select concat shift(a,[2147483644,0]) with a along 1 from G as a",
        &[SQUARE],
        Shown::Array(&[(2_147_483_644, 2_147_483_647), (0, 7)]),
    ),
];

/// What has one cell, and domains.
const CELLS: &[Row] = &[
    (
        "select condense + over x in [0:3] using x[0]",
        &[],
        Shown::Scalar,
    ),
    (
        "select condense max over x in sdom(a) where a[x] > 1 using a[x] from G as a",
        &[SQUARE],
        Shown::Scalar,
    ),
    ("select add_cells(a) from G as a", &[SQUARE], Shown::Scalar),
    (
        "select add_cells(a[0:1,2]) from G as a",
        &[SQUARE],
        Shown::Scalar,
    ),
    (
        "select count_cells(a > 1) from G as a",
        &[MOVED],
        Shown::Scalar,
    ),
    (
        "select some_cells(a > 1) from G as a",
        &[SQUARE],
        Shown::Scalar,
    ),
    ("select oid(a) from G as a", &[SQUARE], Shown::Scalar),
    ("select sdom(a)[1].hi from G as a", &[SQUARE], Shown::Scalar),
    (
        "select sdom(a) from G as a",
        &[SQUARE],
        Shown::Domain(&[(0, 3), (0, 3)]),
    ),
    (
        "select sdom(a) from G as a",
        &[MOVED],
        Shown::Domain(&[(-2, 1), (3, 5)]),
    ),
    (
        "select sdom(b) from G as a, N as b",
        &[SQUARE, LINE],
        Shown::Domain(&[(0, 3)]),
    ),
    (
        "select sdom(a[1:2,0]) from G as a",
        &[SQUARE],
        Shown::Domain(&[(1, 2)]),
    ),
    (
        "select sdom(shift(a,[1,-1])) from G as a",
        &[SQUARE],
        Shown::Domain(&[(1, 4), (-1, 2)]),
    ),
];

/// No more points and no more stored numbers than there may be.
const LARGEST: &[Row] = &[
    (
        "select marray x in [0:16777215] values 1",
        &[],
        Shown::Array(&[(0, 16_777_215)]),
    ),
    (
        "select marray x in [0:4095,1:4096] values 1",
        &[],
        Shown::Array(&[(0, 4095), (1, 4096)]),
    ),
    (
        "select marray x in [0:8388607] values {1, 2}",
        &[],
        Shown::Array(&[(0, 8_388_607)]),
    ),
    (
        "select marray x in [0:5592404] values {1, 2, 3}",
        &[],
        Shown::Array(&[(0, 5_592_404)]),
    ),
    (
        "select {marray x in [1:8388608] values 1, 2}",
        &[],
        Shown::Array(&[(1, 8_388_608)]),
    ),
    (
        "select case when marray x in [1:8388608] values true then {1, 2} else {3, 4} end",
        &[],
        Shown::Array(&[(1, 8_388_608)]),
    ),
    (
        "select condense + over x in [1:16777216] using 1",
        &[],
        Shown::Scalar,
    ),
    (
        "select extend(a,[0:4095,0:4095]) from G as a",
        &[SQUARE],
        Shown::Array(&[(0, 4095), (0, 4095)]),
    ),
    (
        "select extend(c,[0:5592404]) from R as c",
        &[COLOURS],
        Shown::Array(&[(0, 5_592_404)]),
    ),
    (
        "select concat marray x in [1:8388608] values 1 with marray x in [1:8388608] values 1 along 0",
        &[],
        Shown::Array(&[(1, 16_777_216)]),
    ),
    (
        "select concat marray x in [1:4194304] values {1, 2} with marray x in [1:4194304] values {1, 2} along 0",
        &[],
        Shown::Array(&[(1, 8_388_608)]),
    ),
];

#[test]
fn each_form_stands_for_its_shape(rt: HostRuntime) {
    judge(&rt, OPERATORS);
    judge(&rt, INDEXES);
    judge(&rt, MADE);
    judge(&rt, CELLS);
}

#[test]
fn the_largest_arrays_stand(rt: HostRuntime) {
    judge(&rt, LARGEST);
}
