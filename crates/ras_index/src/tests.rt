//! Tables worked out by hand, and that calls which need memory succeed.
ghost use Rattle.std.specs.Prelude.{◌≡◌};

use crate::TileIndex;
use crate::laws::{a_put_changes_one_place, a_removal_changes_one_place};
use ras_domain::{Interval, Point, Region};
use std::alloc::{AllocError, Global};
use std::test::Fail;

/// The coordinates of a place.
type Place = [i64; 2];

fn point_of(place: Place) -> Point
    ensures { result.items ≡ place }
{
    let mut point = Point::new();
    point.push(place[0]);
    point.push(place[1]);
    point
}

fn box_of(rows: (i64, i64), columns: (i64, i64)) -> Result<Region, Fail> {
    Ok(Region::new(&[
        Interval {
            lo: rows.0,
            hi: rows.1,
        },
        Interval {
            lo: columns.0,
            hi: columns.1,
        },
    ])?)
}

/// Makes one place ready and puts a value there.
fn set(
    alloc: Global,
    index: &mut TileIndex<u32>,
    place: Place,
    value: u32,
) -> Result<Option<u32>, AllocError> {
    index.reserve_for(alloc, &[point_of(place)])?;
    Ok(index.put(point_of(place), value))
}

/// The index of these values.
fn index_of(alloc: Global, values: &[(Place, u32)]) -> Result<TileIndex<u32>, AllocError> {
    let mut index = TileIndex::new(alloc);
    for (place, value) in values {
        set(alloc, &mut index, *place, *value)?;
    }
    Ok(index)
}

#[test]
fn a_value_stands_where_it_was_put(rt: HostRuntime) -> Result<(), Fail> {
    let mut index = TileIndex::new(rt.alloc());
    let puts = [
        ([0, 0], 1, None),
        ([-1, 2], 2, None),
        ([0, -1], 3, None),
        ([0, 0], 4, Some(1)),
    ];
    for (place, value, before) in puts {
        assert_eq!(rt;
            set(rt.alloc(), &mut index, place, value)?,
            before,
            "{place:?}"
        );
    }
    let there = [
        ([-1, 2], Some(2)),
        ([0, -1], Some(3)),
        ([0, 0], Some(4)),
        ([-1, 1], None),
        ([0, 1], None),
        ([2, -1], None),
    ];
    for (place, want) in there {
        assert_eq!(rt; index.get(&point_of(place)).copied(), want, "{place:?}");
    }
    let removals = [
        ([0, -1], Some(3)),
        ([0, -1], None),
        ([5, 5], None),
        ([-1, 2], Some(2)),
    ];
    for (place, want) in removals {
        assert_eq!(rt; index.remove(&point_of(place)), want, "{place:?}");
        assert_eq!(rt; index.get(&point_of(place)).copied(), None, "{place:?}");
    }
    assert_eq!(rt; index.get(&point_of([0, 0])).copied(), Some(4));
    assert_eq!(rt; set(rt.alloc(), &mut index, [0, -1], 5)?, None);
    Ok(())
}

#[test]
fn a_box_lists_the_places_with_values_in_row_major_order(rt: HostRuntime) -> Result<(), Fail> {
    let values = [
        ([1, -2], 1),
        ([-1, 0], 2),
        ([0, 3], 3),
        ([0, -3], 4),
        ([-1, -1], 5),
    ];
    let mut index = index_of(rt.alloc(), &values)?;
    index.reserve_for(rt.alloc(), &[point_of([0, 0]), point_of([-1, 0])])?;
    let cases: [((i64, i64), (i64, i64), &[Place]); 6] = [
        (
            (-1, 1),
            (-3, 3),
            &[[-1, -1], [-1, 0], [0, -3], [0, 3], [1, -2]],
        ),
        ((-1, 0), (-1, 3), &[[-1, -1], [-1, 0], [0, 3]]),
        ((0, 1), (-3, -2), &[[0, -3], [1, -2]]),
        ((0, 0), (0, 0), &[]),
        ((-9, -2), (-9, 9), &[]),
        ((2, 9), (-9, 9), &[]),
    ];
    for (rows, columns, want) in cases {
        let found = index.in_box(rt.alloc(), &box_of(rows, columns)?)?;
        assert_eq!(rt; found.len(), want.len(), "{rows:?}, {columns:?}");
        for (place, want) in found.iter().zip(want) {
            assert_eq!(rt; place.as_slice(), want.as_slice(), "{rows:?}, {columns:?}");
        }
    }
    Ok(())
}

#[test]
fn places_are_made_ready_and_a_copy_has_the_values(rt: HostRuntime) -> Result<(), Fail> {
    let mut index = index_of(rt.alloc(), &[([0, 0], 1), ([4, -4], 2)])?;
    let places = [
        point_of([2, 0]),
        point_of([0, 0]),
        point_of([-7, 1]),
        point_of([2, 0]),
        point_of([5, 0]),
    ];
    index.reserve_for(rt.alloc(), &places)?;
    index.reserve_for(rt.alloc(), &places)?;
    let copy = index.try_clone(rt.alloc())?;
    let want = [
        ([0, 0], Some(1)),
        ([4, -4], Some(2)),
        ([2, 0], None),
        ([-7, 1], None),
        ([5, 0], None),
    ];
    for (place, want) in want {
        assert_eq!(rt; index.get(&point_of(place)).copied(), want, "{place:?}");
        assert_eq!(rt; copy.get(&point_of(place)).copied(), want, "{place:?}");
    }
    assert_eq!(rt; index.put(point_of([2, 0]), 9), None);
    assert_eq!(rt; index.get(&point_of([2, 0])).copied(), Some(9));
    assert_eq!(rt; copy.get(&point_of([2, 0])).copied(), None);
    Ok(())
}

#[test]
fn the_laws_are_called() {
    a_put_changes_one_place::<u32>();
    a_removal_changes_one_place::<u32>();
}

#[test]
fn many_places_take_values(rt: HostRuntime) -> Result<(), Fail> {
    let mut places = Vec::new(rt.alloc());
    for row in 0..60i64 {
        for column in -49..1i64 {
            places.push(point_of([row, column]))?;
        }
    }
    let mut index = TileIndex::new(rt.alloc());
    index.reserve_for(rt.alloc(), places.as_slice())?;
    for value in 0..3_000u32 {
        let place = [59 - i64::from(value / 50), i64::from(value % 50) - 49];
        assert_eq!(rt; set(rt.alloc(), &mut index, place, value)?, None);
    }
    let copy = index.try_clone(rt.alloc())?;
    let cases: [(Place, u32); 4] = [
        ([59, -49], 0),
        ([59, 0], 49),
        ([0, -49], 2_950),
        ([0, 0], 2_999),
    ];
    for (place, want) in cases {
        assert_eq!(rt;
            copy.get(&point_of(place)).copied(),
            Some(want),
            "{place:?}"
        );
    }
    assert_eq!(rt;
        copy.in_box(rt.alloc(), &box_of((0, 59), (-49, 0))?)?.len(),
        3_000
    );
    Ok(())
}
