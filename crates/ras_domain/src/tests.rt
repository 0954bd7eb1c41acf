//! Values worked out by hand, and that calls which need memory succeed.
use crate::{
    DomainFault, Interval, List, LockList, LockName, MAX_AXES, Mode, Name, Point, Region, Text,
};
use std::alloc::{AllocError, Global};
use std::cmp::Ordering;
use std::process::Abort;
use std::test::Fail;

/// The lower and the upper bound of each axis.
type Pairs<'a> = &'a [(i64, i64)];

fn intervals_of(alloc: Global, pairs: Pairs<'_>) -> Result<Vec<Interval>, AllocError> {
    pairs
        .iter()
        .map(|(lo, hi)| Interval { lo: *lo, hi: *hi })
        .collect(alloc)
}

fn region_of(alloc: Global, pairs: Pairs<'_>) -> Result<Region, Fail> {
    Ok(Region::new(intervals_of(alloc, pairs)?.as_slice())?)
}

fn point_of(rt: &impl Abort, coordinates: &[i64]) -> Point {
    let mut point = Point::new();
    assert!(rt; coordinates.len() <= MAX_AXES);
    for c in coordinates {
        assert!(rt; !point.is_full());
        point.push(*c);
    }
    point
}

#[test]
fn a_region_is_made_or_its_first_fault_named(rt: HostRuntime) -> Result<(), Fail> {
    let whole = (-2_147_483_648, 2_147_483_647);
    let cases: [(Pairs<'_>, Result<(), DomainFault>); 27] = [
        // The number of axes.
        (&[], Err(DomainFault::Empty)),
        (&[(0, 0)], Ok(())),
        (&[(0, 0); 6], Ok(())),
        (&[(0, 0); 7], Err(DomainFault::TooManyAxes)),
        // The bounds.
        (&[(-2_147_483_648, -2_147_483_648)], Ok(())),
        (
            &[(-2_147_483_649, -2_147_483_648)],
            Err(DomainFault::BoundOut),
        ),
        (&[(2_147_483_647, 2_147_483_647)], Ok(())),
        (
            &[(2_147_483_647, 2_147_483_648)],
            Err(DomainFault::BoundOut),
        ),
        (
            &[(2_147_483_648, 2_147_483_648)],
            Err(DomainFault::BoundOut),
        ),
        (&[(0, 0), (0, 2_147_483_648)], Err(DomainFault::BoundOut)),
        (&[(i64::MIN, i64::MAX)], Err(DomainFault::BoundOut)),
        // The order of the bounds.
        (&[(-1, -1)], Ok(())),
        (&[(-1, -2)], Err(DomainFault::Empty)),
        (&[(0, 0), (1, 0)], Err(DomainFault::Empty)),
        (&[(2_147_483_647, -2_147_483_648)], Err(DomainFault::Empty)),
        // The number of points: 2^24 is 16^6, 4096^2 and 16777216.
        (&[(1, 16_777_216)], Ok(())),
        (&[(0, 16_777_216)], Err(DomainFault::TooLarge)),
        (&[(-4096, -1), (0, 4095)], Ok(())),
        (&[(-4096, -1), (0, 4096)], Err(DomainFault::TooLarge)),
        (&[(0, 15); 6], Ok(())),
        (
            &[(0, 15), (0, 15), (0, 15), (0, 15), (0, 15), (0, 16)],
            Err(DomainFault::TooLarge),
        ),
        (&[whole], Err(DomainFault::TooLarge)),
        (&[whole; 6], Err(DomainFault::TooLarge)),
        // The first of two faults is the one that is named.
        (&[(0, 2_147_483_648); 7], Err(DomainFault::TooManyAxes)),
        (&[(1, 0); 7], Err(DomainFault::TooManyAxes)),
        (&[(1, 0), (0, 2_147_483_648)], Err(DomainFault::BoundOut)),
        (&[whole, whole, (1, 0)], Err(DomainFault::Empty)),
    ];
    for (pairs, want) in cases {
        let axes = intervals_of(rt.alloc(), pairs)?;
        let made = Region::new(axes.as_slice());
        if let Ok(region) = &made {
            assert_eq!(rt; region.axes(), axes.as_slice());
        }
        assert_eq!(rt; made.map(|_| ()), want, "at {pairs:?}");
    }
    Ok(())
}

#[test]
fn a_region_contains_the_points_within_its_bounds(rt: HostRuntime) -> Result<(), Fail> {
    let region = region_of(rt.alloc(), &[(-1, 0), (2, 4)])?;
    let cases: [(&[i64], bool); 12] = [
        (&[-1, 2], true),
        (&[-1, 4], true),
        (&[0, 2], true),
        (&[0, 4], true),
        (&[-2, 3], false),
        (&[1, 3], false),
        (&[0, 1], false),
        (&[0, 5], false),
        (&[], false),
        (&[0], false),
        (&[0, 3, 3], false),
        (&[i64::MIN, i64::MAX], false),
    ];
    for (coordinates, want) in cases {
        let point = point_of(&rt, coordinates);
        assert_eq!(rt; region.contains(&point), want, "at {coordinates:?}");
    }
    Ok(())
}

#[test]
fn the_last_axis_runs_fastest(rt: HostRuntime) -> Result<(), Fail> {
    let cases: [(Pairs<'_>, &[&[i64]]); 3] = [
        (
            &[(-1, 0), (2, 4)],
            &[&[-1, 2], &[-1, 3], &[-1, 4], &[0, 2], &[0, 3], &[0, 4]],
        ),
        (
            &[(-3, -2), (5, 5), (7, 8)],
            &[&[-3, 5, 7], &[-3, 5, 8], &[-2, 5, 7], &[-2, 5, 8]],
        ),
        (&[(9, 9)], &[&[9]]),
    ];
    for (pairs, points) in cases {
        let region = region_of(rt.alloc(), pairs)?;
        assert_eq!(rt; region.volume(), points.len() as u64, "in {pairs:?}");
        assert_eq!(rt;
            Some(region.first_point().as_slice()),
            points.first().copied()
        );
        for (i, coordinates) in points.iter().enumerate() {
            let place = i as u64;
            let point = point_of(&rt, coordinates);
            assert!(rt; region.contains(&point), "{coordinates:?}");
            assert!(rt; place < region.volume());
            assert_eq!(rt; region.row_place(&point), place, "of {coordinates:?}");
            assert_eq!(rt; region.point_at(place), point, "at {place}");
            let next = region.next_point(&point);
            let next = next.as_ref().map(|next| next.as_slice());
            assert_eq!(rt; next, points.get(i + 1).copied(), "after {coordinates:?}");
        }
    }
    Ok(())
}

#[test]
fn a_region_covers_those_that_lie_in_it(rt: HostRuntime) -> Result<(), Fail> {
    let cases: [(Pairs<'_>, Pairs<'_>, bool); 13] = [
        // Equal boxes, and nested ones.
        (&[(-2, 3)], &[(-2, 3)], true),
        (&[(-2, 3)], &[(-1, 2)], true),
        (&[(-2, 3)], &[(3, 3)], true),
        (&[(-1, 2)], &[(-2, 3)], false),
        (&[(-2, 3), (0, 9)], &[(-2, 3), (4, 9)], true),
        // One bound too far.
        (&[(-2, 3)], &[(-3, 3)], false),
        (&[(-2, 3)], &[(-2, 4)], false),
        (&[(-2, 3), (0, 9)], &[(-2, 3), (4, 10)], false),
        (&[(-2, 3), (0, 9)], &[(-3, 3), (4, 9)], false),
        // Disjoint boxes.
        (&[(-2, 3)], &[(4, 5)], false),
        // Other numbers of axes.
        (&[(-2, 3)], &[(-2, 3), (-2, 3)], false),
        (&[(-2, 3), (-2, 3)], &[(-2, 3)], false),
        (&[(0, 1); 6], &[(0, 0); 6], true),
    ];
    for (big, small, want) in cases {
        let region = region_of(rt.alloc(), big)?;
        let other = region_of(rt.alloc(), small)?;
        assert_eq!(rt; region.covers(&other), want, "{big:?}, {small:?}");
    }
    Ok(())
}

/// Two boxes with as many axes, and what comes of them.
type Two<'a, T> = (Pairs<'a>, Pairs<'a>, T);

#[test]
fn two_regions_meet_in_the_points_of_both(rt: HostRuntime) -> Result<(), Fail> {
    let cases: [Two<'_, Option<Pairs<'_>>>; 9] = [
        // Equal boxes, nested ones and ones that overlap.
        (&[(-2, 3)], &[(-2, 3)], Some(&[(-2, 3)])),
        (&[(-9, 9)], &[(-2, 3)], Some(&[(-2, 3)])),
        (&[(-9, 2)], &[(-2, 3)], Some(&[(-2, 2)])),
        (
            &[(-5, -1), (0, 9)],
            &[(-3, 4), (-7, 6)],
            Some(&[(-3, -1), (0, 6)]),
        ),
        // One common number on an axis.
        (&[(-5, -1)], &[(-1, 4)], Some(&[(-1, -1)])),
        // Touching boxes, and disjoint ones.
        (&[(-5, -1)], &[(0, 4)], None),
        (&[(-5, -1)], &[(7, 9)], None),
        (&[(-5, -1), (0, 9)], &[(-3, 4), (10, 12)], None),
        (&[(-5, -1), (0, 9)], &[(0, 4), (2, 3)], None),
    ];
    for (first, second, want) in cases {
        let a = region_of(rt.alloc(), first)?;
        let b = region_of(rt.alloc(), second)?;
        let want = match want {
            Some(pairs) => Some(region_of(rt.alloc(), pairs)?),
            None => None,
        };
        assert!(rt; a.axes().len() == b.axes().len());
        assert_eq!(rt; a.meet(&b), want, "{first:?}, {second:?}");
        assert_eq!(rt; b.meet(&a), want, "{second:?}, {first:?}");
    }
    Ok(())
}

#[test]
fn the_hull_is_the_least_region_round_two(rt: HostRuntime) -> Result<(), Fail> {
    let too_large = Err(DomainFault::TooLarge);
    let cases: [Two<'_, Result<Pairs<'_>, DomainFault>>; 8] = [
        // Equal boxes, nested ones, touching ones and disjoint ones.
        (&[(-2, 3)], &[(-2, 3)], Ok(&[(-2, 3)])),
        (&[(-9, 9)], &[(-2, 3)], Ok(&[(-9, 9)])),
        (&[(-5, -1)], &[(0, 4)], Ok(&[(-5, 4)])),
        (&[(-5, -3)], &[(7, 9)], Ok(&[(-5, 9)])),
        (
            &[(-5, -1), (0, 9)],
            &[(-3, 4), (-7, 6)],
            Ok(&[(-5, 4), (-7, 9)]),
        ),
        // 2^24 points, and one more.
        (
            &[(-1, -1)],
            &[(16_777_214, 16_777_214)],
            Ok(&[(-1, 16_777_214)]),
        ),
        (&[(-1, -1)], &[(16_777_215, 16_777_215)], too_large),
        (
            &[(-2_147_483_648, -2_147_483_648); 6],
            &[(2_147_483_647, 2_147_483_647); 6],
            too_large,
        ),
    ];
    for (first, second, want) in cases {
        let a = region_of(rt.alloc(), first)?;
        let b = region_of(rt.alloc(), second)?;
        let want = match want {
            Ok(pairs) => Ok(region_of(rt.alloc(), pairs)?),
            Err(fault) => Err(fault),
        };
        assert!(rt; a.axes().len() == b.axes().len());
        assert_eq!(rt; a.hull(&b), want, "{first:?}, {second:?}");
        assert_eq!(rt; b.hull(&a), want, "{second:?}, {first:?}");
    }
    Ok(())
}

#[test]
fn a_region_moves_up_to_the_bounds(rt: HostRuntime) -> Result<(), Fail> {
    let out = Err(DomainFault::BoundOut);
    let cases: [(Pairs<'_>, &[i64], Result<Pairs<'_>, DomainFault>); 11] = [
        (&[(-2, 3)], &[0], Ok(&[(-2, 3)])),
        (&[(-2, 3)], &[5], Ok(&[(3, 8)])),
        (&[(-2, 3), (4, 9)], &[-7, 1], Ok(&[(-9, -4), (5, 10)])),
        (
            &[(-2, 3)],
            &[2_147_483_644],
            Ok(&[(2_147_483_642, 2_147_483_647)]),
        ),
        (&[(-2, 3)], &[2_147_483_645], out),
        (
            &[(-2, 3)],
            &[-2_147_483_646],
            Ok(&[(-2_147_483_648, -2_147_483_643)]),
        ),
        (&[(-2, 3)], &[-2_147_483_647], out),
        (
            &[(2_147_483_647, 2_147_483_647)],
            &[-4_294_967_295],
            Ok(&[(-2_147_483_648, -2_147_483_648)]),
        ),
        (&[(-2, 3)], &[i64::MAX], out),
        (&[(-2, 3)], &[i64::MIN], out),
        (&[(0, 0), (2_147_483_647, 2_147_483_647)], &[0, 1], out),
    ];
    for (pairs, offsets, want) in cases {
        let region = region_of(rt.alloc(), pairs)?;
        let want = match want {
            Ok(pairs) => Ok(region_of(rt.alloc(), pairs)?),
            Err(fault) => Err(fault),
        };
        assert!(rt; offsets.len() == region.axes().len());
        assert_eq!(rt; region.shift_by(offsets), want, "{pairs:?}, {offsets:?}");
    }
    Ok(())
}

#[test]
fn an_axis_is_left_out(rt: HostRuntime) -> Result<(), Fail> {
    let cases: [(Pairs<'_>, usize, Option<Pairs<'_>>); 6] = [
        (&[(-2, 3), (4, 9), (7, 7)], 0, Some(&[(4, 9), (7, 7)])),
        (&[(-2, 3), (4, 9), (7, 7)], 1, Some(&[(-2, 3), (7, 7)])),
        (&[(-2, 3), (4, 9), (7, 7)], 2, Some(&[(-2, 3), (4, 9)])),
        (&[(-2, 3), (4, 9)], 0, Some(&[(4, 9)])),
        (&[(-2, 3), (4, 9)], 1, Some(&[(-2, 3)])),
        (&[(-2, 3)], 0, None),
    ];
    for (pairs, axis, want) in cases {
        let region = region_of(rt.alloc(), pairs)?;
        let want = match want {
            Some(pairs) => Some(region_of(rt.alloc(), pairs)?),
            None => None,
        };
        assert!(rt; axis < region.axes().len());
        assert_eq!(rt; region.cut_axis(axis), want, "{pairs:?} without {axis}");
    }
    Ok(())
}

#[test]
fn names_and_texts_have_the_bytes_they_are_given(rt: HostRuntime) -> Result<(), Fail> {
    let cases: [&[u8]; 3] = [b"", b"G", b"\x00\xff G"];
    for bytes in cases {
        let name = Name::of(rt.alloc(), bytes)?;
        let text = Text::of(rt.alloc(), bytes)?;
        let copy = name.try_clone(rt.alloc())?;
        assert_eq!(rt; name.bytes(), bytes);
        assert_eq!(rt; text.bytes(), bytes);
        assert_eq!(rt; copy.bytes(), bytes);
        assert_eq!(rt; copy, name);
    }
    Ok(())
}

#[test]
fn names_are_compared_byte_by_byte(rt: HostRuntime) -> Result<(), Fail> {
    let cases: [(&[u8], &[u8], Ordering); 6] = [
        (b"", b"G", Ordering::Less),
        (b"G", b"G", Ordering::Equal),
        (b"G", b"Ga", Ordering::Less),
        (b"Ga", b"H", Ordering::Less),
        (b"a", b"G", Ordering::Greater),
        (b"\x80", b"z", Ordering::Greater),
    ];
    for (left, right, want) in cases {
        let a = Name::of(rt.alloc(), left)?;
        let b = Name::of(rt.alloc(), right)?;
        assert_eq!(rt; a.cmp(&b), want, "{left:?}, {right:?}");
        assert_eq!(rt; a.partial_cmp(&b), Some(want), "{left:?}, {right:?}");
        assert_eq!(rt; b.cmp(&a), want.reverse(), "{right:?}, {left:?}");
        assert_eq!(rt; a == b, want == Ordering::Equal, "{left:?}, {right:?}");
    }
    Ok(())
}

#[test]
fn a_list_has_its_items_in_order(rt: HostRuntime) -> Result<(), Fail> {
    let mut list = List::new(rt.alloc());
    for item in [30u32, 10, 20] {
        assert_eq!(rt; list.push(rt.alloc(), item), Ok(()));
    }
    assert_eq!(rt; list.as_slice(), [30, 10, 20].as_slice());
    let items = list.into_vec();
    assert_eq!(rt; items.as_slice(), [30, 10, 20].as_slice());
    let again = List::of(items);
    assert_eq!(rt; again.as_slice(), [30, 10, 20].as_slice());
    Ok(())
}

/// A lock's kind, its name, its object identifier and its place.
type Parts<'a> = (&'a str, &'a [u8], u64, &'a [i64]);

fn parts_of(lock: &LockName) -> Parts<'_> {
    match lock {
        LockName::Collection(name) => ("collection", name.bytes(), 0, &[]),
        LockName::Domain(name, oid) => ("domain", name.bytes(), *oid, &[]),
        LockName::Tile(name, oid, place) => ("tile", name.bytes(), *oid, place.as_slice()),
    }
}

#[test]
fn locks_stand_in_order_and_so_do_those_of_a_copy(rt: HostRuntime) -> Result<(), Fail> {
    let want: [(Parts<'_>, Mode); 3] = [
        (("collection", b"G", 0, &[]), Mode::Shared),
        (("domain", b"Ga", 7, &[]), Mode::Exclusive),
        (("tile", b"H", u64::MAX, &[-1, 4]), Mode::Shared),
    ];
    let locks = [
        LockName::Collection(Name::of(rt.alloc(), b"G")?),
        LockName::Domain(Name::of(rt.alloc(), b"Ga")?, 7),
        LockName::Tile(
            Name::of(rt.alloc(), b"H")?,
            u64::MAX,
            point_of(&rt, &[-1, 4]),
        ),
    ];
    let mut list = LockList::new(rt.alloc());
    assert!(rt; list.is_empty());
    for (lock, (_, mode)) in locks.into_iter().zip(want) {
        assert!(rt; list.push(rt.alloc(), lock, mode).is_ok());
    }
    let copy = list.try_clone(rt.alloc())?;
    for list in [&list, &copy] {
        assert!(rt; !list.is_empty());
        assert_eq!(rt; list.len(), 3);
        for (i, (parts, mode)) in want.iter().enumerate() {
            assert!(rt; i < list.len());
            let (lock, held) = list.get(i);
            assert_eq!(rt; (parts_of(lock), held), (*parts, *mode), "at {i}");
        }
    }
    Ok(())
}

#[test]
fn long_lists_keep_their_items(rt: HostRuntime) -> Result<(), Fail> {
    let mut list = List::new(rt.alloc());
    for item in 0..5_000u32 {
        assert_eq!(rt; list.push(rt.alloc(), item), Ok(()));
    }
    assert!(rt; list.as_slice().iter().copied().eq(0..5_000));
    let mut locks = LockList::new(rt.alloc());
    for oid in 0..3_000u64 {
        let name = Name::of(rt.alloc(), b"G")?;
        assert!(rt;
            locks
                .push(rt.alloc(), LockName::Domain(name, oid), Mode::Shared)
                .is_ok()
        );
    }
    let copy = locks.try_clone(rt.alloc())?;
    assert_eq!(rt; copy.len(), 3_000);
    for place in 0..copy.len() {
        let (lock, mode) = copy.get(place);
        assert_eq!(rt;
            (parts_of(lock), mode),
            (
                ("domain", b"G".as_slice(), place as u64, [].as_slice()),
                Mode::Shared
            )
        );
    }
    Ok(())
}
