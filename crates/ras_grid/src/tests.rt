//! Values worked out by hand, and that the call which needs memory succeeds.
ghost use Rattle.std.specs.Prelude.{◌≡◌};
ghost use Rattle.ras_grid.specs.Grid.{IsGrid};

use crate::{Extents, count_meeting, cut, tile_box, tile_of, tiles_meeting};
use ras_domain::{Interval, MAX_AXES, Point, Region};
use std::alloc::{AllocError, Global};
use std::process::Abort;
use std::test::Fail;

/// The lower and the upper bound of each axis.
type Pairs<'a> = &'a [(i64, i64)];

fn intervals_of(alloc: Global, pairs: Pairs<'_>) -> Result<Vec<Interval>, AllocError> {
    pairs
        .iter()
        .map(|(lo, hi)| Interval { lo: *lo, hi: *hi })
        .collect(alloc)
}

fn region_of(alloc: Global, pairs: Pairs<'_>) -> Result<Region, Fail> {
    Ok(Region::new(intervals_of(alloc, pairs)?.as_slice())?)
}

fn point_of(rt: &impl Abort, coordinates: &[i64]) -> Point {
    let mut point = Point::new();
    assert!(rt; coordinates.len() <= MAX_AXES);
    for c in coordinates {
        assert!(rt; !point.is_full());
        point.push(*c);
    }
    point
}

fn extents_of(rt: &impl Abort, numbers: &[u32]) -> Extents
    ensures { IsGrid result.items }
{
    let mut extents = Extents::new();
    for extent in numbers {
        assert!(rt; *extent >= 1);
        assert!(rt; !extents.is_full());
        extents.push(*extent);
    }
    extents
}

#[test]
fn a_place_is_the_floor_below_the_origin_too(rt: HostRuntime) -> Result<(), Fail> {
    let cases: [(&[i64], &[u32], &[i64]); 16] = [
        (&[0], &[4], &[0]),
        (&[3], &[4], &[0]),
        (&[4], &[4], &[1]),
        (&[7], &[4], &[1]),
        (&[8], &[4], &[2]),
        (&[-1], &[4], &[-1]),
        (&[-4], &[4], &[-1]),
        (&[-5], &[4], &[-2]),
        (&[-8], &[4], &[-2]),
        (&[-9], &[4], &[-3]),
        (&[-1, 5], &[4, 2], &[-1, 2]),
        (&[-7, 0, 7], &[1, 2, 3], &[-7, 0, 2]),
        (&[i64::MIN], &[1], &[i64::MIN]),
        (&[i64::MAX], &[1], &[i64::MAX]),
        // 2^63 is 2^31 * (2^32 - 1) + 2^31.
        (&[i64::MIN], &[4_294_967_295], &[-2_147_483_649]),
        (&[i64::MAX], &[4_294_967_295], &[2_147_483_648]),
    ];
    for (coordinates, numbers, want) in cases {
        let point = point_of(&rt, coordinates);
        let extents = extents_of(&rt, numbers);
        assert!(rt; point.len() == extents.len());
        let place = tile_of(&point, &extents);
        assert_eq!(rt; place.as_slice(), want, "of {coordinates:?}");
    }
    Ok(())
}

#[test]
fn a_tile_ends_where_the_domain_does(rt: HostRuntime) -> Result<(), Fail> {
    let domain: Pairs<'_> = &[(0, 9), (-3, 3)];
    let last = 2_147_483_647;
    let cases: [(Pairs<'_>, &[u32], &[i64], Option<Pairs<'_>>); 15] = [
        (domain, &[4, 4], &[0, 0], Some(&[(0, 3), (0, 3)])),
        (domain, &[4, 4], &[1, -1], Some(&[(4, 7), (-3, -1)])),
        (domain, &[4, 4], &[2, 0], Some(&[(8, 9), (0, 3)])),
        // Beside the domain.
        (domain, &[4, 4], &[3, 0], None),
        (domain, &[4, 4], &[-1, 0], None),
        (domain, &[4, 4], &[0, 1], None),
        (domain, &[4, 4], &[0, -2], None),
        // Beyond 64 bits: 2^62 * 4 is 2^64, and 2^61 * 4 is 2^63.
        (domain, &[4, 4], &[4_611_686_018_427_387_904, 0], None),
        (domain, &[4, 4], &[2_305_843_009_213_693_952, 0], None),
        (domain, &[4, 4], &[0, i64::MIN], None),
        (domain, &[1, 1], &[i64::MAX, 0], None),
        // One tile of 2^32 - 1 cells on each side of the origin.
        (&[(-5, 5)], &[4_294_967_295], &[0], Some(&[(0, 5)])),
        (&[(-5, 5)], &[4_294_967_295], &[-1], Some(&[(-5, -1)])),
        (&[(-5, 5)], &[4_294_967_295], &[2_147_483_648], None),
        (
            &[(last, last)],
            &[4_294_967_295],
            &[0],
            Some(&[(last, last)]),
        ),
    ];
    for (pairs, numbers, coordinates, want) in cases {
        let region = region_of(rt.alloc(), pairs)?;
        let extents = extents_of(&rt, numbers);
        let place = point_of(&rt, coordinates);
        assert!(rt; place.len() == extents.len());
        assert!(rt; region.axes().len() == extents.len());
        let tile = tile_box(&place, &extents, &region);
        match want {
            None => assert!(rt; tile.is_none(), "at {coordinates:?}"),
            Some(pairs) => assert_eq!(rt; tile, Some(region_of(rt.alloc(), pairs)?)),
        }
    }
    Ok(())
}

#[test]
fn the_places_of_a_region_stand_in_row_major_order(rt: HostRuntime) -> Result<(), Fail> {
    let cases: [(Pairs<'_>, &[u32], &[&[i64]]); 4] = [
        (
            &[(-1, 4), (-4, 0)],
            &[4, 4],
            &[&[-1, -1], &[-1, 0], &[0, -1], &[0, 0], &[1, -1], &[1, 0]],
        ),
        (&[(-7, 8)], &[5], &[&[-2], &[-1], &[0], &[1]]),
        (&[(5, 5)], &[3], &[&[1]]),
        (&[(3, 4), (3, 4)], &[4, 9], &[&[0, 0], &[1, 0]]),
    ];
    for (pairs, numbers, want) in cases {
        let region = region_of(rt.alloc(), pairs)?;
        let extents = extents_of(&rt, numbers);
        assert!(rt; region.axes().len() == extents.len());
        let tiles = tiles_meeting(rt.alloc(), &region, &extents)?;
        assert_eq!(rt; tiles.len(), want.len(), "of {pairs:?}");
        for (tile, coordinates) in tiles.iter().zip(want) {
            assert_eq!(rt; tile.as_slice(), *coordinates, "of {pairs:?}");
        }
        assert_eq!(rt; count_meeting(&region, &extents), want.len() as u64);
    }
    Ok(())
}

#[test]
fn many_tiles_are_counted(rt: HostRuntime) -> Result<(), Fail> {
    let cases: [(Pairs<'_>, &[u32], u64); 5] = [
        (&[(0, 4095), (0, 4095)], &[1, 1], 16_777_216),
        (&[(0, 4095), (0, 4095)], &[64, 64], 4096),
        (&[(-4096, -1), (0, 4095)], &[64, 4_294_967_295], 64),
        (&[(-1, 4094), (0, 0)], &[64, 1], 65),
        (&[(-1, 0); 6], &[7; 6], 64),
    ];
    for (pairs, numbers, want) in cases {
        let region = region_of(rt.alloc(), pairs)?;
        let extents = extents_of(&rt, numbers);
        assert!(rt; region.axes().len() == extents.len());
        assert_eq!(rt; count_meeting(&region, &extents), want, "of {pairs:?}");
    }
    Ok(())
}

#[test]
fn many_tiles_are_listed(rt: HostRuntime) -> Result<(), Fail> {
    let region = region_of(rt.alloc(), &[(0, 4095), (-4096, -1)])?;
    let extents = extents_of(&rt, &[64, 64]);
    assert!(rt; region.axes().len() == extents.len());
    let tiles = tiles_meeting(rt.alloc(), &region, &extents)?;
    assert_eq!(rt; tiles.len(), 4096);
    let cases: [(usize, [i64; 2]); 4] = [
        (0, [0, -64]),
        (63, [0, -1]),
        (64, [1, -64]),
        (4095, [63, -1]),
    ];
    for (k, want) in cases {
        assert_eq!(rt;
            tiles.get(k).map(|tile| tile.as_slice()),
            Some(want.as_slice()),
            "at {k}"
        );
    }
    Ok(())
}

/// Runs for so many workers; the lengths differ by at most one.
#[test]
fn longer_runs_come_first(rt: HostRuntime) -> Result<(), Fail> {
    let half = 9_223_372_036_854_775_808;
    let cases: [(usize, u32, &[(usize, usize)]); 9] = [
        (0, 1, &[]),
        (0, 64, &[]),
        (1, 1, &[(0, 1)]),
        (7, 1, &[(0, 7)]),
        (2, 64, &[(0, 1), (1, 2)]),
        (4, 2, &[(0, 2), (2, 4)]),
        (10, 3, &[(0, 4), (4, 7), (7, 10)]),
        (11, 4, &[(0, 3), (3, 6), (6, 9), (9, 11)]),
        (usize::MAX, 2, &[(0, half), (half, usize::MAX)]),
    ];
    for (len, workers, want) in cases {
        let runs = cut(rt.alloc(), len, workers.max(1))?;
        assert_eq!(rt; runs.as_slice(), want, "of {len} for {workers}");
    }
    Ok(())
}

/// Of 5000 places for 4000 workers the first thousand runs hold two.
#[test]
fn thousands_of_runs_are_cut(rt: HostRuntime) -> Result<(), Fail> {
    let runs = cut(rt.alloc(), 5000, 4000)?;
    assert_eq!(rt; runs.len(), 4000);
    for (i, run) in runs.iter().enumerate() {
        let from = i + i.min(1000);
        let to = from + if i < 1000 { 2 } else { 1 };
        assert_eq!(rt; *run, (from, to));
    }
    Ok(())
}
