//! The calls on the grid. The grid has a corner at the origin, so the place of a tile is on each
//! axis the floor of its coordinates divided by the extent, as in array stores that cut their
//! arrays into aligned tiles.
ghost use Rattle.std.specs.Prelude.{◌≡◌, ◌↔◌, ◌≤◌, ℕ, ℤ, List, map, length, Contains, IfOk, IfSome, IsSome, MatchOption};
ghost use Rattle.std.specs.List.Sorted.{IsStrictlySortedBy};
ghost use Rattle.std.specs.Cmp.Lexicographic.{slice_cmp};
ghost use Rattle.std.specs.Ordering.{int_cmp};
ghost use Rattle.ras_domain.specs.Region.{HasSmallBounds, IsIn, IsOrdered, IsRegion};
ghost use Rattle.ras_grid.specs.Grid.{AreFloors, IsGrid, Meets, grid_interval, place_box, places_meeting, tile_in, tile_place};
ghost use Rattle.ras_domain.specs.Boxes.{meet_of_axis};

use arrayvec::ArrayVec;
use ras_domain::{Bounds, Interval, MAX_AXES, Point, Region};
use std::alloc::{AllocError, Global};

/// How many cells long a tile is on each axis, first axis first. Each extent is at least 1.
pub type Extents = ArrayVec<u32, MAX_AXES>;

/// The place of the tile in which a point lies: on each axis the floor of the coordinate divided
/// by the extent. A coordinate may be any number.
pub fn tile_of(p: &Point, e: &Extents) -> Point
    requires extents { IsGrid e.now.items }
    requires axes { length p.now.items ≡ length e.now.items }
    ensures place { result.items ≡ tile_place e.now.items p.now.items }
    ensures floors { AreFloors e.now.items p.now.items result.items }
{
    let mut place = Point::new();
    for (extent, c) in e.as_slice().iter().zip(p.as_slice()) {
        place.push(c.div_euclid(i64::from(*extent)));
    }
    place
}

/// The part of a tile that lies in the domain, and None exactly where the two don't meet. The
/// place may be any.
pub fn tile_box(place: &Point, e: &Extents, domain: &Region) -> Option<Region>
    requires extents { IsGrid e.now.items }
    requires place_axes { length place.now.items ≡ length e.now.items }
    requires domain_axes { length domain.now ≡ length e.now.items }
    ensures meets { IsSome result ↔ Meets e.now.items place.now.items domain.now }
    ensures common { IfSome result (λ tile. tile ≡ tile_in e.now.items domain.now place.now.items) }
    ensures points { IfSome result (λ tile. (p : List ℤ)
        → IsIn p tile ↔ (IsIn p domain.now × (tile_place e.now.items p ≡ place.now.items))) }
{
    let common = common_box(place.as_slice(), e.as_slice(), domain.axes())?;
    Some(region_of(&common))
}

/// How many tiles a region meets.
pub fn count_meeting(r: &Region, e: &Extents) -> u64
    requires extents { IsGrid e.now.items }
    requires axes { length r.now ≡ length e.now.items }
    ensures { result ≡ length (places_meeting e.now.items r.now) }
{
    region_of_places(r, e).volume()
}

/// The places of the tiles that a region meets, each once, in row-major order. The error is want
/// of memory.
pub fn tiles_meeting(alloc: Global, r: &Region, e: &Extents) -> Result<Vec<Point>, AllocError>
    requires extents { IsGrid e.now.items }
    requires axes { length r.now ≡ length e.now.items }
    ensures places { IfOk result (λ tiles.
        map (λ tile. tile.items) tiles.items ≡ places_meeting e.now.items r.now) }
    ensures meet { IfOk result (λ tiles. (place : List ℤ)
        → Contains (map (λ tile. tile.items) tiles.items) place ↔ Meets e.now.items place r.now) }
    ensures in_order { IfOk result (λ tiles.
        IsStrictlySortedBy (slice_cmp int_cmp) (map (λ tile. tile.items) tiles.items)) }
{
    let places = region_of_places(r, e);
    let mut tiles = Vec::with_capacity(alloc, places.volume() as usize)?;
    let mut next = Some(places.first_point());
    while let Some(place) = next {
        next = places.next_point(&place);
        tiles.push(place)?;
    }
    Ok(tiles)
}

/// The places of the tiles that a region meets, which are a region too.
fn region_of_places(r: &Region, e: &Extents) -> Region
    requires extents { IsGrid e.now.items }
    requires axes { length r.now ≡ length e.now.items }
    ensures places { result ≡ place_box e.now.items r.now }
    ensures region { IsRegion r.now }
{
    region_of(&places_of(r.axes(), e.as_slice()))
}

/// Along each axis the places of the tiles that the interval meets.
fn places_of(axes: &[Interval], extents: &[u32]) -> Bounds
    requires extents { IsGrid extents.now }
    requires axes { length axes.now ≡ length extents.now }
    requires few_axes { length axes.now ≤ MAX_AXES }
    ensures { result.items ≡ place_box extents.now axes.now }
{
    let mut places = Bounds::new();
    for (extent, axis) in extents.iter().zip(axes) {
        let extent = i64::from(*extent);
        places.push(Interval {
            lo: axis.lo.div_euclid(extent),
            hi: axis.hi.div_euclid(extent),
        });
    }
    places
}

/// The region of intervals that are one.
fn region_of(axes: &[Interval]) -> Region
    requires { IsRegion axes.now }
    ensures { result ≡ axes.now }
{
    match Region::new(axes) {
        Ok(region) => region,
        Err(_) => unreachable!(),
    }
}

/// What a tile and a region have in common, and None where on some axis that is nothing.
fn common_box(place: &[i64], extents: &[u32], axes: &[Interval]) -> Option<Bounds>
    requires extents { IsGrid extents.now }
    requires place_axes { length place.now ≡ length extents.now }
    requires region_axes { length axes.now ≡ length extents.now }
    requires region { IsRegion axes.now }
    ensures common { IfSome result (λ common. common.items ≡ tile_in extents.now axes.now place.now) }
    ensures meets { IsSome result ↔ Meets extents.now place.now axes.now }
{
    let mut common = Bounds::new();
    for (i, axis) in axes.iter().enumerate() {
        common.push(common_along(place[i], extents[i], axis)?);
    }
    Some(common)
}

/// What a tile and an interval of small bounds have in common along one axis. A tile beyond 64
/// bits has nothing in common with it.
fn common_along(place: i64, extent: u32, axis: &Interval) -> Option<Interval>
    requires extent { 1 ≤ extent }
    requires small_bounds { HasSmallBounds axis.now }
    ensures { let both = meet_of_axis (grid_interval extent place) axis.now in
        MatchOption result (¬ IsOrdered both) (λ common. (common ≡ both) × IsOrdered both) }
{
    let lo = place.checked_mul(i64::from(extent))?;
    let hi = lo.checked_add(i64::from(extent) - 1)?;
    let common = Interval {
        lo: lo.max(axis.lo),
        hi: hi.min(axis.hi),
    };
    (common.lo <= common.hi).then_some(common)
}
