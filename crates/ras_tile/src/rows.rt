//! The copying of cells between planes, a row at a time.
ghost use Rattle.std.specs.Prelude.{◌≡◌, ◌+◌, ◌<◌, ◌≤◌, ◌⊎◌, ℕ, ℤ, List, length, All};
ghost use Rattle.ras_domain.specs.Region.{IsIn, IsRegion, points_of, place_in_rows};
ghost use Rattle.ras_tile.specs.Planes.{listed_number, plane_number, cell_of_planes, HasNumbers, Reaches, IsPlainPlane};
ghost use Rattle.ras_tile.specs.Stored.{along};

use crate::plane::Plane;
use ras_domain::{Interval, Region};

/// Copies the cells at the points of `region`, plane by plane.
pub(crate) fn copy_planes(
    to: &mut [Plane],
    to_box: &Region,
    from: &[Plane],
    from_box: &Region,
    region: &Region,
)
    requires as_many { length to.old ≡ length from.now }
    requires plain { All IsPlainPlane to.old }
    requires to_whole { All (HasNumbers (length (points_of to_box.now))) to.old }
    requires from_whole { All (HasNumbers (length (points_of from_box.now))) from.now }
    requires to_covers { (p : List ℤ) → IsIn p region.now → IsIn p to_box.now }
    requires from_covers { (p : List ℤ) → IsIn p region.now → IsIn p from_box.now }
    ensures copied { (p : List ℤ) → IsIn p region.now
        → cell_of_planes to.new (place_in_rows to_box.now p) ≡ cell_of_planes from.now (place_in_rows from_box.now p) }
    ensures others { (p : List ℤ) → IsIn p to_box.now → ¬ IsIn p region.now
        → cell_of_planes to.new (place_in_rows to_box.now p) ≡ cell_of_planes to.old (place_in_rows to_box.now p) }
    ensures plain { All IsPlainPlane to.new }
    ensures whole { All (HasNumbers (length (points_of to_box.now))) to.new }
{
    for i in 0..to.len() {
        copy_plane(&mut to[i], to_box, &from[i], from_box, region);
    }
}

/// Copies the numbers of the cells at the points of `region`.
fn copy_plane(to: &mut Plane, to_box: &Region, from: &Plane, from_box: &Region, region: &Region)
    requires plain { IsPlainPlane to.old }
    requires to_whole { HasNumbers (length (points_of to_box.now)) to.old }
    requires from_whole { HasNumbers (length (points_of from_box.now)) from.now }
    requires to_covers { (p : List ℤ) → IsIn p region.now → IsIn p to_box.now }
    requires from_covers { (p : List ℤ) → IsIn p region.now → IsIn p from_box.now }
    ensures copied { (p : List ℤ) → IsIn p region.now
        → plane_number to.new (place_in_rows to_box.now p) ≡ plane_number from.now (place_in_rows from_box.now p) }
    ensures others { (p : List ℤ) → IsIn p to_box.now → ¬ IsIn p region.now
        → plane_number to.new (place_in_rows to_box.now p) ≡ plane_number to.old (place_in_rows to_box.now p) }
    ensures plain { IsPlainPlane to.new }
    ensures whole { HasNumbers (length (points_of to_box.now)) to.new }
{
    match to {
        Plane::Plain(numbers) => {
            copy_rows(numbers.as_mut_slice(), to_box, from, from_box, region)
        }
        _ => unreachable!(),
    }
}

/// Copies the numbers of the cells at the points of `region`, a row at a time: those of a row stand
/// side by side in both.
fn copy_rows(to: &mut [i64], to_box: &Region, from: &Plane, from_box: &Region, region: &Region)
    requires to_whole { length to.old ≡ length (points_of to_box.now) }
    requires from_whole { HasNumbers (length (points_of from_box.now)) from.now }
    requires to_covers { (p : List ℤ) → IsIn p region.now → IsIn p to_box.now }
    requires from_covers { (p : List ℤ) → IsIn p region.now → IsIn p from_box.now }
    ensures copied { (p : List ℤ) → IsIn p region.now
        → listed_number to.new (place_in_rows to_box.now p) ≡ plane_number from.now (place_in_rows from_box.now p) }
    ensures others { (p : List ℤ) → IsIn p to_box.now → ¬ IsIn p region.now
        → listed_number to.new (place_in_rows to_box.now p) ≡ listed_number to.old (place_in_rows to_box.now p) }
{
    let mut next = Some(region.first_point());
    while let Some(mut p) = next {
        let to_place = to_box.row_place(&p) as usize;
        let from_place = from_box.row_place(&p) as usize;
        let steps = finish_row(region.axes(), p.as_mut_slice()) as usize;
        copy_cells(to, to_place, from, from_place, steps + 1);
        next = region.next_point(&p);
    }
}

/// Moves on to the last point of the row, and says how many steps that is.
fn finish_row(axes: &[Interval], p: &mut [i64]) -> u64
    requires region { IsRegion axes.now }
    requires within { IsIn p.old axes.now }
    ensures moved { p.new ≡ along p.old result }
    ensures within { IsIn p.new axes.now }
{
    let last = axes.len() - 1;
    let upper = axes[last].hi;
    let steps = upper.abs_diff(p[last]);
    p[last] = upper;
    steps
}

/// Copies the numbers of this many cells from one place to another.
fn copy_cells(to: &mut [i64], to_place: usize, from: &Plane, from_place: usize, cells: usize)
    requires to_within { to_place + cells ≤ length to.old }
    requires from_within { Reaches (from_place + cells) from.now }
    ensures copied { (k : ℕ) → k < cells → listed_number to.new (to_place + k) ≡ plane_number from.now (from_place + k) }
    ensures others { (k : ℕ) → (k < to_place) ⊎ (to_place + cells ≤ k) → listed_number to.new k ≡ listed_number to.old k }
{
    from.read(from_place, &mut to[to_place..to_place + cells]);
}
