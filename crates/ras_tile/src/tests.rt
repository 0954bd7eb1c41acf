//! Cells worked out by hand, and that calls which need memory succeed.
ghost use Rattle.std.specs.Prelude.{List, ℤ, IsTrue, IfOk, All};
ghost use Rattle.ras_cells.specs.Atoms.{AreInRange};
ghost use Rattle.ras_cells.specs.Stored.{atoms_of};
ghost use Rattle.ras_domain.specs.Region.{IsIn};

use crate::Tile;
use arrayvec::ArrayVec;
use ras_cells::{Atom, CellType, MAX_COMPONENTS, Numbers};
use ras_domain::{Interval, MAX_AXES, MAX_TILE_CELLS, Point, Region};
use std::alloc::{AllocError, Global};
use std::process::Abort;
use std::test::Fail;

/// The lower and the upper bound of each axis.
type Pairs<'a> = &'a [(i64, i64)];

fn region_of(alloc: Global, pairs: Pairs<'_>) -> Result<Region, Fail> {
    let axes: Vec<Interval> = pairs
        .iter()
        .map(|(lo, hi)| Interval { lo: *lo, hi: *hi })
        .collect(alloc)?;
    Ok(Region::new(axes.as_slice())?)
}

fn point_of(rt: &impl Abort, coordinates: &[i64]) -> Point {
    let mut point = Point::new();
    assert!(rt; coordinates.len() <= MAX_AXES);
    for c in coordinates {
        assert!(rt; !point.is_full());
        point.push(*c);
    }
    point
}

fn numbers_of(rt: &impl Abort, numbers: &[i64]) -> Numbers {
    let mut cell = Numbers::new();
    assert!(rt; numbers.len() <= MAX_COMPONENTS);
    for n in numbers {
        assert!(rt; !cell.is_full());
        cell.push(*n);
    }
    cell
}

/// Whether each point of `inner` is one of `outer`.
fn covers(outer: &Region, inner: &Region) -> bool
    ensures { IsTrue result → (p : List ℤ) → IsIn p inner.now → IsIn p outer.now }
{
    let wide = outer.axes();
    let narrow = inner.axes();
    if wide.len() != narrow.len() {
        return false;
    }
    for i in 0..wide.len() {
        if narrow[i].lo < wide[i].lo || wide[i].hi < narrow[i].hi {
            return false;
        }
    }
    true
}

fn filled(rt: &impl Abort, alloc: Global, pairs: Pairs<'_>, numbers: &[i64]) -> Result<Tile, Fail>
    ensures { IfOk result (λ tile. IsTrue tile.writable) }
{
    let region = region_of(alloc, pairs)?;
    assert!(rt; region.volume() <= MAX_TILE_CELLS);
    Ok(Tile::filled(alloc, region, &numbers_of(rt, numbers))?)
}

fn write(rt: &impl Abort, tile: &mut Tile, coordinates: &[i64], numbers: &[i64])
    requires { IsTrue tile.old.writable }
    ensures { IsTrue tile.new.writable }
{
    let p = point_of(rt, coordinates);
    let n = numbers_of(rt, numbers);
    assert!(rt; tile.region().contains(&p));
    assert!(rt; n.len() == tile.width());
    tile.set(&p, &n);
}

fn copy(rt: &impl Abort, to: &mut Tile, from: &Tile, region: &Region)
    requires { IsTrue to.old.writable }
{
    assert!(rt; covers(to.region(), region));
    assert!(rt; covers(from.region(), region));
    assert!(rt; from.width() == to.width());
    to.copy_box(from, region);
}

/// The numbers of all cells, in row-major order.
fn numbers_in(rt: &impl Abort, alloc: Global, tile: &Tile) -> Result<Vec<i64>, Fail> {
    let mut numbers = Vec::new(alloc);
    for place in 0..tile.region().volume() {
        let p = tile.region().point_at(place);
        assert!(rt; tile.region().contains(&p));
        numbers.extend_from_slice(tile.get(&p).as_slice())?;
    }
    Ok(numbers)
}

/// The tile with the numbers 1, 2, 3 and so on in row-major order.
fn counted(rt: &impl Abort, alloc: Global, pairs: Pairs<'_>) -> Result<Tile, Fail> {
    let mut tile = filled(rt, alloc, pairs, &[0])?;
    for place in 0..tile.region().volume() {
        assert!(rt; place < tile.region().volume());
        let p = tile.region().point_at(place);
        write(rt, &mut tile, p.as_slice(), &[place as i64 + 1]);
    }
    Ok(tile)
}

#[test]
fn cells_are_read_and_written_at_their_points(rt: HostRuntime) -> Result<(), Fail> {
    let mut narrow = filled(&rt, rt.alloc(), &[(-1, 0), (2, 4)], &[5])?;
    let whole = narrow.try_clone(rt.alloc())?;
    write(&rt, &mut narrow, &[-1, 2], &[1]);
    write(&rt, &mut narrow, &[0, 4], &[i64::MIN]);
    write(&rt, &mut narrow, &[0, 2], &[i64::MAX]);
    assert_eq!(rt;
        numbers_in(&rt, rt.alloc(), &narrow)?.as_slice(),
        [1, 5, 5, i64::MAX, 5, i64::MIN].as_slice()
    );
    assert_eq!(rt;
        numbers_in(&rt, rt.alloc(), &whole)?.as_slice(),
        [5; 6].as_slice()
    );
    let mut wide = filled(&rt, rt.alloc(), &[(-1, 0), (2, 3)], &[7, 8, 9])?;
    write(&rt, &mut wide, &[-1, 3], &[1, 2, 3]);
    write(&rt, &mut wide, &[0, 3], &[4, 5, 6]);
    let want = [7, 8, 9, 1, 2, 3, 7, 8, 9, 4, 5, 6];
    assert_eq!(rt;
        numbers_in(&rt, rt.alloc(), &wide)?.as_slice(),
        want.as_slice()
    );
    Ok(())
}

#[test]
fn a_box_is_copied_and_the_rest_stays(rt: HostRuntime) -> Result<(), Fail> {
    let cases: [(Pairs<'_>, Pairs<'_>, Pairs<'_>, &[i64]); 6] = [
        // Boxes that overlap in part.
        (
            &[(-1, 1), (2, 4)],
            &[(0, 2), (1, 3)],
            &[(0, 1), (2, 3)],
            &[0, 0, 0, 2, 3, 0, 5, 6, 0],
        ),
        // A single cell.
        (
            &[(-1, 1), (2, 4)],
            &[(0, 2), (1, 3)],
            &[(1, 1), (3, 3)],
            &[0, 0, 0, 0, 0, 0, 0, 6, 0],
        ),
        // The whole tile.
        (
            &[(-1, 0), (2, 4)],
            &[(-1, 0), (2, 4)],
            &[(-1, 0), (2, 4)],
            &[1, 2, 3, 4, 5, 6],
        ),
        // A column.
        (
            &[(0, 2), (0, 1)],
            &[(0, 2), (0, 1)],
            &[(0, 2), (1, 1)],
            &[0, 2, 0, 4, 0, 6],
        ),
        // One axis.
        (&[(0, 4)], &[(2, 7)], &[(3, 4)], &[0, 0, 0, 2, 3]),
        // Three axes.
        (
            &[(0, 1), (0, 1), (0, 1)],
            &[(0, 1), (-1, 1), (0, 2)],
            &[(0, 1), (1, 1), (0, 1)],
            &[0, 0, 7, 8, 0, 0, 16, 17],
        ),
    ];
    for (to, from, region, want) in cases {
        let mut tile = filled(&rt, rt.alloc(), to, &[0])?;
        copy(
            &rt,
            &mut tile,
            &counted(&rt, rt.alloc(), from)?,
            &region_of(rt.alloc(), region)?,
        );
        assert_eq!(rt;
            numbers_in(&rt, rt.alloc(), &tile)?.as_slice(),
            want,
            "of {region:?}"
        );
    }
    Ok(())
}

#[test]
fn cells_have_any_number_of_components(rt: HostRuntime) -> Result<(), Fail> {
    let region = region_of(rt.alloc(), &[(0, 1), (1, 1)])?;
    let mut wide = filled(&rt, rt.alloc(), &[(0, 1), (0, 1)], &[1, 2, 3])?;
    copy(
        &rt,
        &mut wide,
        &filled(&rt, rt.alloc(), &[(0, 2), (1, 2)], &[4, 5, 6])?,
        &region,
    );
    let want = [1, 2, 3, 4, 5, 6, 1, 2, 3, 4, 5, 6];
    assert_eq!(rt;
        numbers_in(&rt, rt.alloc(), &wide)?.as_slice(),
        want.as_slice()
    );
    let mut none = filled(&rt, rt.alloc(), &[(0, 1), (0, 1)], &[])?;
    write(&rt, &mut none, &[1, 1], &[]);
    copy(
        &rt,
        &mut none,
        &filled(&rt, rt.alloc(), &[(0, 2), (1, 2)], &[])?,
        &region,
    );
    assert_eq!(rt; none.width(), 0);
    assert!(rt; numbers_in(&rt, rt.alloc(), &none)?.is_empty());
    Ok(())
}

#[test]
fn the_largest_tile_is_filled(rt: HostRuntime) -> Result<(), Fail> {
    let mut tile = filled(&rt, rt.alloc(), &[(0, 255), (-256, -1)], &[3])?;
    write(&rt, &mut tile, &[255, -1], &[4]);
    let numbers = numbers_in(&rt, rt.alloc(), &tile)?;
    assert_eq!(rt; numbers.len(), 65_536);
    assert_eq!(rt; numbers.iter().filter(|n| **n == 3).count(), 65_535);
    assert_eq!(rt; numbers.last().copied(), Some(4));
    Ok(())
}

#[test]
fn cells_of_eight_components_are_kept(rt: HostRuntime) -> Result<(), Fail> {
    let numbers = [1, -2, 3, -4, 5, -6, 7, i64::MIN];
    let mut tile = filled(&rt, rt.alloc(), &[(-1, 0), (5, 6)], &numbers)?;
    write(&rt, &mut tile, &[0, 5], &[0; 8]);
    let copy = tile.try_clone(rt.alloc())?;
    let mut want = Vec::new(rt.alloc());
    for cell in [numbers, numbers, [0; 8], numbers] {
        want.extend_from_slice(&cell)?;
    }
    assert_eq!(rt;
        numbers_in(&rt, rt.alloc(), &copy)?.as_slice(),
        want.as_slice()
    );
    Ok(())
}

/// Whether each number is in the range of its atom.
fn fit(atoms: &[Atom], numbers: &[i64]) -> bool
    ensures { IsTrue result → AreInRange atoms.now numbers.now }
{
    if atoms.len() != numbers.len() {
        return false;
    }
    for i in 0..atoms.len() {
        if !atoms[i].contains(numbers[i]) {
            return false;
        }
    }
    true
}

/// Whether the numbers of each cell are in the ranges of the type.
fn all_fit(tile: &Tile, of: &CellType) -> bool
    ensures { IsTrue result → All (AreInRange (atoms_of of.now)) tile.now.cells }
{
    for place in 0..tile.region().volume() {
        let p = tile.region().point_at(place);
        if !tile.region().contains(&p) || !fit(of.atoms(), tile.get(&p).as_slice()) {
            return false;
        }
    }
    true
}

/// The tile packed as this type, once its numbers were found to be in range.
fn packed(rt: &impl Abort, alloc: Global, tile: &Tile, of: &CellType) -> Result<Tile, Fail> {
    assert!(rt; all_fit(tile, of));
    Ok(tile.pack(alloc, of)?)
}

/// How the numbers of a component are lent, with those that are kept.
fn shown(rt: &impl Abort, alloc: Global, tile: &Tile, component: usize) -> Result<String, Fail> {
    assert!(rt; component < tile.width());
    Ok(format!(in alloc; "{:?}", tile.plane(component))?)
}

fn composite(rt: &impl Abort, atoms: &[Atom]) -> CellType {
    let mut components = ArrayVec::new();
    assert!(rt; atoms.len() <= MAX_COMPONENTS);
    for atom in atoms {
        assert!(rt; !components.is_full());
        components.push(*atom);
    }
    CellType::Composite(components)
}

#[test]
fn a_tile_of_chars_packs_to_bytes(rt: HostRuntime) -> Result<(), Fail> {
    let mut tile = filled(&rt, rt.alloc(), &[(0, 99)], &[7])?;
    let char = CellType::Atom(Atom::Char);
    let seven = packed(&rt, rt.alloc(), &tile, &char)?;
    assert_eq!(rt; shown(&rt, rt.alloc(), &seven, 0)?.as_str(), "Uniform(7)");
    assert_eq!(rt;
        numbers_in(&rt, rt.alloc(), &seven)?.as_slice(),
        [7; 100].as_slice()
    );
    for c in 0..100i64 {
        write(&rt, &mut tile, &[c], &[c]);
    }
    let bytes = packed(&rt, rt.alloc(), &tile, &char)?;
    let lent = shown(&rt, rt.alloc(), &bytes, 0)?;
    assert!(rt; lent.as_str().starts_with("U8([0, 1, 2, 3,"));
    assert!(rt; lent.as_str().ends_with("98, 99])"));
    let numbers = numbers_in(&rt, rt.alloc(), &bytes)?;
    assert_eq!(rt;
        numbers.as_slice(),
        numbers_in(&rt, rt.alloc(), &tile)?.as_slice()
    );
    assert_eq!(rt; numbers.last().copied(), Some(99));
    Ok(())
}

#[test]
fn each_atom_packs_at_both_ends_of_its_range(rt: HostRuntime) -> Result<(), Fail> {
    let cases = [
        (Atom::Bool, 0, 1, "U8([0, 1])"),
        (Atom::Octet, -128, 127, "I8([-128, 127])"),
        (Atom::Char, 0, 255, "U8([0, 255])"),
        (Atom::Short, -32_768, 32_767, "I16([-32768, 32767])"),
        (Atom::Ushort, 0, 65_535, "U16([0, 65535])"),
        (
            Atom::Long,
            -2_147_483_648,
            2_147_483_647,
            "I32([-2147483648, 2147483647])",
        ),
        (Atom::Ulong, 0, 4_294_967_295, "U32([0, 4294967295])"),
        (
            Atom::Wide,
            i64::MIN,
            i64::MAX,
            "Plain([-9223372036854775808, 9223372036854775807])",
        ),
    ];
    for (atom, least, greatest, want) in cases {
        let mut tile = filled(&rt, rt.alloc(), &[(-1, 0)], &[least])?;
        write(&rt, &mut tile, &[0], &[greatest]);
        let kept = packed(&rt, rt.alloc(), &tile, &CellType::Atom(atom))?;
        assert_eq!(rt; shown(&rt, rt.alloc(), &kept, 0)?.as_str(), want);
        assert_eq!(rt;
            numbers_in(&rt, rt.alloc(), &kept)?.as_slice(),
            [least, greatest].as_slice()
        );
    }
    Ok(())
}

#[test]
fn packed_tiles_are_copied_from(rt: HostRuntime) -> Result<(), Fail> {
    let mut tile = filled(&rt, rt.alloc(), &[(0, 1), (0, 1)], &[-5, 300])?;
    let of = composite(&rt, &[Atom::Octet, Atom::Ushort]);
    let uniform = packed(&rt, rt.alloc(), &tile, &of)?;
    write(&rt, &mut tile, &[1, 0], &[-5, 301]);
    let kept = packed(&rt, rt.alloc(), &tile, &of)?;
    assert_eq!(rt;
        shown(&rt, rt.alloc(), &uniform, 1)?.as_str(),
        "Uniform(300)"
    );
    assert_eq!(rt;
        shown(&rt, rt.alloc(), &kept, 0)?.as_str(),
        "I8([-5, -5, -5, -5])"
    );
    assert_eq!(rt;
        shown(&rt, rt.alloc(), &kept, 1)?.as_str(),
        "U16([300, 300, 301, 300])"
    );
    let mut open = kept.try_clone(rt.alloc())?;
    assert_eq!(rt;
        shown(&rt, rt.alloc(), &open, 1)?.as_str(),
        "Plain([300, 300, 301, 300])"
    );
    copy(
        &rt,
        &mut open,
        &uniform,
        &region_of(rt.alloc(), &[(1, 1), (0, 1)])?,
    );
    let again = packed(&rt, rt.alloc(), &open, &of)?;
    assert_eq!(rt; shown(&rt, rt.alloc(), &again, 0)?.as_str(), "Uniform(-5)");
    let back = packed(&rt, rt.alloc(), &kept, &of)?;
    assert_eq!(rt;
        shown(&rt, rt.alloc(), &back, 1)?.as_str(),
        "U16([300, 300, 301, 300])"
    );
    Ok(())
}
