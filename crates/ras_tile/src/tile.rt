ghost use Rattle.std.specs.Prelude.{◌≡◌, ◌≢◌, ◌≤◌, ◌<◌, ◌↔◌, List, ℤ, length, slice_set, slice_index_or, replicate, Some, true, IsTrue, IfOk, All};
ghost use Rattle.ras_cells.specs.Atoms.{AreInRange};
ghost use Rattle.ras_cells.specs.Runs.{IsRunOf};
ghost use Rattle.ras_cells.specs.Stored.{atoms_of};
ghost use Rattle.ras_domain.specs.Region.{IsIn, points_of, place_in_rows};
ghost use Rattle.ras_tile.specs.Cells.{AreEqual, numbers_of};
ghost use Rattle.ras_tile.specs.Lent.{IsUniform, IsPlain, IsPackedAs};
ghost use Rattle.ras_tile.specs.Tile.{IsTile, tile_cell_at, filled_tile, packed_tile};

use crate::plane::Plane;
use crate::planes;
use crate::rows::copy_planes;
use arrayvec::ArrayVec;
use ras_cells::{Atom, CellType, MAX_COMPONENTS, Numbers, Run};
use ras_domain::{MAX_TILE_CELLS, Point, Region};
use std::alloc::{AllocError, Global};
use std::marker::Model;

/// The atoms of a tile's components.
type Atoms = ArrayVec<Atom, MAX_COMPONENTS>;

/// A box of points with a list of stored numbers at each point, equally many at each. The numbers
/// of each component stand side by side, in the row-major order of the points: the last axis runs
/// fastest. A tile that was packed keeps them in as few bytes as their type asks for, and where all
/// cells are equal it keeps one; it can't be written.
#[derive(Debug, Drop)]
pub struct Tile {
    region: Region,
    atoms: Atoms,
    planes: Vec<Plane>,
    writable: bool,
}

impl Model for Tile {
    ghost use Rattle.std.specs.Prelude.{length};
    ghost use Rattle.ras_domain.specs.Region.{points_of};
    ghost use Rattle.ras_tile.specs.Planes.{cells_in};
    ghost use Rattle.ras_tile.specs.Stored.{IsStored};
    ghost use Rattle.ras_tile.specs.Tile.{TileValue};

    ghost Value = { TileValue };

    ghost view = { λ t. record {
      region = t.region;
      width = length t.atoms.items;
      atoms = t.atoms.items;
      cells = cells_in t.planes.items (length (points_of t.region));
      writable = t.writable;
    } };

    ghost invariant = { λ t. IsStored t.region t.atoms.items t.writable t.planes.items };
}

impl Tile {
    /// The writable tile on `region` with the numbers `n` at each point. The error is want of
    /// memory.
    pub fn filled(alloc: Global, region: Region, n: &Numbers) -> Result<Tile, AllocError>
        requires few_cells { length (points_of region) ≤ MAX_TILE_CELLS }
        ensures filled { IfOk result (λ tile. tile ≡ filled_tile region n.now.items) }
        ensures tile { IfOk result IsTile }
    {
        // By what `axes` ensures, the box is a region.
        let _axes = region.axes();
        let cells = region.volume() as usize;
        let planes = planes::filled(alloc, cells, n.as_slice())?;
        Ok(Tile {
            region,
            atoms: wide(n.len()),
            planes,
            writable: true,
        })
    }

    /// An equal tile, but a writable one. The error is want of memory.
    pub fn try_clone(&self, alloc: Global) -> Result<Tile, AllocError>
        ensures copy { IfOk result (λ copy. copy ≡ record self.now { writable = true }) }
        ensures tile { IfOk result IsTile }
    {
        let cells = self.region.volume() as usize;
        let planes = planes::widened(alloc, cells, self.planes.as_slice())?;
        Ok(Tile {
            region: copy_of(&self.region),
            atoms: atoms_in(self.atoms.as_slice()),
            planes,
            writable: true,
        })
    }

    /// A tile with the same cells whose numbers take as few bytes as `of` asks for, and that keeps
    /// one cell where all are equal. It isn't writable. The error is want of memory.
    pub fn pack(&self, alloc: Global, of: &CellType) -> Result<Tile, AllocError>
        requires { All (AreInRange (atoms_of of.now)) self.now.cells }
        ensures packed { IfOk result (λ tile. tile ≡ packed_tile (atoms_of of.now) self.now) }
        ensures tile { IfOk result IsTile }
    {
        let cells = self.region.volume() as usize;
        let planes = planes::packed(alloc, cells, self.planes.as_slice(), of.atoms())?;
        Ok(Tile {
            region: copy_of(&self.region),
            atoms: atoms_in(of.atoms()),
            planes,
            writable: false,
        })
    }

    /// The box.
    pub fn region(&self) -> &Region
        ensures region { result.now ≡ self.now.region }
        ensures tile { IsTile self.now }
    {
        &self.region
    }

    /// How many numbers each cell has.
    pub fn width(&self) -> usize
        ensures { result ≡ self.now.width }
    {
        self.atoms.len()
    }

    /// The numbers at a point of the box.
    pub fn get(&self, p: &Point) -> Numbers
        requires within { IsIn p.now.items self.now.region }
        ensures { tile_cell_at self.now p.now.items ≡ Some result.items }
    {
        planes::read_cell(self.planes.as_slice(), self.region.row_place(p) as usize)
    }

    /// The numbers of one component in the row-major order of the points, lent as they are kept: in
    /// 64 bits where the tile is writable, else as one number where all cells are equal, and in the
    /// width of the component's atom where not.
    pub fn plane(&self, component: usize) -> Run<'_>
        requires component { component < self.now.width }
        ensures numbers { IsRunOf (numbers_of component self.now.cells) result }
        ensures writable { IsTrue self.now.writable → IsPlain result }
        ensures uniform { ¬ IsTrue self.now.writable → IsUniform result ↔ AreEqual self.now.cells }
        ensures packed { ¬ IsTrue self.now.writable → ¬ AreEqual self.now.cells
            → IsPackedAs (slice_index_or self.now.atoms component Atom.Wide) result }
    {
        self.planes[component].lent()
    }

    /// Writes the numbers at a point of the box. `n` has as many numbers as each cell.
    pub fn set(&mut self, p: &Point, n: &Numbers)
        requires writable { IsTrue self.old.writable }
        requires within { IsIn p.now.items self.old.region }
        requires width { length n.now.items ≡ self.old.width }
        ensures cell { tile_cell_at self.new p.now.items ≡ Some n.now.items }
        ensures others { (q : List ℤ) → IsIn q self.old.region → q ≢ p.now.items
            → tile_cell_at self.new q ≡ tile_cell_at self.old q }
        ensures written { let place = place_in_rows self.old.region p.now.items in
            self.new ≡ record self.old { cells = slice_set self.old.cells place n.now.items } }
        ensures tile { IsTile self.new }
    {
        let place = self.region.row_place(p) as usize;
        planes::write_cell(self.planes.as_mut_slice(), place, n.as_slice());
    }

    /// Copies the cells of `source` at the points of `region` to this tile. Both boxes cover
    /// `region`, and the cells of both have equally many numbers.
    pub fn copy_box(&mut self, source: &Tile, region: &Region)
        requires writable { IsTrue self.old.writable }
        requires covered { (p : List ℤ) → IsIn p region.now → IsIn p self.old.region }
        requires source { (p : List ℤ) → IsIn p region.now → IsIn p source.now.region }
        requires width { source.now.width ≡ self.old.width }
        ensures copied { (p : List ℤ) → IsIn p region.now
            → tile_cell_at self.new p ≡ tile_cell_at source.now p }
        ensures others { (p : List ℤ) → IsIn p self.old.region → ¬ IsIn p region.now
            → tile_cell_at self.new p ≡ tile_cell_at self.old p }
        ensures stays { self.new ≡ record self.old { cells = self.new.cells } }
        ensures tile { IsTile self.new }
    {
        copy_planes(
            self.planes.as_mut_slice(),
            &self.region,
            source.planes.as_slice(),
            &source.region,
            region,
        );
    }
}

/// The same box.
fn copy_of(region: &Region) -> Region
    ensures { result ≡ region.now }
{
    match Region::new(region.axes()) {
        Ok(copy) => copy,
        Err(_) => unreachable!(),
    }
}

/// These atoms.
fn atoms_in(atoms: &[Atom]) -> Atoms
    requires { length atoms.now ≤ MAX_COMPONENTS }
    ensures { result.items ≡ atoms.now }
{
    Atoms::try_from(atoms).unwrap()
}

/// As many atoms of 64 bits.
fn wide(width: usize) -> Atoms
    requires { width ≤ MAX_COMPONENTS }
    ensures { result.items ≡ replicate width Atom.Wide }
{
    let mut atoms = Atoms::new();
    for _ in 0..width {
        atoms.push(Atom::Wide);
    }
    atoms
}
