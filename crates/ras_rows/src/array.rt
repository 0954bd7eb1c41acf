//! An array of a row, as a view shows it.
ghost use Rattle.std.specs.Prelude.{◌≡◌, ◌↔◌, IfOk, IsTrue, Some, option_map};
ghost use Rattle.ras_domain.specs.declared.lock.LockName.TheVariants.{Domain, Tile as TileName};
ghost use Rattle.ras_grid.specs.Grid.{IsGrid};
ghost use Rattle.ras_rows.specs.Arrays.{holdings_in, numbers_in_tile};
ghost use Rattle.spec_expressions.specs.Database.{stored_at};
ghost use Rattle.spec_expressions.specs.Eval.{member_cell};
ghost use Rattle.spec_shown.specs.Shown.{domain_shown, least_domain as least_domain_of, member_shown, numbers_shown, zeros_of};

use ras_cells::{Cell, CellFault, NullSet, Numbers, default_cell, read_stored};
use ras_domain::{Bounds, Interval, Name, Point, Region};
use ras_grid::{Extents, tile_of};
use ras_store::View;
use ras_syntax::{CheckedSource, SetType};
use ras_tile::Tile;
use std::alloc::AllocError;
use std::marker::Model;

/// An array of a row: the array of an identifier in the collection of a source, as a view shows it.
/// What the view doesn't hold is made up: a domain is the point at the least bounds of the set type,
/// and a tile has zeros. Contracts see the row's member.
#[derive(Drop)]
pub struct ShownArray<'a> {
    view: &'a View,
    source: &'a CheckedSource,
    oid: u64,
    domain: Region,
}

impl<'a> Model for ShownArray<'a> {
    ghost use Rattle.ras_rows.specs.Arrays.{IsArrayKept, holdings_in};
    ghost use Rattle.spec_expressions.specs.Database.{Member};
    ghost use Rattle.spec_shown.specs.Shown.{member_shown};

    ghost Value = { Member };

    ghost view = { λ a. member_shown (holdings_in a.view.now) a.source.now a.oid };

    ghost invariant = { λ a. IsArrayKept a.view.now a.source.now a.oid a.domain };
}

impl<'a> ShownArray<'a> {
    /// The array of this identifier in the collection of a source. It allocates nothing; the error
    /// stands for a set type that can't be declared, or a domain with other axes than its set type.
    pub fn of(
        view: &'a View,
        source: &'a CheckedSource,
        oid: u64,
    ) -> Result<ShownArray<'a>, AllocError>
        ensures { IfOk result (λ array. array ≡ member_shown (holdings_in view.now) source.now oid) }
    {
        let domain = domain_in(view, source, oid)?;
        let extents = &source.of.extents;
        if !is_grid(extents) || domain.axes().len() != extents.len() {
            return Err(AllocError);
        }
        Ok(ShownArray {
            view,
            source,
            oid,
            domain,
        })
    }

    /// The points at which it has cells.
    pub fn domain(&self) -> &Region
        ensures { result.now ≡ self.now.array.domain }
    {
        &self.domain
    }

    /// Its object identifier.
    pub fn oid(&self) -> u64
        ensures { result ≡ self.now.oid }
    {
        self.oid
    }

    /// The name of the iterator that stands for it.
    pub fn iterator(&self) -> &Name
        ensures { result.now ≡ self.now.iterator }
    {
        &self.source.iterator
    }

    /// The set type of its collection.
    pub fn set_type(&self) -> &SetType
        ensures { result.now ≡ self.now.of }
    {
        &self.source.of
    }

    /// The numbers that are stored at a point, none out of its domain.
    pub fn stored(&self, p: &Point) -> Option<Numbers>
        ensures { option_map (λ numbers. numbers.items) result ≡ stored_at self.now.array p.now.items }
    {
        if !self.domain.contains(p) {
            return None;
        }
        let place = tile_of(p, &self.source.of.extents);
        Some(numbers_at(self.view, self.source, self.oid, &place, p))
    }

    /// The cell at a point. Out of its domain it is [`CellFault::IndexOut`].
    pub fn cell(&self, p: &Point) -> Result<Cell, CellFault>
        ensures { result ≡ member_cell (Some self.now) p.now.items }
    {
        match self.stored(p) {
            Some(numbers) => Ok(read_stored(&numbers, &self.source.of.nulls)),
            None => Err(CellFault::IndexOut),
        }
    }
}

/// The domain that a view shows of an array.
fn domain_in(view: &View, source: &CheckedSource, oid: u64) -> Result<Region, AllocError>
    ensures { IfOk result (λ domain. domain ≡ domain_shown source.now.of (holdings_in view.now (Domain source.now.collection oid))) }
{
    match view.domain_of(&source.collection, oid) {
        Some(domain) => Ok(domain),
        None => least_domain(&source.of),
    }
}

/// The point at the least bounds of a type, as a domain. The error stands for bounds that are no
/// region's.
fn least_domain(of: &SetType) -> Result<Region, AllocError>
    ensures { IfOk result (λ domain. domain ≡ least_domain_of of.now) }
{
    let mut axes = Bounds::new();
    for axis in of.bounds.as_slice() {
        axes.push(Interval {
            lo: axis.lo,
            hi: axis.lo,
        });
    }
    match Region::new(axes.as_slice()) {
        Ok(domain) => Ok(domain),
        Err(_) => Err(AllocError),
    }
}

/// Whether each extent is at least 1.
pub(crate) fn is_grid(extents: &Extents) -> bool
    ensures { IsTrue result ↔ IsGrid extents.now.items }
{
    extents.as_slice().iter().all(|extent| *extent >= 1)
}

/// The numbers at a point that the tile at this place has, zeros where the view has no such tile.
fn numbers_at(view: &View, source: &CheckedSource, oid: u64, place: &Point, p: &Point) -> Numbers
    ensures { result.items
        ≡ numbers_shown source.now.of (holdings_in view.now (TileName source.now.collection oid place.now)) p.now.items }
{
    match view.tile_of(&source.collection, oid, place) {
        Some(tile) => numbers_in(tile, &source.of, p),
        None => zeros(&source.of),
    }
}

/// The numbers of a tile at a point, zeros where the point isn't in it.
fn numbers_in(tile: &Tile, of: &SetType, p: &Point) -> Numbers
    ensures { result.items ≡ numbers_in_tile of.now tile.now p.now.items }
{
    if tile.region().contains(p) {
        tile.get(p)
    } else {
        zeros(of)
    }
}

/// A zero for each component.
fn zeros(of: &SetType) -> Numbers
    ensures { result.items ≡ zeros_of of.now }
{
    default_cell(&of.cell, &NullSet::new())
}
