//! The planes of a tile, one a component.
ghost use Rattle.std.specs.Prelude.{◌≡◌, ◌≢◌, ◌+◌, ◌<◌, ◌≤◌, ◌↔◌, ℕ, List, ℤ, false, length, slice_index_or, All, IfOk, IsTrue};
ghost use Rattle.ras_cells.specs.Atoms.{AreInRange};
ghost use Rattle.ras_tile.specs.Planes.{plane_number, cell_of_planes, HasNumbers, Reaches, IsUniformPlane, IsPlainPlane, IsPackedPlane, ArePlanes};
ghost use Rattle.ras_tile.specs.Stored.{AreKept};

use crate::plane::Plane;
use ras_cells::{Atom, MAX_COMPONENTS, Numbers};
use std::alloc::{AllocError, Global};

/// Plain planes of equal cells. The error is want of memory.
pub(crate) fn filled(alloc: Global, cells: usize, numbers: &[i64]) -> Result<Vec<Plane>, AllocError>
    ensures long { IfOk result (λ planes. length planes.items ≡ length numbers.now) }
    ensures planes { IfOk result (λ planes. ArePlanes cells (λ _ plane. IsPlainPlane plane) (λ _. numbers.now) planes.items) }
{
    let mut planes = Vec::with_capacity(alloc, numbers.len())?;
    for number in numbers {
        let kept = vec![in alloc; *number; cells]?;
        planes.push(Plane::Plain(kept))?;
    }
    Ok(planes)
}

/// Plain planes of the same cells. The error is want of memory.
pub(crate) fn widened(
    alloc: Global,
    cells: usize,
    planes: &[Plane],
) -> Result<Vec<Plane>, AllocError>
    requires { All (HasNumbers cells) planes.now }
    ensures long { IfOk result (λ copies. length copies.items ≡ length planes.now) }
    ensures planes { IfOk result (λ copies. ArePlanes cells (λ _ plane. IsPlainPlane plane) (cell_of_planes planes.now) copies.items) }
{
    let mut copies = Vec::with_capacity(alloc, planes.len())?;
    for plane in planes {
        let numbers = plane.widened(alloc, cells)?;
        copies.push(Plane::Plain(numbers))?;
    }
    Ok(copies)
}

/// Planes of the same cells: of one number each where all cells are equal, else of numbers in the
/// widths of these atoms. The error is want of memory.
pub(crate) fn packed(
    alloc: Global,
    cells: usize,
    planes: &[Plane],
    atoms: &[Atom],
) -> Result<Vec<Plane>, AllocError>
    requires some { 0 < cells }
    requires each_atom { length planes.now ≡ length atoms.now }
    requires whole { All (HasNumbers cells) planes.now }
    requires range { (k : ℕ) → k < cells → AreInRange atoms.now (cell_of_planes planes.now k) }
    ensures long { IfOk result (λ copies. length copies.items ≡ length planes.now) }
    ensures cells { IfOk result (λ copies. (k : ℕ) → k < cells → cell_of_planes copies.items k ≡ cell_of_planes planes.now k) }
    ensures whole { IfOk result (λ copies. All (HasNumbers cells) copies.items) }
    ensures kept { IfOk result (λ copies. AreKept false cells atoms.now copies.items) }
{
    if are_constant(planes) {
        uniform(alloc, cells, planes)
    } else {
        narrowed(alloc, cells, planes, atoms)
    }
}

/// Planes of the same cells in the widths of these atoms. The error is want of memory.
fn narrowed(
    alloc: Global,
    cells: usize,
    planes: &[Plane],
    atoms: &[Atom],
) -> Result<Vec<Plane>, AllocError>
    requires each_atom { length planes.now ≡ length atoms.now }
    requires whole { All (HasNumbers cells) planes.now }
    requires range { (k : ℕ) → k < cells → AreInRange atoms.now (cell_of_planes planes.now k) }
    ensures long { IfOk result (λ copies. length copies.items ≡ length planes.now) }
    ensures planes { IfOk result (λ copies. ArePlanes cells (λ i plane. IsPackedPlane (slice_index_or atoms.now i Atom.Wide) plane) (cell_of_planes planes.now) copies.items) }
{
    let mut copies = Vec::with_capacity(alloc, planes.len())?;
    for i in 0..planes.len() {
        let plane = planes[i].packed(alloc, atoms[i], cells)?;
        copies.push(plane)?;
    }
    Ok(copies)
}

/// Planes of the first cell, for cells that are all equal. The error is want of memory.
fn uniform(alloc: Global, cells: usize, planes: &[Plane]) -> Result<Vec<Plane>, AllocError>
    requires some { 0 < cells }
    requires whole { All (HasNumbers cells) planes.now }
    requires equal { (k : ℕ) → k < cells → cell_of_planes planes.now k ≡ cell_of_planes planes.now 0 }
    ensures long { IfOk result (λ copies. length copies.items ≡ length planes.now) }
    ensures planes { IfOk result (λ copies. ArePlanes cells (λ _ plane. IsUniformPlane plane) (cell_of_planes planes.now) copies.items) }
{
    let mut copies = Vec::with_capacity(alloc, planes.len())?;
    for plane in planes {
        let number = plane.at(0);
        copies.push(Plane::Uniform(number))?;
    }
    Ok(copies)
}

/// Whether all cells are equal.
fn are_constant(planes: &[Plane]) -> bool
    ensures { (n : ℕ) → All (HasNumbers n) planes.now
        → IsTrue result ↔ ((k : ℕ) → k < n → cell_of_planes planes.now k ≡ cell_of_planes planes.now 0) }
{
    for plane in planes {
        if !plane.is_constant() {
            return false;
        }
    }
    true
}

/// The cell at this place.
pub(crate) fn read_cell(planes: &[Plane], place: usize) -> Numbers
    requires few { length planes.now ≤ MAX_COMPONENTS }
    requires within { All (Reaches (place + 1)) planes.now }
    ensures { result.items ≡ cell_of_planes planes.now place }
{
    let mut numbers = Numbers::new();
    for plane in planes {
        numbers.push(plane.at(place));
    }
    numbers
}

/// Writes the cell at this place.
pub(crate) fn write_cell(planes: &mut [Plane], place: usize, numbers: &[i64])
    requires each_number { length numbers.now ≡ length planes.old }
    requires plain { All IsPlainPlane planes.old }
    requires within { All (Reaches (place + 1)) planes.old }
    ensures written { cell_of_planes planes.new place ≡ numbers.now }
    ensures others { (k : ℕ) → k ≢ place → cell_of_planes planes.new k ≡ cell_of_planes planes.old k }
    ensures plain { All IsPlainPlane planes.new }
    ensures whole { (n : ℕ) → All (HasNumbers n) planes.old → All (HasNumbers n) planes.new }
{
    for i in 0..planes.len() {
        planes[i].write(place, &numbers[i]);
    }
}
