//! The extents of tiles.
ghost use Rattle.std.specs.Prelude.{◌≡◌, ◌≤◌, ◌<◌, ◌*◌, ◌⊎◌, MatchOption};
ghost use Rattle.ras_domain.specs.declared.TheConstants.{MAX_AXES as MOST_AXES, MAX_TILE_CELLS as MOST_CELLS};
ghost use Rattle.spec_workloads.specs.TypeLines as spec;
ghost use Rattle.ras_workload.specs.Kept.{IfPasses, are_extents};

use arrayvec::ArrayVec;
use ras_domain::{List, MAX_AXES, MAX_TILE_CELLS};

/// So many coordinates does a tile take on each axis.
type Extents = ArrayVec<u32, MAX_AXES>;

/// The most cells of a tile.
const MAX_CELLS: u64 = MAX_TILE_CELLS as u64;

/// So many cells times an extent, if that isn't 0 and there are few cells then.
fn more_cells(cells: u64, extent: u64) -> Option<u64>
    requires some { 1 ≤ cells }
    requires few { cells ≤ MOST_CELLS }
    ensures { MatchOption result ((extent ≡ 0) ⊎ (MOST_CELLS < cells * extent))
        (λ more. (more ≡ cells * extent) × (1 ≤ extent) × (extent ≤ more) × (more ≤ MOST_CELLS)) }
{
    if extent == 0 || extent > MAX_CELLS {
        return None;
    }
    let more = cells * extent;
    if more > MAX_CELLS {
        return None;
    }
    Some(more)
}

/// The extents that a line tells, if there is one for each axis, none is 0, and a tile has few cells.
fn told_extents(axes: usize, extents: &[u64]) -> Option<Extents>
    requires { axes ≤ MOST_AXES }
    ensures { IfPasses (are_extents axes extents.now) (record { items = extents.now }) result }
{
    if extents.len() != axes {
        return None;
    }
    let mut kept = Extents::new();
    let mut cells = 1u64;
    for extent in extents {
        let Some(more) = more_cells(cells, *extent) else {
            return None;
        };
        cells = more;
        kept.push(*extent as u32);
    }
    Some(kept)
}

/// The extent on each of so many axes where a line tells none.
fn default_extent(axes: usize) -> u32
    ensures { result ≡ spec.default_extent axes }
{
    match axes {
        1 => 4096,
        2 => 64,
        3 => 16,
        4 => 8,
        _ => 4,
    }
}

/// The extents where a line tells none.
fn default_extents(axes: usize) -> Extents
    requires { axes ≤ MOST_AXES }
    ensures { result ≡ record { items = spec.repeated axes (spec.default_extent axes) } }
{
    let mut extents = Extents::new();
    for _ in 0..axes {
        extents.push(default_extent(axes));
    }
    extents
}

/// The extents of an array with so many axes, if they are such as may be.
pub fn extents_of(axes: usize, extents: &Option<List<u64>>) -> Option<Extents>
    requires some { 1 ≤ axes }
    requires few { axes ≤ MOST_AXES }
    ensures { IfPasses (are_extents axes (spec.extents_for axes extents.now))
        (record { items = spec.extents_for axes extents.now }) result }
{
    match extents {
        Some(extents) => told_extents(axes, extents.as_slice()),
        None => Some(default_extents(axes)),
    }
}
