//! Types as their lines tell them, and whether they may be declared.
ghost use Rattle.std.specs.Prelude.{◌≡◌, IfOk};
ghost use Rattle.spec_workloads.specs.TypeLines as spec;
ghost use Rattle.ras_workload.specs.Kept.{IfPasses, is_free_type};

use crate::cells::{Cells, cells_of};
use crate::headings::is_same;
use crate::intervals::{WideInterval, bounds_of};
use crate::nulls::nulls_of;
use crate::tile_extents::extents_of;
use ras_domain::{List, Name};
use ras_syntax::{SetType, Types};
use std::alloc::{AllocError, Global};
use std::marker::Model;

/// The most types of a workload.
const MAX_TYPES: usize = ras_syntax::MAX_TYPES as usize;

/// A type as its line tells it. Contracts see the type, also where it may not be declared.
#[derive(Debug, Drop)]
pub struct Draft {
    name: Name,
    cells: Cells,
    bounds: List<WideInterval>,
    extents: Option<List<u64>>,
    nulls: Option<List<(i128, i128)>>,
}

impl Model for Draft {
    ghost use Rattle.ras_syntax.specs.declared.types.SetType.{SetType};
    ghost use Rattle.spec_workloads.specs.TypeLines.{declared_type_of};

    ghost Value = { SetType };

    ghost view = { λ d. declared_type_of d.name d.cells d.bounds d.extents d.nulls };
}

/// Whether there is room for one more type, of this name.
fn is_free_type(earlier: &Types, name: &[u8]) -> bool
    ensures { result ≡ is_free_type earlier.now name.now }
{
    if earlier.len() >= MAX_TYPES {
        return false;
    }
    for place in 0..earlier.len() {
        if is_same(earlier.get(place).name.bytes(), name) {
            return false;
        }
    }
    true
}

/// The null intervals that a line tells.
fn told_nulls(nulls: &Option<List<(i128, i128)>>) -> &[(i128, i128)]
    ensures { result.now ≡ spec.nulls_for nulls.now }
{
    match nulls {
        Some(nulls) => nulls.as_slice(),
        None => &[],
    }
}

impl Draft {
    pub fn of(
        name: Name,
        cells: Cells,
        bounds: List<WideInterval>,
        extents: Option<List<u64>>,
        nulls: Option<List<(i128, i128)>>,
    ) -> Draft
        ensures { result ≡ spec.declared_type_of name cells bounds extents nulls }
    {
        Draft {
            name,
            cells,
            bounds,
            extents,
            nulls,
        }
    }

    /// The type, if it may be declared behind the earlier ones. The error is want of memory.
    pub fn declared(self, alloc: Global, earlier: &Types) -> Result<Option<SetType>, AllocError>
        ensures { IfOk result (λ found. IfPasses (spec.may_be_declared earlier.now self) self found) }
    {
        let Draft {
            name,
            cells,
            bounds,
            extents,
            nulls,
        } = self;
        if !is_free_type(earlier, name.bytes()) {
            return Ok(None);
        }
        let Some(bounds) = bounds_of(bounds.as_slice()) else {
            return Ok(None);
        };
        let Some(extents) = extents_of(bounds.len(), &extents) else {
            return Ok(None);
        };
        let Some((cell, names)) = cells_of(alloc, cells)? else {
            return Ok(None);
        };
        let Some(nulls) = nulls_of(&cell, told_nulls(&nulls)) else {
            return Ok(None);
        };
        Ok(Some(SetType {
            name,
            cell,
            names,
            bounds,
            extents,
            nulls,
        }))
    }
}
