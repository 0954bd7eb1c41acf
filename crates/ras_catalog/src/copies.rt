//! Copies of types.
ghost use Rattle.std.specs.Prelude.{◌≡◌, IfOk};

use arrayvec::ArrayVec;
use ras_domain::{List, Name};
use ras_kinds::copy_of_type;
use ras_syntax::SetType;
use std::alloc::{AllocError, Global};

/// A copy of names in order.
fn copy_of_names(alloc: Global, names: &[Name]) -> Result<List<Name>, AllocError>
    ensures { IfOk result (λ copies. copies ≡ names.now) }
{
    let mut copies = Vec::new(alloc);
    for name in names {
        copies.push(name.try_clone(alloc)?)?;
    }
    Ok(List::of(copies))
}

/// A copy of a type. The error is want of memory.
pub(crate) fn copy_of_set_type(alloc: Global, of: &SetType) -> Result<SetType, AllocError>
    ensures { IfOk result (λ copy. copy ≡ of.now) }
{
    let name = of.name.try_clone(alloc)?;
    let names = copy_of_names(alloc, of.names.as_slice())?;
    Ok(SetType {
        name,
        cell: copy_of_type(&of.cell),
        names,
        bounds: ArrayVec::try_from(of.bounds.as_slice()).unwrap(),
        extents: ArrayVec::try_from(of.extents.as_slice()).unwrap(),
        nulls: ArrayVec::try_from(of.nulls.as_slice()).unwrap(),
    })
}
