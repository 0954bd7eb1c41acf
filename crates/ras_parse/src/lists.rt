//! Lists as they are read.
ghost use Rattle.std.specs.Prelude.{◌≡◌, [], ◌∷◌, ◌++◌, IfOk, OnOk};

use ras_domain::List;
use std::alloc::{AllocError, Global};

/// Puts an item at the end of a list.
pub fn push<T: Drop>(alloc: Global, list: &mut List<T>, item: T) -> Result<(), AllocError>
    ensures { OnOk result (list.new ≡ list.old ++ item ∷ []) }
{
    match list.push(alloc, item) {
        Ok(()) => Ok(()),
        Err(_) => Err(AllocError),
    }
}

/// The list of one item.
pub fn one<T: Drop>(alloc: Global, item: T) -> Result<List<T>, AllocError>
    ensures { IfOk result (λ list. list ≡ item ∷ []) }
{
    let mut list = List::new(alloc);
    push(alloc, &mut list, item)?;
    Ok(list)
}
