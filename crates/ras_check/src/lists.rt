//! Lists as they are made.
ghost use Rattle.std.specs.Prelude.{◌≡◌, [], ◌∷◌, ◌++◌, OnOk};

use ras_domain::List;
use std::alloc::{AllocError, Global};

/// Puts an item at the end of a list.
pub(crate) fn push<T: Drop>(alloc: Global, list: &mut List<T>, item: T) -> Result<(), AllocError>
    ensures { OnOk result (list.new ≡ list.old ++ item ∷ []) }
{
    match list.push(alloc, item) {
        Ok(()) => Ok(()),
        Err(_) => Err(AllocError),
    }
}
