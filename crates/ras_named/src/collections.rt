//! Collections by their names.
ghost use Rattle.std.specs.Prelude.{◌≡◌, ℕ, List, Option};

use ras_domain::Name;
use ras_store::{Store, View};

/// Collections by their names, however they are kept.
pub trait Collections {
    /// The place of each collection's type among the types, none where there is no such collection.
    ghost places: { Self → List ℕ → Option ℕ };

    /// The place of the type of the collection of this name, none where there is no such collection.
    fn place_of(&self, name: &Name) -> Option<u32>
        ensures { result ≡ places self.now name.now };
}

impl Collections for Store {
    ghost use Rattle.ras_domain.specs.declared.lock.LockName.TheVariants.{Collection};
    ghost use Rattle.ras_named.specs.Places.{place_kept};
    ghost use Rattle.ras_store.specs.Store.{store_kept};

    ghost places = { λ store name. place_kept (store_kept store (Collection name)) };

    fn place_of(&self, name: &Name) -> Option<u32> {
        match self.members(name) {
            Some(info) => Some(info.set_type),
            None => None,
        }
    }
}

impl Collections for View {
    ghost use Rattle.ras_domain.specs.declared.lock.LockName.TheVariants.{Collection};
    ghost use Rattle.ras_named.specs.Places.{place_kept};
    ghost use Rattle.ras_store.specs.View.{view_kept};

    ghost places = { λ view name. place_kept (view_kept view (Collection name)) };

    fn place_of(&self, name: &Name) -> Option<u32> {
        match self.members(name) {
            Some(info) => Some(info.set_type),
            None => None,
        }
    }
}
