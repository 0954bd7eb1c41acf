//! The names of the locks of each owner.
ghost use Rattle.std.specs.Prelude.{◌≡◌, ℕ, true, OnOk};
ghost use Rattle.ras_domain.specs.declared.lock.LockName.{LockName as Named};
ghost use Rattle.ras_locks.specs.Tables.{names_in, lists_name};

use indexmap::IndexMap;
use ras_domain::{List, LockName};
use std::alloc::{AllocError, Global};

/// The names that were made ready for each owner.
pub(crate) type Owners = IndexMap<u32, List<LockName>>;

/// Puts a name at the end of a list. The error is want of memory.
fn put(alloc: Global, names: &mut List<LockName>, name: LockName) -> Result<(), AllocError>
    ensures kept { (one : Named) → lists_name one names.old ≡ true → lists_name one names.new ≡ true }
    ensures listed { OnOk result (lists_name name names.new ≡ true) }
{
    match names.push(alloc, name) {
        Ok(()) => Ok(()),
        Err(_) => Err(AllocError),
    }
}

/// Lists a name under its owner. All names that are listed stay. The error is want of memory.
pub(crate) fn list_name(
    alloc: Global,
    owners: &mut Owners,
    name: &LockName,
    owner: u32,
) -> Result<(), AllocError>
    ensures kept { (other : ℕ) (one : Named) → lists_name one (names_in owners.old.entries other) ≡ true
        → lists_name one (names_in owners.new.entries other) ≡ true }
    ensures listed { OnOk result (lists_name name.now (names_in owners.new.entries owner) ≡ true) }
{
    let name = name.try_clone(alloc)?;
    if let Some(names) = owners.get_mut(&owner) {
        return put(alloc, names, name);
    }
    let mut names = List::new(alloc);
    put(alloc, &mut names, name)?;
    owners.insert(owner, names)?;
    Ok(())
}
