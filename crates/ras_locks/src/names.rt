//! The holders of each lock, by its name.
ghost use Rattle.std.specs.Prelude.{◌≡◌, ℕ, if◌then◌else◌, OnOk, List, slice_get, Some};
ghost use Rattle.ras_domain.specs.declared.lock.LockName.{LockName as Named};
ghost use Rattle.ras_domain.specs.declared.lock.Mode.{Mode as Held};
ghost use Rattle.ras_locks.specs.Holders.{with_holder, without_owner};
ghost use Rattle.ras_locks.specs.Tables.{equals_lock_name, holders_in, IsReadyAt, lists_name, with_locks};

use crate::holders::{Holder, Holders, hold, let_go};
use indexmap::IndexMap;
use ras_domain::{LockList, LockName, Mode};
use smallvec::SmallVec;
use std::alloc::{AllocError, Global};

/// The holders of each lock that has an entry.
pub(crate) type Names = IndexMap<LockName, Holders>;

/// The holders of a lock, none where it has no entry.
pub(crate) fn holders_at<'a>(names: &'a Names, name: &LockName) -> &'a [Holder]
    ensures { result.now ≡ holders_in names.now.entries name.now }
{
    match names.get(name) {
        Some(holders) => holders.as_slice(),
        None => &[],
    }
}

/// Makes room for one more holder of a lock. All holders stay.
pub(crate) fn make_room(alloc: Global, names: &mut Names, name: &LockName) -> Result<(), AllocError>
    ensures holders { (other : Named) → holders_in names.new.entries other ≡ holders_in names.old.entries other }
    ensures room { (owner : ℕ) → OnOk result (IsReadyAt names.new.entries name.now owner) }
    ensures kept { (other : Named) (owner : ℕ) → IsReadyAt names.old.entries other owner → IsReadyAt names.new.entries other owner }
{
    match names.get_mut(name) {
        Some(holders) => return holders.reserve(1),
        None => {}
    }
    let name = name.try_clone(alloc)?;
    names.insert(name, SmallVec::new(alloc))?;
    Ok(())
}

/// Puts an owner among the holders of a lock, where the stronger of two modes stays. It takes no
/// memory.
pub(crate) fn hold_at(names: &mut Names, name: &LockName, owner: u32, mode: Mode)
    requires { IsReadyAt names.old.entries name.now owner }
    ensures holders { (other : Named) → holders_in names.new.entries other
        ≡ (if equals_lock_name name.now other then with_holder owner mode (holders_in names.old.entries other)
        else holders_in names.old.entries other) }
    ensures kept { (other : Named) → IsReadyAt names.old.entries other owner → IsReadyAt names.new.entries other owner }
{
    match names.get_mut(name) {
        Some(holders) => hold(holders, owner, mode),
        None => {}
    }
}

/// Puts an owner among the holders of each lock of a list. It takes no memory.
pub(crate) fn hold_all(names: &mut Names, list: &LockList, owner: u32)
    requires { (place : ℕ) (lock : Named × Held) → slice_get list.now place ≡ Some lock → IsReadyAt names.old.entries lock.0 owner }
    ensures { (other : Named) → holders_in names.new.entries other ≡ with_locks list.now owner other (holders_in names.old.entries other) }
{
    for place in 0..list.len() {
        let (name, mode) = list.get(place);
        hold_at(names, name, owner, mode);
    }
}

/// Takes an owner from the holders of a lock.
fn take_out(names: &mut Names, name: &LockName, owner: u32)
    ensures { (other : Named) → holders_in names.new.entries other
        ≡ (if equals_lock_name name.now other then without_owner owner (holders_in names.old.entries other)
        else holders_in names.old.entries other) }
{
    match names.get_mut(name) {
        Some(holders) => let_go(holders, owner),
        None => {}
    }
}

/// Gives an entry with no holder back. All holders stay.
fn drop_empty(names: &mut Names, name: &LockName)
    ensures { (other : Named) → holders_in names.new.entries other ≡ holders_in names.old.entries other }
{
    if holders_at(names, name).is_empty() {
        names.swap_remove(name);
    }
}

/// Takes an owner from the holders of a lock. An entry that has no holder then goes.
fn let_go_at(names: &mut Names, name: &LockName, owner: u32)
    ensures { (other : Named) → holders_in names.new.entries other
        ≡ (if equals_lock_name name.now other then without_owner owner (holders_in names.old.entries other)
        else holders_in names.old.entries other) }
{
    take_out(names, name, owner);
    drop_empty(names, name);
}

/// Takes an owner from the holders of these locks.
pub(crate) fn let_go_all(names: &mut Names, listed: &[LockName], owner: u32)
    ensures { (other : Named) → holders_in names.new.entries other
        ≡ (if lists_name other listed.now then without_owner owner (holders_in names.old.entries other)
        else holders_in names.old.entries other) }
{
    for name in listed {
        let_go_at(names, name, owner);
    }
}
