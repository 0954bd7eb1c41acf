//! The holders of one lock, in the order of owners.
ghost use Rattle.std.specs.Prelude.{◌≡◌, ◌≤◌, ◌==◌, nat_le, not, length};
ghost use Rattle.std.specs.List.{position_or_len};
ghost use Rattle.ras_locks.specs.Holders.{blocker, has_place, is_among, is_exclusive, is_owner_at, raised, stands_against, with_holder, without_owner, HasRoomToHold};
ghost use Rattle.spec_statements.specs.Locks.{stronger as stronger_of};

use ras_domain::Mode;
use smallvec::SmallVec;
use std::alloc::Global;
use std::default::MadeWith;

/// A transaction that holds a lock, and how it holds it.
#[derive(Clone, Copy, Debug, PartialEq, Eq)]
pub struct Holder {
    /// The number of the transaction.
    pub owner: u32,
    pub mode: Mode,
}

impl MadeWith<Global> for Holder {
    fn made_with(_alloc: Global) -> Holder {
        Holder {
            owner: 0,
            mode: Mode::Shared,
        }
    }
}

/// The holders of one lock: most locks have few.
pub(crate) type Holders = SmallVec<Holder, 4>;

fn is_exclusive(mode: Mode) -> bool
    ensures { result ≡ is_exclusive mode }
{
    match mode {
        Mode::Exclusive => true,
        Mode::Shared => false,
    }
}

/// Whether this holder stands against a lock that another one asks for in this mode.
fn stands_against(holder: &Holder, owner: u32, mode: Mode) -> bool
    ensures { result ≡ stands_against owner mode holder.now }
{
    holder.owner != owner && (is_exclusive(mode) || is_exclusive(holder.mode))
}

/// The first holder that stands against a lock that is asked for.
pub(crate) fn conflicting(holders: &[Holder], owner: u32, mode: Mode) -> Option<u32>
    ensures { result ≡ blocker owner mode holders.now }
{
    for holder in holders {
        if stands_against(holder, owner, mode) {
            return Some(holder.owner);
        }
    }
    None
}

/// Whether this transaction is among the holders.
pub(crate) fn holds(holders: &[Holder], owner: u32) -> bool
    ensures { result ≡ is_among owner holders.now }
{
    holders.iter().any(|holder| holder.owner == owner)
}

/// Where this transaction stands among the holders, or where it would have to stand.
fn place_of(holders: &[Holder], owner: u32) -> usize
    ensures place { result ≡ position_or_len (λ holder. nat_le owner holder.owner) holders.now }
    ensures within { result ≤ length holders.now }
{
    for (place, holder) in holders.iter().enumerate() {
        if owner <= holder.owner {
            return place;
        }
    }
    holders.len()
}

/// Whether this transaction is the holder at a place.
fn is_owner_at(holders: &[Holder], place: usize, owner: u32) -> bool
    ensures { result ≡ is_owner_at owner holders.now place }
{
    match holders.get(place) {
        Some(holder) => holder.owner == owner,
        None => false,
    }
}

/// The stronger of two modes.
fn stronger(mode: Mode, other: Mode) -> Mode
    ensures { result ≡ stronger_of mode other }
{
    match mode {
        Mode::Exclusive => Mode::Exclusive,
        Mode::Shared => other,
    }
}

/// Gives the holder at a place the stronger of its mode and this one.
fn raise(holders: &mut Holders, place: usize, mode: Mode)
    ensures items { holders.new.items ≡ raised mode holders.old.items place }
    ensures capacity { holders.new.capacity ≡ holders.old.capacity }
{
    match holders.get_mut(place) {
        Some(holder) => holder.mode = stronger(mode, holder.mode),
        None => {}
    }
}

/// Puts a transaction among the holders. One that is there keeps the stronger of both modes. It
/// takes no memory.
pub(crate) fn hold(holders: &mut Holders, owner: u32, mode: Mode)
    requires { HasRoomToHold owner holders.old }
    ensures { holders.new.items ≡ with_holder owner mode holders.old.items }
{
    let place = place_of(holders.as_slice(), owner);
    if is_owner_at(holders.as_slice(), place, owner) {
        raise(holders, place, mode);
    } else {
        let _room_was_reserved = holders.insert(place, Holder { owner, mode });
    }
}

/// Takes a transaction out of the holders.
pub(crate) fn let_go(holders: &mut Holders, owner: u32)
    ensures { holders.new.items ≡ without_owner owner holders.old.items }
{
    holders.retain(
        |holder: &mut Holder| -> bool
            ensures { (result ≡ not (holder.old.owner == owner)) × (holder.new ≡ holder.old) }
        { holder.owner != owner },
    );
}
