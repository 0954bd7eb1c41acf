//! Slots for places that have none yet.
ghost use Rattle.std.specs.Prelude.{◌≡◌, ◌+◌, ◌≤◌, ◌<◌, ◌++◌, ◌⊎◌, ℤ, List, [], map, length, take, drop, reverse, Contains, All, IfOk, OnOk, OnErr};
ghost use Rattle.std.specs.List.Sorted.{IsStrictlySortedBy, IsSorted};
ghost use Rattle.std.specs.Vec.{vec_len, vec_capacity};
ghost use Rattle.ras_index.specs.Index.{row_major};
ghost use Rattle.ras_index.specs.Slots.{places_of, entries_of};

use crate::slot::{Slot, find};
use ras_domain::Point;
use std::alloc::{AllocError, Global};

/// Copies of the places that have no slot.
pub(crate) fn missing<V>(
    alloc: Global,
    slots: &[Slot<V>],
    places: &[Point],
) -> Result<Vec<Point>, AllocError>
    requires { IsStrictlySortedBy row_major (places_of slots.now) }
    ensures { IfOk result (λ missing. All (λ place. Contains (places_of slots.now) place.items ⊎ Contains missing.items place) places.now) }
{
    let mut missing = Vec::new(alloc);
    for place in places {
        if let Err(_) = find(slots, place) {
            missing.push(place.clone()?)?;
        }
    }
    Ok(missing)
}

/// Makes empty slots for the missing places. Where memory is wanting, the slots stay as they were.
pub(crate) fn make_ready<V: Drop>(
    alloc: Global,
    slots: &mut Vec<Slot<V>>,
    mut missing: Vec<Point>,
) -> Result<(), AllocError>
    requires { IsStrictlySortedBy row_major (places_of slots.old.items) }
    ensures sorted { IsStrictlySortedBy row_major (places_of slots.new.items) }
    ensures entries { entries_of slots.new.items ≡ entries_of slots.old.items }
    ensures kept { (q : List ℤ) → Contains (places_of slots.old.items) q → Contains (places_of slots.new.items) q }
    ensures made { OnOk result (All (λ place. Contains (places_of slots.new.items) place.items) missing.items) }
    ensures refused { OnErr result (slots.new.items ≡ slots.old.items) }
{
    if missing.is_empty() {
        return Ok(());
    }
    missing.sort_unstable();
    slots.reserve(missing.len())?;
    let mut above = Vec::with_capacity(alloc, slots.len() + missing.len())?;
    insert_all(slots, &mut above, missing);
    above.reverse();
    slots.append(&mut above)
}

/// Makes slots for the missing places, from the last place to the first. The slots above the first
/// of them end up in `above`, the last first.
fn insert_all<V: Drop>(slots: &mut Vec<Slot<V>>, above: &mut Vec<Slot<V>>, mut missing: Vec<Point>)
    requires sorted { IsStrictlySortedBy row_major (places_of slots.old.items) }
    requires rising { IsSorted (λ p q. row_major p.items q.items) missing.items }
    requires none_above { above.old.items ≡ [] }
    requires room { vec_len slots.old + vec_len missing ≤ vec_capacity slots.old }
    requires room_above { vec_len slots.old + vec_len missing ≤ vec_capacity above.old }
    ensures sorted { IsStrictlySortedBy row_major (places_of (slots.new.items ++ reverse above.new.items)) }
    ensures entries { entries_of (slots.new.items ++ reverse above.new.items) ≡ entries_of slots.old.items }
    ensures kept { (q : List ℤ) → Contains (places_of slots.old.items) q → Contains (places_of (slots.new.items ++ reverse above.new.items)) q }
    ensures made { All (λ place. Contains (places_of (slots.new.items ++ reverse above.new.items)) place.items) missing.items }
    ensures room { vec_len slots.new + vec_len above.new ≤ vec_capacity slots.new }
{
    while let Some(place) = missing.pop() {
        if let Err(end) = find(slots.as_slice(), &place) {
            lift(slots, above, end);
            slots.push_reserved(Slot { place, value: None });
        }
    }
}

/// Moves the slots from this index on to `above`, the last first.
fn lift<V>(slots: &mut Vec<Slot<V>>, above: &mut Vec<Slot<V>>, end: usize)
    requires within { end ≤ vec_len slots.old }
    requires room { vec_len slots.old + vec_len above.old ≤ vec_capacity above.old }
    ensures below { slots.new.items ≡ take end slots.old.items }
    ensures lifted { reverse above.new.items ≡ drop end slots.old.items ++ reverse above.old.items }
    ensures lengths { vec_len slots.new + vec_len above.new ≡ vec_len slots.old + vec_len above.old }
    ensures capacity { vec_capacity slots.new ≡ vec_capacity slots.old }
    ensures capacity_above { vec_capacity above.new ≡ vec_capacity above.old }
{
    while slots.len() > end {
        if let Some(slot) = slots.pop() {
            above.push_reserved(slot);
        }
    }
}
