//! Slots in row-major order of their places.
ghost use Rattle.std.specs.Prelude.{◌≡◌, ◌≤◌, ℕ, length, take, drop, slice_get, Some, [], ◌∷◌, if◌then◌else◌, IfOk, IfErr};
ghost use Rattle.std.specs.List.{AllByRecursion};
ghost use Rattle.std.specs.List.Sorted.{IsStrictlySortedBy};
ghost use Rattle.std.specs.declared.cmp.Ordering.TheVariants.{Less};
ghost use Rattle.ras_index.specs.Index.{row_major, places_in};
ghost use Rattle.ras_index.specs.Slots.{places_of, entries_of, IsCopyOf};

use ras_domain::{Point, Region};
use std::alloc::AllocError;
use std::cmp::Ordering;

/// A place that is ready, with the value that stands there, if one does.
#[derive(Drop)]
pub(crate) struct Slot<V> {
    pub(crate) place: Point,
    pub(crate) value: Option<V>,
}

/// Where the slot of this place stands, or else where it would have to stand.
pub(crate) fn find<V>(slots: &[Slot<V>], place: &Point) -> Result<usize, usize>
    requires sorted { IsStrictlySortedBy row_major (places_of slots.now) }
    ensures found { IfOk result (λ i. slice_get (places_of slots.now) i ≡ Some place.now.items) }
    ensures within { IfErr result (λ i. i ≤ length slots.now) }
    ensures below { IfErr result (λ i. AllByRecursion (λ q. row_major q place.now.items ≡ Less) (take i (places_of slots.now))) }
    ensures above { IfErr result (λ i. AllByRecursion (λ q. row_major place.now.items q ≡ Less) (drop i (places_of slots.now))) }
{
    slots.binary_search_by(
        |slot: &Slot<V>| -> Ordering
            ensures { result ≡ row_major slot.now.place.items place.entry.now.items }
        { slot.place.cmp(place) },
    )
}

/// The slots from this place on.
fn from_place<'a, V>(slots: &'a [Slot<V>], place: &Point) -> &'a [Slot<V>]
    requires { IsStrictlySortedBy row_major (places_of slots.now) }
    ensures sorted { IsStrictlySortedBy row_major (places_of result.now) }
    ensures others { (n : ℕ) × (result.now ≡ drop n slots.now) × AllByRecursion (λ q. row_major q place.now.items ≡ Less) (places_of (take n slots.now)) }
{
    match find(slots, place) {
        Ok(start) | Err(start) => &slots[start..],
    }
}

/// The slots up to this place.
fn upto_place<'a, V>(slots: &'a [Slot<V>], place: &Point) -> &'a [Slot<V>]
    requires { IsStrictlySortedBy row_major (places_of slots.now) }
    ensures others { (n : ℕ) × (result.now ≡ take n slots.now) × AllByRecursion (λ q. row_major place.now.items q ≡ Less) (places_of (drop n slots.now)) }
{
    match find(slots, place) {
        Ok(last) => &slots[..=last],
        Err(end) => &slots[..end],
    }
}

/// The slots from the first point of a box to its last.
pub(crate) fn span<'a, V>(slots: &'a [Slot<V>], places: &Region) -> &'a [Slot<V>]
    requires { IsStrictlySortedBy row_major (places_of slots.now) }
    ensures { places_in places.now (entries_of result.now) ≡ places_in places.now (entries_of slots.now) }
{
    let first = places.first_point();
    let last = places.point_at(places.volume() - 1);
    upto_place(from_place(slots, &first), &last)
}

/// Whether a value stands in the slot and its place lies in the box.
pub(crate) fn is_filled_in<V>(slot: &Slot<V>, places: &Region) -> bool
    ensures { places_in places.now (entries_of (slot.now ∷ [])) ≡ (if result then slot.now.place.items ∷ [] else []) }
{
    slot.value.is_some() && places.contains(&slot.place)
}

/// Takes the value out of each slot.
pub(crate) fn empty<V: Drop>(slots: &mut [Slot<V>])
    ensures places { places_of slots.new ≡ places_of slots.old }
    ensures entries { entries_of slots.new ≡ [] }
{
    for slot in slots.iter_mut() {
        slot.value = None;
    }
}

/// A copy. The error is want of memory.
pub(crate) fn copy_of<V: Clone>(slot: &Slot<V>) -> Result<Slot<V>, AllocError>
    ensures { IfOk result (λ copy. IsCopyOf V.is_clone slot.now copy) }
{
    let place = slot.place.clone()?;
    let value = match &slot.value {
        Some(value) => Some(value.clone()?),
        None => None,
    };
    Ok(Slot { place, value })
}
