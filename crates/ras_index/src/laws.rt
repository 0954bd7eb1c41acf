//! Laws of the definitions, each the contract of a function that does nothing.
ghost use Rattle.std.specs.Prelude.{List, ℤ, ◌≡◌, Some, None};
ghost use Rattle.std.specs.List.Sorted.{IsStrictlySortedBy};
ghost use Rattle.std.specs.Map.{keys_of, remove_entry};
ghost use Rattle.std.specs.BTreeMap.{insert_entry, is_at};
ghost use Rattle.ras_index.specs.Index.{row_major, value_at};

/// After a value is put at a place, it is the one there, and every other place has what it had.
pub fn a_put_changes_one_place<V>()
    ensures here { (entries : List (List ℤ × V)) (place : List ℤ) (value : V)
        → value_at (insert_entry row_major entries place value) place ≡ Some value }
    ensures elsewhere { (entries : List (List ℤ × V)) (place other : List ℤ) (value : V)
        → ¬ (other ≡ place) → value_at (insert_entry row_major entries place value) other ≡ value_at entries other }
{}

/// After the value at a place is taken out, none is there, and every other place has what it had.
pub fn a_removal_changes_one_place<V>()
    ensures here { (entries : List (List ℤ × V)) (place : List ℤ) → IsStrictlySortedBy row_major (keys_of entries)
        → value_at (remove_entry (is_at (row_major place)) entries) place ≡ None }
    ensures elsewhere { (entries : List (List ℤ × V)) (place other : List ℤ) → IsStrictlySortedBy row_major (keys_of entries)
        → ¬ (other ≡ place) → value_at (remove_entry (is_at (row_major place)) entries) other ≡ value_at entries other }
{}
