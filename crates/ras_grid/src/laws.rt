//! Laws of the definitions, each the contract of a function that does nothing.
ghost use Rattle.std.specs.Prelude.{List, ℕ, ℤ, ◌≡◌, ◌≤◌, ◌↔◌, length, Contains};
ghost use Rattle.std.specs.Ordering.{int_cmp};
ghost use Rattle.std.specs.List.Sorted.{IsStrictlySortedBy};
ghost use Rattle.std.specs.Cmp.Lexicographic.{slice_cmp};
ghost use Rattle.ras_domain.specs.declared.region.Interval.{Interval};
ghost use Rattle.ras_domain.specs.Region.{IsIn, IsRegion, points_of};
ghost use Rattle.ras_grid.specs.Runs.{AreConsecutive, items_in};
ghost use Rattle.ras_grid.specs.Grid.{AreFloors, IsGrid, IsParted, Meets, grid_box, places_meeting, tile_in, tile_place};

/// The place of a point is the floor of its coordinates divided by the extents, and nothing else is.
pub fn places_are_floors()
    ensures { (extents : List ℕ) (p place : List ℤ) → IsGrid extents → length p ≡ length extents
        → AreFloors extents p place ↔ (place ≡ tile_place extents p) }
{}

/// A point is in the grid box of a place exactly where that place is its own.
pub fn grid_boxes_follow_places()
    ensures { (extents : List ℕ) (place p : List ℤ) → IsGrid extents
        → length place ≡ length extents → length p ≡ length extents
        → IsIn p (grid_box extents place) ↔ (tile_place extents p ≡ place) }
{}

/// The places that are listed are those whose tiles meet the region.
pub fn listed_places_meet()
    ensures { (extents : List ℕ) (region : List Interval) (place : List ℤ) → IsGrid extents
        → IsRegion region → length region ≡ length extents
        → Contains (places_meeting extents region) place ↔ Meets extents place region }
{}

/// They are listed in row-major order, each once.
pub fn listed_places_ascend()
    ensures { (extents : List ℕ) (region : List Interval)
        → IsStrictlySortedBy (slice_cmp int_cmp) (places_meeting extents region) }
{}

/// They are no more than the region has points.
pub fn places_are_no_more_than_points()
    ensures { (extents : List ℕ) (region : List Interval) → IsGrid extents → IsRegion region
        → length region ≡ length extents
        → length (places_meeting extents region) ≤ length (points_of region) }
{}

/// The part of a domain in a tile that it meets is a region.
pub fn tiles_are_regions()
    ensures { (extents : List ℕ) (domain : List Interval) (place : List ℤ) → IsRegion domain
        → length domain ≡ length extents → Meets extents place domain
        → IsRegion (tile_in extents domain place) }
{}

/// The tiles that meet a domain part it.
pub fn tiles_part_a_domain()
    ensures { (extents : List ℕ) (domain : List Interval) → IsGrid extents → IsRegion domain
        → length domain ≡ length extents → IsParted extents domain }
{}

/// A row of runs of a list's places parts the list: the items in the runs, one run after another,
/// are the list again.
pub fn rows_part_a_list<T>()
    ensures { (xs : List T) (runs : List (ℕ × ℕ)) → AreConsecutive 0 runs (length xs) → items_in xs runs ≡ xs }
{}
