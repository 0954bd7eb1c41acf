//! Laws of the definitions, each the contract of a function that does nothing.
ghost use Rattle.std.specs.Prelude.{List, ℤ, ℕ, ◌≡◌, ◌<◌, ◌↔◌, false, length, All, Contains, IsTrue};
ghost use Rattle.std.specs.List.{remove};
ghost use Rattle.std.specs.Ordering.{int_cmp};
ghost use Rattle.std.specs.List.Sorted.{IsStrictlySortedBy};
ghost use Rattle.std.specs.Cmp.Lexicographic.{slice_cmp};
ghost use Rattle.ras_domain.specs.declared.region.Interval.{Interval};
ghost use Rattle.ras_domain.specs.declared.region.DomainFault.{DomainFault};
ghost use Rattle.ras_domain.specs.Region.{points_of, IsIn, IsOrdered, IsRegion, HasDomainFault, is_empty, is_in, volume_of};
ghost use Rattle.ras_domain.specs.Boxes.{Covers, LiesIn, IsMeeting, IsHull, IsShifted, IsCut, is_same_box, lies_in, meet_of, hull_of, moved_by, shifted_by};

/// The points of a box are those with one coordinate from each interval.
pub fn points_are_those_within()
    ensures { (axes : List Interval) (p : List ℤ) → Contains (points_of axes) p ↔ IsIn p axes }
{}

/// The points of a box stand in row-major order, each once.
pub fn rows_ascend()
    ensures { (axes : List Interval) → IsStrictlySortedBy (slice_cmp int_cmp) (points_of axes) }
{}

/// A box has at most one fault.
pub fn faults_exclude_each_other()
    ensures { (axes : List Interval) (f g : DomainFault) → HasDomainFault axes f → HasDomainFault axes g → f ≡ g }
{}

/// A region has no fault.
pub fn regions_have_no_fault()
    ensures { (axes : List Interval) (f : DomainFault) → IsRegion axes → ¬ HasDomainFault axes f }
{}

/// Two regions with the same points are the same.
pub fn regions_are_their_points()
    ensures { (a b : List Interval) → IsRegion a → IsRegion b → ((p : List ℤ) → IsIn p a ↔ IsIn p b) → a ≡ b }
{}

/// The box made axis by axis from the greater lower and the lesser upper bounds has the points of
/// both boxes.
pub fn meeting_has_the_points_in_both()
    ensures { (a b : List Interval) → length a ≡ length b → IsMeeting (meet_of a b) a b }
{}

/// The box made axis by axis from the lesser lower and the greater upper bounds is the hull.
pub fn hull_is_the_least_box()
    ensures { (a b : List Interval) → length a ≡ length b → All IsOrdered a → All IsOrdered b → IsHull (hull_of a b) a b }
{}

/// A point is in a box exactly where the moved point is in the moved box.
pub fn shifted_points_are_in_the_shifted_box()
    ensures { (d : List ℤ) (axes : List Interval) → IsShifted d axes (shifted_by d axes) }
{}

/// Each point of a moved box is a moved point of the box.
pub fn shifted_box_has_shifted_points_alone()
    ensures { (d : List ℤ) (axes : List Interval) (q : List ℤ) → IsIn q (shifted_by d axes)
        → (p : List ℤ) × IsIn p axes × (q ≡ moved_by d p) }
{}

/// Without one interval, a box has its points with that coordinate left out.
pub fn cut_box_has_the_cut_points()
    ensures { (axis : ℕ) (axes : List Interval) → All IsOrdered axes → axis < length axes → IsCut axis axes (remove axes axis) }
{}

/// The volume of a box is the number of its points.
pub fn volumes_count_points()
    ensures { (axes : List Interval) → volume_of axes ≡ length (points_of axes) }
{}

/// The tests of points and boxes are right: a point is found in a box exactly where it is in it, an
/// interval is empty exactly where its bounds fall, and two boxes are found to be the same exactly
/// where they are.
pub fn tests_say_what_they_test()
    ensures points { (p : List ℤ) (axes : List Interval) → IsTrue (is_in p axes) ↔ IsIn p axes }
    ensures ordered { (axis : Interval) → is_empty axis ≡ false ↔ IsOrdered axis }
    ensures same { (a b : List Interval) → IsTrue (is_same_box a b) ↔ a ≡ b }
    ensures within { (small big : List Interval) → IsTrue (lies_in small big) ↔ LiesIn small big }
{}

/// A box whose intervals lie within those of another one has no other points.
pub fn boxes_within_are_covered()
    ensures { (small big : List Interval) → LiesIn small big → Covers big small }
{}
