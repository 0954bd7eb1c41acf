//! Worked expressions: what the definitions give, by computing. Each law is the contract of a
//! function that does nothing. Above a row, or above rows of one text, stands the text; a and b are
//! the first and the second iterator.
ghost use Rattle.std.specs.Prelude.{◌≡◌, pos, negsuc, [], ◌∷◌, codes, Ok, Err, false, true};
ghost use Rattle.ras_cells.specs.declared.atom.Atom.TheVariants as atoms;
ghost use Rattle.ras_cells.specs.declared.cell.Cell.TheVariants.{Null, Value};
ghost use Rattle.ras_cells.specs.declared.cell.CellFault.TheVariants.{Overflow, DivideByZero, CastRange, IndexOut};
ghost use Rattle.ras_cells.specs.declared.numbers.Op2.TheVariants as two;
ghost use Rattle.ras_syntax.specs.declared.expr.CellsFold.TheVariants as folds;
ghost use Rattle.ras_syntax.specs.declared.expr.FoldOp.TheVariants as sums;
ghost use Rattle.ras_syntax.specs.declared.faults.ShapeFault.TheVariants.{Outside, DomainsDiffer, ExtentsDiffer, EmptyDomain, BoundOut, ArrayTooLarge};
ghost use Rattle.spec_expressions.specs.Eval.{cells_of};
ghost use Rattle.spec_expressions.specs.Shape.{shape_of, array, scalar, box};
ghost use Rattle.spec_expressions.specs.Tree.{node, truth, number, iterator, coordinate, unary, cast, binary, index, at_point, component, choice, composite, marray, condense, folded, shift, extend, concat, domain_of, bound_of, oid, lower, upper, no_trees, trees, no_pairs, pairs, no_axes, position, trim, own, edge, bounds, domain_like, always, only_where};
ghost use Rattle.spec_expressions.specs.Worked.{axis, square, line_box, over_G, over_N, over_R, term, a, n, minus, op, p, trimmed, from_to, numbers, naturals, somewhere, wide_kind, nothing, line_of, pair_of_chars, one_and_two, rgb_line};

/// Sums and extremes of whole arrays. Over nulls alone a sum is 0 and an extreme is null.
pub fn folds_of_arrays()
    // add_cells(a)
    ensures sum { cells_of over_G (term (folded folds.Add a)) ≡ Ok (naturals (120 ∷ [])) }
    // min_cells(a)
    ensures least { cells_of over_G (term (folded folds.Min a)) ≡ Ok (naturals (0 ∷ [])) }
    // add_cells(a)
    ensures null_sum { cells_of over_N (term (folded folds.Add a)) ≡ Ok (naturals (0 ∷ [])) }
    // min_cells(a)
    ensures null_least { cells_of over_N (term (folded folds.Min a)) ≡ Ok (Null ∷ []) }
    // max_cells(a)
    ensures greatest { cells_of over_G (term (folded folds.Max a)) ≡ Ok (naturals (15 ∷ [])) }
    // all_cells(a < 15)
    ensures all { cells_of over_G (term (folded folds.AllTrue (op two.Lt a (n 15)))) ≡ Ok (naturals (0 ∷ [])) }
    // some_cells(a < 1)
    ensures some { cells_of over_G (term (folded folds.AnyTrue (op two.Lt a (n 1)))) ≡ Ok (naturals (1 ∷ [])) }
    // all_cells(a = 1)
    ensures all_of_nulls { cells_of over_N (term (folded folds.AllTrue (op two.Eq a (n 1)))) ≡ Ok (naturals (1 ∷ [])) }
    // some_cells(a = 0)
    ensures some_of_nulls { cells_of over_N (term (folded folds.AnyTrue (op two.Eq a (n 0)))) ≡ Ok (naturals (0 ∷ [])) }
    // count_cells(a < 4)
    ensures counted { cells_of over_G (term (folded folds.Count (op two.Lt a (n 4)))) ≡ Ok (naturals (4 ∷ [])) }
{}

/// Trims keep their axes and positions remove them.
pub fn indexes_of_arrays()
    // a[1:2, 1:2]
    ensures trims_shape { shape_of (square ∷ []) (trimmed 1 2 1 2) ≡ Ok (array (axis (pos 1) (pos 2) ∷ axis (pos 1) (pos 2) ∷ [])) }
    ensures trims { cells_of over_G (trimmed 1 2 1 2) ≡ Ok (naturals (5 ∷ 6 ∷ 9 ∷ 10 ∷ [])) }
    // a[1:2, 0]
    ensures column { cells_of over_G (term (index a (trim (edge (n 1)) (edge (n 2)) (position (n 0) no_axes)))) ≡ Ok (naturals (4 ∷ 8 ∷ [])) }
    // a[2, 3]
    ensures cell { cells_of over_G (term (index a (position (n 2) (position (n 3) no_axes)))) ≡ Ok (naturals (11 ∷ [])) }
    ensures cell_shape { shape_of (square ∷ []) (term (index a (position (n 2) (position (n 3) no_axes)))) ≡ Ok scalar }
{}

/// An array that is made of an expression, a position that depends on its variable, and a position
/// outside.
pub fn arrays_that_are_made()
    // marray p in [0:3] values add_cells(a[p[0], *:*])
    ensures sums { cells_of over_G (term (marray (codes "p") (from_to 0 3) (term (folded folds.Add (term (index a (position (p 0) (trim own own no_axes)))))))) ≡ Ok (naturals (6 ∷ 22 ∷ 38 ∷ 54 ∷ [])) }
    // marray p in [0:3] values a[p[0], p[0] + 1]
    ensures outside { cells_of over_G (term (marray (codes "p") (from_to 0 3) (term (index a (position (p 0) (position (op two.Add (p 0) (n 1)) no_axes)))))) ≡ Err (pos 3 ∷ [], IndexOut) }
    // marray p in [1:1, 2:3] values a[p]
    ensures at_the_point { cells_of over_G (term (marray (codes "p") (bounds (pairs (n 1) (n 1) (pairs (n 2) (n 3) no_pairs))) (term (at_point a (codes "p"))))) ≡ Ok (naturals (6 ∷ 7 ∷ [])) }
{}

/// Quotients and remainders of scalars, at the ends of 64 bits too.
pub fn divisions_of_scalars()
    // mod(-7, 2)
    ensures remainder { cells_of over_G (op two.Mod (minus (n 7)) (n 2)) ≡ Ok (numbers (negsuc 0 ∷ [])) }
    // div(-9223372036854775807 - 1, -1)
    ensures overflow { cells_of over_G (op two.Div (op two.Sub (minus (n 9223372036854775807)) (n 1)) (minus (n 1))) ≡ Err ([], Overflow) }
    // mod(-9223372036854775807 - 1, -1)
    ensures no_rest { cells_of over_G (op two.Mod (op two.Sub (minus (n 9223372036854775807)) (n 1)) (minus (n 1))) ≡ Ok (naturals (0 ∷ [])) }
{}

/// The least fault in row-major order is the fault of the whole, wherever the tiles are cut.
pub fn least_faults_of_arrays()
    // div(1, (a - 4) * (a - 2))
    ensures divisor { cells_of over_G (op two.Div (n 1) (op two.Mul (op two.Sub a (n 4)) (op two.Sub a (n 2)))) ≡ Err (pos 0 ∷ pos 2 ∷ [], DivideByZero) }
    // (char) (a * 20)
    ensures range { cells_of over_G (term (cast atoms.Char (op two.Mul a (n 20)))) ≡ Err (pos 3 ∷ pos 1 ∷ [], CastRange) }
{}

/// A fold is exact: its numbers may leave 64 bits on the way, and only its end must not.
pub fn folds_are_exact()
    // condense + over p in [0:2]
    //   using case when p[0] = 2 then -9223372036854775807 else 9223372036854775807 end
    ensures back_within { cells_of over_G (term (condense sums.Plus (codes "p") (from_to 0 2) always (term (choice (pairs (op two.Eq (p 0) (n 2)) (minus (n 9223372036854775807)) no_pairs) (n 9223372036854775807))))) ≡ Ok (naturals (9223372036854775807 ∷ [])) }
    // condense * over p in [1:20] using p[0]
    ensures product { cells_of over_G (term (condense sums.Times (codes "p") (from_to 1 20) always (p 0))) ≡ Ok (naturals (2432902008176640000 ∷ [])) }
    // condense * over p in [1:25] using p[0]
    ensures overflow { cells_of over_G (term (condense sums.Times (codes "p") (from_to 1 25) always (p 0))) ≡ Err ([], Overflow) }
    // condense * over p in [0:25] using p[0]
    ensures zero { cells_of over_G (term (condense sums.Times (codes "p") (from_to 0 25) always (p 0))) ≡ Ok (naturals (0 ∷ [])) }
    // condense + over p in [0:5] where mod(p[0], 2) = 0 using p[0]
    ensures where_even { cells_of over_G (term (condense sums.Plus (codes "p") (from_to 0 5) (only_where (op two.Eq (op two.Mod (p 0) (n 2)) (n 0))) (p 0))) ≡ Ok (naturals (6 ∷ [])) }
    // condense * over p in [0:5] where (condense max over q in [0:0] where false using 1) = 1
    //   using p[0]
    ensures null_condition { cells_of over_G (term (condense sums.Times (codes "p") (from_to 0 5) (only_where (op two.Eq nothing (n 1))) (p 0))) ≡ Ok (naturals (1 ∷ [])) }
    // condense + over p in [0:5] where div(1, 0) = 1 using (char) 256
    ensures faulty_condition { cells_of over_G (term (condense sums.Plus (codes "p") (from_to 0 5) (only_where (op two.Eq (op two.Div (n 1) (n 0)) (n 1))) (term (cast atoms.Char (n 256))))) ≡ Err ([], DivideByZero) }
    // condense + over p in [0:1] using case when p[0] = 0 then (char) 256 else div(1, 0) end
    ensures first_fault { cells_of over_G (term (condense sums.Plus (codes "p") (from_to 0 1) always (term (choice (pairs (op two.Eq (p 0) (n 0)) (term (cast atoms.Char (n 256))) no_pairs) (op two.Div (n 1) (n 0)))))) ≡ Err ([], CastRange) }
    // condense and over p in [0:5] where false using false
    ensures no_and { cells_of over_G (term (condense sums.And (codes "p") (from_to 0 5) (only_where (term (truth false))) (term (truth false)))) ≡ Ok (naturals (1 ∷ [])) }
    // condense or over p in [0:5] where false using true
    ensures no_or { cells_of over_G (term (condense sums.Or (codes "p") (from_to 0 5) (only_where (term (truth false))) (term (truth true)))) ≡ Ok (naturals (0 ∷ [])) }
    // condense min over p in [0:5] where false using p[0]
    ensures no_least { cells_of over_G (term (condense sums.Min (codes "p") (from_to 0 5) (only_where (term (truth false))) (p 0))) ≡ Ok (Null ∷ []) }
    // condense min over p in [2:5] using p[0]
    ensures least_of_some { cells_of over_G (term (condense sums.Min (codes "p") (from_to 2 5) always (p 0))) ≡ Ok (naturals (2 ∷ [])) }
    // condense max over p in [2:5] using -p[0]
    ensures greatest_of_negatives { cells_of over_G (term (condense sums.Max (codes "p") (from_to 2 5) always (minus (p 0)))) ≡ Ok (numbers (negsuc 1 ∷ [])) }
    // condense max over p in [2:5] using p[0]
    ensures greatest_of_some { cells_of over_G (term (condense sums.Max (codes "p") (from_to 2 5) always (p 0))) ≡ Ok (naturals (5 ∷ [])) }
    // condense max over p in [0:5] where false using p[0]
    ensures nowhere { cells_of over_G (term (condense sums.Max (codes "p") (from_to 0 5) (only_where (term (truth false))) (p 0))) ≡ Ok (Null ∷ []) }
{}

/// Arrays side by side, moved, and made larger.
pub fn arrays_from_parts()
    // concat a[0:0, 0:3] with a[3:3, 0:3] along 0
    ensures concat_shape { shape_of (square ∷ []) (term (concat (trees (trimmed 0 0 0 3) (trees (trimmed 3 3 0 3) no_trees)) (pos 0))) ≡ Ok (array (axis (pos 0) (pos 1) ∷ axis (pos 0) (pos 3) ∷ [])) }
    ensures concat_cells { cells_of over_G (term (concat (trees (trimmed 0 0 0 3) (trees (trimmed 3 3 0 3) no_trees)) (pos 0))) ≡ Ok (naturals (0 ∷ 1 ∷ 2 ∷ 3 ∷ 12 ∷ 13 ∷ 14 ∷ 15 ∷ [])) }
    // concat a[0:0, 0:1] with a[3:3, 2:3] along 0
    ensures moved_along_0 { cells_of over_G (term (concat (trees (trimmed 0 0 0 1) (trees (trimmed 3 3 2 3) no_trees)) (pos 0))) ≡ Ok (naturals (0 ∷ 1 ∷ 14 ∷ 15 ∷ [])) }
    // concat a[0:1, 0:0] with a[2:3, 3:3] along 1
    ensures moved_along_1 { cells_of over_G (term (concat (trees (trimmed 0 1 0 0) (trees (trimmed 2 3 3 3) no_trees)) (pos 1))) ≡ Ok (naturals (0 ∷ 11 ∷ 4 ∷ 15 ∷ [])) }
    // concat a[1:2, 0:0] with a[0:0, 3:3] with a[3:3, 1:1] along 0
    ensures three_parts { shape_of (square ∷ []) (term (concat (trees (trimmed 1 2 0 0) (trees (trimmed 0 0 3 3) (trees (trimmed 3 3 1 1) no_trees))) (pos 0))) ≡ Ok (array (axis (pos 1) (pos 4) ∷ axis (pos 0) (pos 0) ∷ [])) }
    // extend(a, [0:2])
    ensures extended_composite { cells_of over_R (node somewhere rgb_line (extend a (from_to 0 2))) ≡ Ok (Value (record { items = pos 0 ∷ pos 10 ∷ pos 20 ∷ [] }) ∷ Value (record { items = pos 1 ∷ pos 10 ∷ pos 20 ∷ [] }) ∷ Value (record { items = pos 0 ∷ pos 0 ∷ pos 0 ∷ [] }) ∷ []) }
    // marray p in sdom(a[1:2, 0:0]) values p[0]
    ensures like_another { cells_of over_G (term (marray (codes "p") (domain_like (term (domain_of (trimmed 1 2 0 0)))) (p 0))) ≡ Ok (naturals (1 ∷ 2 ∷ [])) }
    // extend(a[1:1, 1:1], [0:1, 0:1])
    ensures extended { cells_of over_G (term (extend (trimmed 1 1 1 1) (bounds (pairs (n 0) (n 1) (pairs (n 0) (n 1) no_pairs))))) ≡ Ok (naturals (0 ∷ 0 ∷ 0 ∷ 5 ∷ [])) }
    // shift(a[3:3, 3:3], [-3, -3])
    ensures shifted_shape { shape_of (square ∷ []) (term (shift (trimmed 3 3 3 3) (trees (minus (n 3)) (trees (minus (n 3)) no_trees)))) ≡ Ok (array (axis (pos 0) (pos 0) ∷ axis (pos 0) (pos 0) ∷ [])) }
    ensures shifted { cells_of over_G (term (shift (trimmed 3 3 3 3) (trees (minus (n 3)) (trees (minus (n 3)) no_trees)))) ≡ Ok (naturals (15 ∷ [])) }
    // shift(a[1:1, 0:3], [-1, 0]) overlay a[0:0, 0:3]
    ensures overlaid { cells_of over_G (op two.Overlay (term (shift (trimmed 1 1 0 3) (trees (minus (n 1)) (trees (n 0) no_trees)))) (trimmed 0 0 0 3)) ≡ Ok (naturals (4 ∷ 1 ∷ 2 ∷ 3 ∷ [])) }
{}

/// Composite cells, and nulls.
pub fn components_and_nulls()
    // a.1
    ensures green { cells_of over_R (term (component a (pos 1))) ≡ Ok (naturals (10 ∷ 10 ∷ [])) }
    // a
    ensures whole { cells_of over_R a ≡ Ok (Value (record { items = pos 0 ∷ pos 10 ∷ pos 20 ∷ [] }) ∷ Value (record { items = pos 1 ∷ pos 10 ∷ pos 20 ∷ [] }) ∷ []) }
    // {1, -2}
    ensures built { cells_of over_G (term (composite (trees (n 1) (trees (minus (n 2)) no_trees)))) ≡ Ok (Value (record { items = pos 1 ∷ negsuc 1 ∷ [] }) ∷ []) }
    // a + 1
    ensures null_cells { cells_of over_N (op two.Add a (n 1)) ≡ Ok (Null ∷ Null ∷ Null ∷ Null ∷ []) }
    // div(a, 0)
    ensures null_divided { cells_of over_N (op two.Div a (n 0)) ≡ Ok (Null ∷ Null ∷ Null ∷ Null ∷ []) }
    // case when a = 0 then 1 else 2 end
    ensures null_is_false { cells_of over_N (term (choice (pairs (op two.Eq a (n 0)) (n 1) no_pairs) (n 2))) ≡ Ok (naturals (2 ∷ 2 ∷ 2 ∷ 2 ∷ [])) }
    // oid(a)
    ensures identifier { cells_of over_G (term (oid (codes "a"))) ≡ Ok (naturals (1 ∷ [])) }
    // sdom(a[0:1, 0:2])[1].hi
    ensures upper_bound { cells_of over_G (term (bound_of upper (trimmed 0 1 0 2) (pos 1))) ≡ Ok (naturals (2 ∷ [])) }
    // sdom(a[1:2, 0:0])[0].lo
    ensures lower_bound { cells_of over_G (term (bound_of lower (trimmed 1 2 0 0) (pos 0))) ≡ Ok (naturals (1 ∷ [])) }
    // {div(1, 0), (char) 256}
    ensures first_fault { cells_of over_G (term (composite (trees (op two.Div (n 1) (n 0)) (trees (term (cast atoms.Char (n 256))) no_trees)))) ≡ Err ([], DivideByZero) }
    // {1, condense max over q in [0:0] where false using 1}
    ensures null_component { cells_of over_G (term (composite (trees (n 1) (trees nothing no_trees)))) ≡ Ok (Null ∷ []) }
    // (marray p in [0:3] values p[0]) overlay a
    ensures overlaid_null { cells_of over_N (op two.Overlay (term (marray (codes "p") (from_to 0 3) (p 0))) a) ≡ Ok (naturals (0 ∷ 1 ∷ 2 ∷ 3 ∷ [])) }
{}

/// Positions that are null, outside or faulty: a fault comes first, then null, then what is outside.
pub fn positions_of_indexes()
    // a[condense max over q in [0:0] where false using 1, 0]
    ensures null { cells_of over_G (term (index a (position nothing (position (n 0) no_axes)))) ≡ Ok (Null ∷ []) }
    // a[condense max over q in [0:0] where false using 1, div(9, 1)]
    ensures null_and_outside { cells_of over_G (term (index a (position nothing (position (op two.Div (n 9) (n 1)) no_axes)))) ≡ Ok (Null ∷ []) }
    // a[0, div(9, 1)]
    ensures outside { cells_of over_G (term (index a (position (n 0) (position (op two.Div (n 9) (n 1)) no_axes)))) ≡ Err ([], IndexOut) }
    // a[4c, 0]
    ensures with_suffix { shape_of (square ∷ []) (term (index a (position (term (number (pos 4) atoms.Char)) (position (n 0) no_axes)))) ≡ Ok scalar }
    ensures with_suffix_outside { cells_of over_G (term (index a (position (term (number (pos 4) atoms.Char)) (position (n 0) no_axes)))) ≡ Err ([], IndexOut) }
    // a[condense max over q in [0:0] where false using 1, div(1, 0)]
    ensures fault_and_null { cells_of over_G (term (index a (position nothing (position (op two.Div (n 1) (n 0)) no_axes)))) ≡ Err ([], DivideByZero) }
    // a[div(1, 0), (char) 256]
    ensures first_fault { cells_of over_G (term (index a (position (op two.Div (n 1) (n 0)) (position (term (cast atoms.Char (n 256))) no_axes)))) ≡ Err ([], DivideByZero) }
{}

/// In a case the conditions are tried in order; those after the true one, and the branches that
/// aren't taken, don't count.
pub fn cases_of_expressions()
    // case when true then 1 when div(1, 0) = 1 then 2 else div(1, 0) end
    ensures first { cells_of over_G (term (choice (pairs (term (truth true)) (n 1) (pairs (op two.Eq (op two.Div (n 1) (n 0)) (n 1)) (n 2) no_pairs)) (op two.Div (n 1) (n 0)))) ≡ Ok (naturals (1 ∷ [])) }
    // case when false then 1 when true then 2 else 3 end
    ensures second { cells_of over_G (term (choice (pairs (term (truth false)) (n 1) (pairs (term (truth true)) (n 2) no_pairs)) (n 3))) ≡ Ok (naturals (2 ∷ [])) }
    // case when (condense max over q in [0:0] where false using 1) = 1 then 1 else 3 end
    ensures null_then_other { cells_of over_G (term (choice (pairs (op two.Eq nothing (n 1)) (n 1) no_pairs) (n 3))) ≡ Ok (naturals (3 ∷ [])) }
    // case when div(1, 0) = 1 then 2 else 3 end
    ensures fault_of_a_condition { cells_of over_G (term (choice (pairs (op two.Eq (op two.Div (n 1) (n 0)) (n 1)) (n 2) no_pairs) (n 3))) ≡ Err ([], DivideByZero) }
    // case when a[0:0, 0:3] < 2 then 7 else a[0:0, 0:3] end
    ensures cell_by_cell { cells_of over_G (term (choice (pairs (op two.Lt (trimmed 0 0 0 3) (n 2)) (n 7) no_pairs) (trimmed 0 0 0 3))) ≡ Ok (naturals (7 ∷ 7 ∷ 2 ∷ 3 ∷ [])) }
{}

/// Each shape fault, with its place in the text.
pub fn shape_faults()
    // select a[0:4,0:0] from G as a
    ensures outside { shape_of (square ∷ []) (node (record { from = 7; to = 17 }) wide_kind (index a (trim (edge (n 0)) (edge (n 4)) (trim (edge (n 0)) (edge (n 0)) no_axes)))) ≡ Err (record { from = 7; to = 17 }, Outside) }
    // a[4, 0]
    ensures position_outside { shape_of (square ∷ []) (term (index a (position (n 4) (position (n 0) no_axes)))) ≡ Err (somewhere, Outside) }
    // a[2:1, 0:9]
    ensures empty { shape_of (square ∷ []) (trimmed 2 1 0 9) ≡ Err (somewhere, EmptyDomain) }
    // marray p in [0:2147483648] values 0
    ensures bound_out { shape_of (square ∷ []) (term (marray (codes "p") (bounds (pairs (n 0) (n 2147483648) no_pairs)) (n 0))) ≡ Err (somewhere, BoundOut) }
    // marray p in [0:9223372036854775807 + 1] values 0
    ensures no_bound { shape_of (square ∷ []) (term (marray (codes "p") (bounds (pairs (n 0) (op two.Add (n 9223372036854775807) (n 1)) no_pairs)) (n 0))) ≡ Err (somewhere, BoundOut) }
    // a + a[0:0, 0:3]
    ensures differ { shape_of (square ∷ []) (op two.Add a (trimmed 0 0 0 3)) ≡ Err (somewhere, DomainsDiffer) }
    // concat a[0:0, 0:3] with a[0:1, 0:2] along 0
    ensures extents { shape_of (square ∷ []) (term (concat (trees (trimmed 0 0 0 3) (trees (trimmed 0 1 0 2) no_trees)) (pos 0))) ≡ Err (somewhere, ExtentsDiffer) }
    // marray p in [0:16777216] values 0
    ensures too_large { shape_of (square ∷ []) (term (marray (codes "p") (from_to 0 16777216) (n 0))) ≡ Err (somewhere, ArrayTooLarge) }
    // marray p in [1:16777216] values 0
    ensures largest { shape_of (square ∷ []) (term (marray (codes "p") (from_to 1 16777216) (n 0))) ≡ Ok (array (axis (pos 1) (pos 16777216) ∷ [])) }
    // marray p in [1:0] values a[0:4, 0:0]
    ensures parts_first { shape_of (square ∷ []) (term (marray (codes "p") (bounds (pairs (n 1) (n 0) no_pairs)) (trimmed 0 4 0 0))) ≡ Err (somewhere, Outside) }
    // marray p in [1:0, 0:2147483648] values 0
    ensures bound_first { shape_of (square ∷ []) (term (marray (codes "p") (bounds (pairs (n 1) (n 0) (pairs (n 0) (n 2147483648) no_pairs))) (n 0))) ≡ Err (somewhere, BoundOut) }
    // a[1:0, 0:2147483648]
    ensures bound_of_an_index_first { shape_of (square ∷ []) (term (index a (trim (edge (n 1)) (edge (n 0)) (trim (edge (n 0)) (edge (n 2147483648)) no_axes)))) ≡ Err (somewhere, BoundOut) }
    // a[9223372036854775807 + 1, 9]
    ensures position_without_a_value { shape_of (square ∷ []) (term (index a (position (op two.Add (n 9223372036854775807) (n 1)) (position (n 9) no_axes)))) ≡ Err (somewhere, BoundOut) }
    // a[sdom(a)[0].hi + 1, 0]
    ensures position_by_a_bound { shape_of (square ∷ []) (term (index a (position (op two.Add (term (bound_of upper a (pos 0))) (n 1)) (position (n 0) no_axes)))) ≡ Err (somewhere, Outside) }
    // condense + over p in [0:16777216] using 1
    ensures fold_too_large { shape_of (square ∷ []) (term (condense sums.Plus (codes "p") (from_to 0 16777216) always (n 1))) ≡ Err (somewhere, ArrayTooLarge) }
    // concat a with b along 0
    ensures placed_out { shape_of ((axis (pos 0) (pos 2147483647) ∷ []) ∷ (axis (pos 0) (pos 0) ∷ []) ∷ []) (term (concat (trees a (trees (term (iterator 1)) no_trees)) (pos 0))) ≡ Err (somewhere, BoundOut) }
    // a[4294967296, 0]
    ensures far_position { shape_of (square ∷ []) (term (index a (position (n 4294967296) (position (n 0) no_axes)))) ≡ Err (somewhere, Outside) }
    // shift(a, [2147483645, 0])
    ensures shifted_out { shape_of (square ∷ []) (term (shift a (trees (n 2147483645) (trees (n 0) no_trees)))) ≡ Err (somewhere, BoundOut) }
    // extend(a, [0:2, 0:9])
    ensures extended_too_little { shape_of (square ∷ []) (term (extend a (bounds (pairs (n 0) (n 2) (pairs (n 0) (n 9) no_pairs))))) ≡ Err (somewhere, Outside) }
    // {a, a}
    ensures composite_too_large { shape_of (line_of 16777216 ∷ []) (node somewhere (pair_of_chars 1) (composite (trees a (trees a no_trees)))) ≡ Err (somewhere, ArrayTooLarge) }
    // case when a < 4 then {1, 2} else {1, 2} end
    ensures case_too_large { shape_of (line_of 16777216 ∷ []) (node somewhere (pair_of_chars 1) (choice (pairs (op two.Lt a (n 4)) one_and_two no_pairs) one_and_two)) ≡ Err (somewhere, ArrayTooLarge) }
    ensures largest_case { shape_of (line_of 8388608 ∷ []) (node somewhere (pair_of_chars 1) (choice (pairs (op two.Lt a (n 4)) one_and_two no_pairs) one_and_two)) ≡ Ok (array (line_of 8388608)) }
    // a[1:0, 0:0] + a[0:4, 0:0]
    ensures left_first { shape_of (square ∷ []) (op two.Add (trimmed 1 0 0 0) (trimmed 0 4 0 0)) ≡ Err (somewhere, EmptyDomain) }
{}
