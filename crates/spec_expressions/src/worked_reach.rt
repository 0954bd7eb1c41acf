//! The bounds of numbers, and the boxes that expressions read, in tables that are worked out by hand.
//! Each law is the contract of a function that does nothing. Above a row, or above rows of one
//! text, stands the text; a and b are the first and the second iterator.
ghost use Rattle.std.specs.Prelude.{◌≡◌, ℕ, ℤ, pos, negsuc, List, [], ◌∷◌, codes, Some, None};
ghost use Rattle.ras_cells.specs.declared.atom.Atom.TheVariants as atoms;
ghost use Rattle.ras_cells.specs.declared.numbers.Op2.TheVariants as two;
ghost use Rattle.ras_syntax.specs.declared.expr.CellsFold.TheVariants as folds;
ghost use Rattle.ras_syntax.specs.declared.expr.FoldOp.TheVariants as sums;
ghost use Rattle.ras_syntax.specs.declared.typed.Kind.TheVariants as kinds;
ghost use Rattle.spec_expressions.specs.Reach.{number_bound, reach_of};
ghost use Rattle.spec_expressions.specs.Tree.{at_point, bound_of, cast, choice, concat, condense, domain_of, extend, folded, index, iterator, marray, no_axes, no_pairs, no_trees, node, oid, own, pairs, position, shift, trees, trim, upper, always, only_where, bounds};
ghost use Rattle.spec_expressions.specs.Worked.{a, axis, box_of_points, char, term, from_to, minus, n, op, p, somewhere, square, trimmed, with_p};

/// Bounds of numbers. The variable p goes from 0 to 3 on its one axis.
pub fn bounds_of_numbers()
    // 5
    ensures literal { number_bound (square ∷ []) (with_p (axis (pos 0) (pos 3) ∷ [])) (n 5) ≡ Some (axis (pos 5) (pos 5)) }
    // p[0]
    ensures coordinate { number_bound (square ∷ []) (with_p (axis (pos 0) (pos 3) ∷ [])) (p 0) ≡ Some (axis (pos 0) (pos 3)) }
    // -p[0]
    ensures negated { number_bound (square ∷ []) (with_p (axis (pos 0) (pos 3) ∷ [])) (minus (p 0)) ≡ Some (axis (negsuc 2) (pos 0)) }
    // p[0] + 1
    ensures sum { number_bound (square ∷ []) (with_p (axis (pos 0) (pos 3) ∷ [])) (op two.Add (p 0) (n 1)) ≡ Some (axis (pos 1) (pos 4)) }
    // p[0] - p[0]
    ensures difference { number_bound (square ∷ []) (with_p (axis (pos 0) (pos 3) ∷ [])) (op two.Sub (p 0) (p 0)) ≡ Some (axis (negsuc 2) (pos 3)) }
    // p[0] * (p[0] - 2)
    ensures product { number_bound (square ∷ []) (with_p (axis (pos 0) (pos 3) ∷ [])) (op two.Mul (p 0) (op two.Sub (p 0) (n 2))) ≡ Some (axis (negsuc 5) (pos 3)) }
    // 9223372036854775807 + p[0]
    ensures within_64_bits { number_bound (square ∷ []) (with_p (axis (pos 0) (pos 3) ∷ [])) (op two.Add (n 9223372036854775807) (p 0)) ≡ Some (axis (pos 9223372036854775807) (pos 9223372036854775807)) }
    ensures no_value { number_bound (square ∷ []) (with_p (axis (pos 1) (pos 3) ∷ [])) (op two.Add (n 9223372036854775807) (p 0)) ≡ None }
    // -(9223372036854775807 + p[0])
    ensures of_no_value { number_bound (square ∷ []) (with_p (axis (pos 1) (pos 3) ∷ [])) (minus (op two.Add (n 9223372036854775807) (p 0))) ≡ None }
    // sdom(a[0:1, 0:2])[1].hi
    ensures bound_of_a_domain { number_bound (square ∷ []) [] (term (bound_of upper (trimmed 0 1 0 2) (pos 1))) ≡ Some (axis (pos 2) (pos 2)) }
    // (char) p[0]
    ensures of_its_type { number_bound (square ∷ []) (with_p (axis (pos 0) (pos 3) ∷ [])) (node somewhere (kinds.Scalar char) (cast atoms.Char (p 0))) ≡ Some (axis (pos 0) (pos 255)) }
    // div(1, 1)
    ensures quotient { number_bound (square ∷ []) [] (op two.Div (n 1) (n 1)) ≡ Some (axis (negsuc 9223372036854775807) (pos 9223372036854775807)) }
{}

/// Boxes that are read, each with the place of its iterator, for result points in a box.
pub fn boxes_that_are_read()
    // b
    ensures iterator { reach_of (square ∷ square ∷ []) [] (term (iterator 1)) (box_of_points 1 2 0 0) ≡ (1, box_of_points 1 2 0 0) ∷ [] }
    // a + b
    ensures both_operands { reach_of (square ∷ square ∷ []) [] (op two.Add a (term (iterator 1))) (box_of_points 1 2 0 0) ≡ (0, box_of_points 1 2 0 0) ∷ (1, box_of_points 1 2 0 0) ∷ [] }
    // a[0:2, 0:2]
    ensures trimmed { reach_of (square ∷ []) [] (trimmed 0 2 0 2) (box_of_points 1 2 0 0) ≡ (0, box_of_points 1 2 0 0) ∷ [] }
    // a[3, *:*]
    ensures position { reach_of (square ∷ []) [] (term (index a (position (n 3) (trim own own no_axes)))) (axis (pos 1) (pos 2) ∷ []) ≡ (0, box_of_points 3 3 1 2) ∷ [] }
    // a[p[0], 0]
    ensures moving_position { reach_of (square ∷ []) (with_p (axis (pos 2) (pos 7) ∷ [])) (term (index a (position (p 0) (position (n 0) no_axes)))) [] ≡ (0, box_of_points 2 3 0 0) ∷ [] }
    ensures nowhere { reach_of (square ∷ []) (with_p (axis (pos 4) (pos 7) ∷ [])) (term (index a (position (p 0) (position (n 0) no_axes)))) [] ≡ [] }
    // a[a[0, 1], 2]
    ensures position_that_reads { reach_of (square ∷ []) [] (term (index a (position (term (index a (position (n 0) (position (n 1) no_axes)))) (position (n 2) no_axes)))) [] ≡ (0, box_of_points 0 3 2 2) ∷ (0, box_of_points 0 0 1 1) ∷ [] }
    // a[p]
    ensures at_a_point { reach_of (square ∷ []) (with_p (axis (pos 2) (pos 5) ∷ axis (pos 0) (pos 0) ∷ [])) (term (at_point a (codes "p"))) [] ≡ (0, box_of_points 2 3 0 0) ∷ [] }
    // add_cells(a[0:1, 2:3])
    ensures all_cells { reach_of (square ∷ []) [] (term (folded folds.Add (trimmed 0 1 2 3))) [] ≡ (0, box_of_points 0 1 2 3) ∷ [] }
    // condense + over p in [0:1] where a[p[0], 0] < 1 using a[0, p[0]]
    ensures condition_and_body { reach_of (square ∷ []) [] (term (condense sums.Plus (codes "p") (from_to 0 1) (only_where (op two.Lt (term (index a (position (p 0) (position (n 0) no_axes)))) (n 1))) (term (index a (position (n 0) (position (p 0) no_axes)))))) [] ≡ (0, box_of_points 0 1 0 0) ∷ (0, box_of_points 0 0 0 1) ∷ [] }
    // case when a[0:1, 0:1] < 1 then a[0:1, 0:1] else a[3, 3] end
    ensures case { reach_of (square ∷ []) [] (term (choice (pairs (op two.Lt (trimmed 0 1 0 1) (n 1)) (trimmed 0 1 0 1) no_pairs) (term (index a (position (n 3) (position (n 3) no_axes)))))) (box_of_points 0 0 1 1) ≡ (0, box_of_points 0 0 1 1) ∷ (0, box_of_points 0 0 1 1) ∷ (0, box_of_points 3 3 3 3) ∷ [] }
    // marray p in [0:3] values a[p[0], p[0]]
    ensures made { reach_of (square ∷ []) [] (term (marray (codes "p") (from_to 0 3) (term (index a (position (p 0) (position (p 0) no_axes)))))) (axis (pos 1) (pos 2) ∷ []) ≡ (0, box_of_points 1 2 1 2) ∷ [] }
    // shift(a, [1, -2])
    ensures shifted { reach_of (square ∷ []) [] (term (shift a (trees (n 1) (trees (minus (n 2)) no_trees)))) (box_of_points 1 1 0 1) ≡ (0, box_of_points 0 0 2 3) ∷ [] }
    // extend(a[0:1, 0:1], [0:5, 0:5])
    ensures extended { reach_of (square ∷ []) [] (term (extend (trimmed 0 1 0 1) (bounds (pairs (n 0) (n 5) (pairs (n 0) (n 5) no_pairs))))) (box_of_points 1 3 1 3) ≡ (0, box_of_points 1 1 1 1) ∷ [] }
    ensures beyond_the_extended { reach_of (square ∷ []) [] (term (extend (trimmed 0 1 0 1) (bounds (pairs (n 0) (n 5) (pairs (n 0) (n 5) no_pairs))))) (box_of_points 2 3 2 3) ≡ [] }
    // concat a[0:0, 0:3] with a[3:3, 0:3] along 0
    ensures second_part { reach_of (square ∷ []) [] (term (concat (trees (trimmed 0 0 0 3) (trees (trimmed 3 3 0 3) no_trees)) (pos 0))) (box_of_points 1 1 0 0) ≡ (0, box_of_points 3 3 0 0) ∷ [] }
    // concat a[0:0, 0:3] with a[3:3, 0:3] + a[2, 2] along 0
    ensures part_that_is_not_met { reach_of (square ∷ []) [] (term (concat (trees (trimmed 0 0 0 3) (trees (op two.Add (trimmed 3 3 0 3) (term (index a (position (n 2) (position (n 2) no_axes))))) no_trees)) (pos 0))) (box_of_points 0 0 0 0) ≡ (0, box_of_points 0 0 0 0) ∷ [] }
    ensures scalar_of_a_part { reach_of (square ∷ []) [] (term (concat (trees (trimmed 0 0 0 3) (trees (op two.Add (trimmed 3 3 0 3) (term (index a (position (n 2) (position (n 2) no_axes))))) no_trees)) (pos 0))) (box_of_points 1 1 0 0) ≡ (0, box_of_points 3 3 0 0) ∷ (0, box_of_points 2 2 2 2) ∷ [] }
    // concat a[0:0, 0:1] with a[3:3, 2:3] along 0
    ensures both_parts { reach_of (square ∷ []) [] (term (concat (trees (trimmed 0 0 0 1) (trees (trimmed 3 3 2 3) no_trees)) (pos 0))) (box_of_points 0 1 1 1) ≡ (0, box_of_points 0 0 1 1) ∷ (0, box_of_points 3 3 3 3) ∷ [] }
    // sdom(a)
    ensures domain { reach_of (square ∷ []) [] (term (domain_of a)) square ≡ [] }
    // oid(a)
    ensures identifier { reach_of (square ∷ []) [] (term (oid (codes "a"))) [] ≡ [] }
    // sdom(a)[0].hi
    ensures bound { reach_of (square ∷ []) [] (term (bound_of upper a (pos 0))) [] ≡ [] }
{}
