//! The kinds of what operations make, and the names of components, in tables that are worked out by
//! hand. Each law is the contract of a function that does nothing. Above each row stands a text of
//! its kinds.
ghost use Rattle.std.specs.Prelude.{◌≡◌, pos, negsuc, [], ◌∷◌, codes, true, false, Some, None, Ok, Err};
ghost use Rattle.ras_cells.specs.declared.atom.Atom.TheVariants.{Bool, Char, Short};
ghost use Rattle.ras_cells.specs.declared.cell.CellType.TheVariants as types;
ghost use Rattle.ras_cells.specs.declared.numbers.Op1.TheVariants as one;
ghost use Rattle.ras_cells.specs.declared.numbers.Op2.TheVariants as two;
ghost use Rattle.ras_syntax.specs.declared.expr.CellsFold.TheVariants as folds;
ghost use Rattle.ras_syntax.specs.declared.expr.FoldOp.TheVariants as sums;
ghost use Rattle.ras_syntax.specs.declared.faults.CheckFault.TheVariants.{TypeMismatch, DimensionMismatch};
ghost use Rattle.ras_syntax.specs.declared.typed.Kind.TheVariants.{Scalar, Array, Domain, Point};
ghost use Rattle.spec_expressions.specs.Kinds.{fold_type, binary_kind, bool_type, cast_kind, composite_kind, folded_kind, stores, unary_kind, wide_type};
ghost use Rattle.spec_expressions.specs.Check.{choice_kind, component_type, concat_kind};
ghost use Rattle.spec_expressions.specs.Names.{names_of};
ghost use Rattle.spec_expressions.specs.Tree.{component, composite, concat, choice, domain_like, domain_of, extend, index, marray, no_axes, no_pairs, no_trees, own, pairs, position, shift, trees, trim};
ghost use Rattle.spec_expressions.specs.Worked.{a, char, term, from_to, n, one_and_two, op, rgb, short, rgb_source, rgb_names};

/// Operators: sums are wide, comparisons are bools, and an array goes with a scalar or with an array
/// of as many axes. A mismatch of types comes before one of axes.
pub fn kinds_of_operators()
    // c + s of a char and a short
    ensures sum { binary_kind two.Add (Scalar char) (Scalar short) ≡ Ok (Scalar wide_type) }
    // b + c of a bool and a char
    ensures sum_with_a_bool { binary_kind two.Add (Scalar bool_type) (Scalar char) ≡ Err TypeMismatch }
    // a * s of chars on two axes and a short
    ensures with_each_cell { binary_kind two.Mul (Array char 2) (Scalar short) ≡ Ok (Array wide_type 2) }
    // s - a of a short and chars on two axes
    ensures scalar_first { binary_kind two.Sub (Scalar short) (Array char 2) ≡ Ok (Array wide_type 2) }
    // div(a, b) of chars on one axis and chars on two axes
    ensures other_axes { binary_kind two.Div (Array char 1) (Array char 2) ≡ Err DimensionMismatch }
    // mod(a, b) of bools on one axis and chars on two axes
    ensures types_first { binary_kind two.Mod (Array bool_type 1) (Array char 2) ≡ Err TypeMismatch }
    // b = d of two bools
    ensures equal_bools { binary_kind two.Eq (Scalar bool_type) (Scalar bool_type) ≡ Ok (Scalar bool_type) }
    // c != s of a char and a short
    ensures equal_numbers { binary_kind two.Ne (Scalar char) (Scalar short) ≡ Ok (Scalar bool_type) }
    // b = c of a bool and a char
    ensures bool_and_number { binary_kind two.Eq (Scalar bool_type) (Scalar char) ≡ Err TypeMismatch }
    // b < d of two bools
    ensures ordered_bools { binary_kind two.Lt (Scalar bool_type) (Scalar bool_type) ≡ Err TypeMismatch }
    // a >= c of chars on one axis and a char
    ensures ordered_numbers { binary_kind two.Ge (Array char 1) (Scalar char) ≡ Ok (Array bool_type 1) }
    // c and d of two chars
    ensures numbers_joined_by_and { binary_kind two.And (Scalar char) (Scalar char) ≡ Err TypeMismatch }
    // a xor b of bools on three axes and bools on three axes
    ensures bools_joined_by_xor { binary_kind two.Xor (Array bool_type 3) (Array bool_type 3) ≡ Ok (Array bool_type 3) }
    // bit(a, c) of chars on one axis and a char
    ensures bit { binary_kind two.Bit (Array char 1) (Scalar char) ≡ Ok (Array bool_type 1) }
    // x = y of two composites of three chars each
    ensures composites { binary_kind two.Eq (Scalar rgb) (Scalar rgb) ≡ Err TypeMismatch }
    // sdom(a) + c of an array on one axis and a char
    ensures domain { binary_kind two.Add (Domain 1) (Scalar char) ≡ Err TypeMismatch }
    // p + c of a variable on one axis and a char
    ensures point { binary_kind two.Add (Point 1) (Scalar char) ≡ Err TypeMismatch }
    // -a of chars on two axes
    ensures minus { unary_kind one.Neg (Array char 2) ≡ Ok (Array wide_type 2) }
    // -b of a bool
    ensures minus_bool { unary_kind one.Neg (Scalar bool_type) ≡ Err TypeMismatch }
    // abs(s) of a short
    ensures absolute { unary_kind one.Abs (Scalar short) ≡ Ok (Scalar wide_type) }
    // not b of a bool
    ensures negated { unary_kind one.Not (Scalar bool_type) ≡ Ok (Scalar bool_type) }
    // not c of a char
    ensures negated_number { unary_kind one.Not (Scalar char) ≡ Err TypeMismatch }
    // (bool) a of chars on two axes
    ensures cast { cast_kind Bool (Array char 2) ≡ Ok (Array bool_type 2) }
    // (char) x of a composite of three chars
    ensures cast_composite { cast_kind Char (Scalar rgb) ≡ Err TypeMismatch }
    // a overlay b of composites of three chars on one axis and the same again
    ensures overlay { binary_kind two.Overlay (Array rgb 1) (Array rgb 1) ≡ Ok (Array rgb 1) }
    // a overlay b of chars on one axis and shorts on one axis
    ensures overlay_joins { binary_kind two.Overlay (Array char 1) (Array short 1) ≡ Ok (Array wide_type 1) }
    // a overlay c of chars on one axis and a char
    ensures overlay_of_a_scalar { binary_kind two.Overlay (Array char 1) (Scalar char) ≡ Err TypeMismatch }
{}

/// A case has its branches' common type, a composite one atom from each part, and a fold is a scalar.
pub fn kinds_of_other_forms()
    // case when b then c else d end of a bool and two chars
    ensures same_branches { choice_kind (Scalar bool_type ∷ []) (Scalar char ∷ Scalar char ∷ []) ≡ Ok (Scalar char) }
    // case when b then c else s end of a bool, a char and a short
    ensures other_branches { choice_kind (Scalar bool_type ∷ []) (Scalar char ∷ Scalar short ∷ []) ≡ Ok (Scalar wide_type) }
    // case when b then c when d then s else e end
    //   of two bools b and d, chars c and e, and a short s
    ensures equal_after_wide { choice_kind (Scalar bool_type ∷ Scalar bool_type ∷ []) (Scalar char ∷ Scalar short ∷ Scalar char ∷ []) ≡ Ok (Scalar wide_type) }
    // case when a then c else d end of bools on two axes and two chars
    ensures by_an_array { choice_kind (Array bool_type 2 ∷ []) (Scalar char ∷ Scalar char ∷ []) ≡ Ok (Array char 2) }
    // case when c then d else e end of three chars
    ensures by_a_number { choice_kind (Scalar char ∷ []) (Scalar char ∷ Scalar char ∷ []) ≡ Err TypeMismatch }
    // case when b then c else d end of bools b and d and a char c
    ensures bool_and_number { choice_kind (Scalar bool_type ∷ []) (Scalar char ∷ Scalar bool_type ∷ []) ≡ Err TypeMismatch }
    // case when b then a else c end of bools on one axis, chars on two axes and a char
    ensures other_axes { choice_kind (Array bool_type 1 ∷ []) (Array char 2 ∷ Scalar char ∷ []) ≡ Err DimensionMismatch }
    // {c, a} of a char and shorts on one axis
    ensures composite { composite_kind (Scalar char ∷ Array short 1 ∷ []) ≡ Ok (Array (types.Composite (record { items = Char ∷ Short ∷ [] })) 1) }
    // {c} of a char
    ensures one_part { composite_kind (Scalar char ∷ []) ≡ Ok (Scalar (types.Composite (record { items = Char ∷ [] }))) }
    // {x} of a composite of three chars
    ensures composite_of_composites { composite_kind (Scalar rgb ∷ []) ≡ Err TypeMismatch }
    // x.1 of a composite of a char and a short
    ensures component { component_type (pos 1) (types.Composite (record { items = Char ∷ Short ∷ [] })) ≡ Some short }
    // x.2 of a composite of a char and a short
    ensures no_component { component_type (pos 2) (types.Composite (record { items = Char ∷ Short ∷ [] })) ≡ None }
    // component -1 of a composite of a char and a short, which no text names
    ensures negative_component { component_type (negsuc 0) (types.Composite (record { items = Char ∷ Short ∷ [] })) ≡ None }
    // c.0 of a char
    ensures component_of_an_atom { component_type (pos 0) char ≡ None }
    // condense + over p in [0:1] using s of a short
    ensures sum { fold_type sums.Plus short ≡ Some wide_type }
    // condense min over p in [0:1] using s of a short
    ensures least { fold_type sums.Min short ≡ Some short }
    // condense max over p in [0:1] using b of a bool
    ensures greatest_bool { fold_type sums.Max bool_type ≡ None }
    // condense and over p in [0:1] using b of a bool
    ensures conjunction { fold_type sums.And bool_type ≡ Some bool_type }
    // condense or over p in [0:1] using c of a char
    ensures conjunction_of_numbers { fold_type sums.Or char ≡ None }
    // add_cells(a) of chars on two axes
    ensures sum_of_cells { folded_kind folds.Add (Array char 2) ≡ Ok (Scalar wide_type) }
    // min_cells(a) of chars on two axes
    ensures least_of_cells { folded_kind folds.Min (Array char 2) ≡ Ok (Scalar char) }
    // count_cells(a) of bools on two axes
    ensures counted { folded_kind folds.Count (Array bool_type 2) ≡ Ok (Scalar wide_type) }
    // count_cells(a) of chars on two axes
    ensures counted_numbers { folded_kind folds.Count (Array char 2) ≡ Err TypeMismatch }
    // all_cells(a) of bools on one axis
    ensures all { folded_kind folds.AllTrue (Array bool_type 1) ≡ Ok (Scalar bool_type) }
    // add_cells(c) of a char
    ensures fold_of_a_scalar { folded_kind folds.Add (Scalar char) ≡ Err TypeMismatch }
    // concat a with b along 1 of chars on two axes and shorts on two axes
    ensures concat { concat_kind (pos 1) (Array char 2 ∷ Array short 2 ∷ []) ≡ Ok (Array wide_type 2) }
    // concat a with b along 2 of chars on two axes and chars on two axes
    ensures concat_along_no_axis { concat_kind (pos 2) (Array char 2 ∷ Array char 2 ∷ []) ≡ Err DimensionMismatch }
    // concat a with c along 0 of chars on two axes and a char
    ensures concat_of_a_scalar { concat_kind (pos 0) (Array char 2 ∷ Scalar char ∷ []) ≡ Err TypeMismatch }
    // insert into G values a of wides, where G has chars
    ensures stored_wide { stores wide_type char ≡ true }
    // insert into G values a of bools, where G has chars
    ensures stored_bool { stores bool_type char ≡ false }
    // insert into G values a of chars, where G has bools
    ensures stored_number { stores char bool_type ≡ false }
    // insert into R values a of composites of a short and two chars,
    //   where R has those of three chars
    ensures stored_composite { stores (types.Composite (record { items = Short ∷ Char ∷ Char ∷ [] })) rgb ≡ true }
    // insert into R values a of composites of a bool and two chars,
    //   where R has those of three chars
    ensures stored_composite_with_a_bool { stores (types.Composite (record { items = Bool ∷ Char ∷ Char ∷ [] })) rgb ≡ false }
    // insert into R values a of composites of two chars, where R has those of three chars
    ensures stored_shorter { stores (types.Composite (record { items = Char ∷ Char ∷ [] })) rgb ≡ false }
    // insert into R values a of chars, where R has composites of one char
    ensures stored_atom { stores char (types.Composite (record { items = Char ∷ [] })) ≡ false }
{}

/// Components are named as the first part with composite cells names them; braces name none.
pub fn names_of_components()
    // a
    ensures iterator { names_of (rgb_source ∷ []) a ≡ rgb_names }
    // {1, 2}
    ensures braces { names_of (rgb_source ∷ []) one_and_two ≡ [] }
    // a overlay {1, 2}
    ensures overlay { names_of (rgb_source ∷ []) (op two.Overlay a one_and_two) ≡ rgb_names }
    // {1, 2} overlay a
    ensures braces_first { names_of (rgb_source ∷ []) (op two.Overlay one_and_two a) ≡ [] }
    // a[*:*]
    ensures index { names_of (rgb_source ∷ []) (term (index a (trim own own no_axes))) ≡ rgb_names }
    // case when a.0 = 1 then a else {1, 2} end
    ensures case_by_its_first_branch { names_of (rgb_source ∷ []) (term (choice (pairs (op two.Eq (term (component a (pos 0))) (n 1)) a no_pairs) one_and_two)) ≡ rgb_names }
    // case when 1 then {1, 2} else a end
    ensures case_of_braces { names_of (rgb_source ∷ []) (term (choice (pairs (n 1) one_and_two no_pairs) a)) ≡ [] }
    // marray p in [0:1] values a[0]
    ensures marray { names_of (rgb_source ∷ []) (term (marray (codes "p") (from_to 0 1) (term (index a (position (n 0) no_axes))))) ≡ rgb_names }
    // marray p in sdom(a) values {1, 2}
    ensures domain_is_no_part { names_of (rgb_source ∷ []) (term (marray (codes "p") (domain_like (term (domain_of a))) one_and_two)) ≡ [] }
    // shift(a, [1])
    ensures moved { names_of (rgb_source ∷ []) (term (shift a (trees (n 1) no_trees))) ≡ rgb_names }
    // extend(a, [0:5])
    ensures extended { names_of (rgb_source ∷ []) (term (extend a (from_to 0 5))) ≡ rgb_names }
    // concat a with a along 0
    ensures concat { names_of (rgb_source ∷ []) (term (concat (trees a (trees a no_trees)) (pos 0))) ≡ rgb_names }
{}
