//! Worked checks: what the definition of the check gives for statements, by computing. Each law is
//! the contract of a function that does nothing; above each clause stands the text.
ghost use Rattle.std.specs.Prelude.{◌≡◌, pos, [], ◌∷◌, Some, None, codes};
ghost use Rattle.ras_cells.specs.declared.atom.Atom.TheVariants as atoms;
ghost use Rattle.ras_cells.specs.declared.cell.CellType.TheVariants as cells;
ghost use Rattle.ras_cells.specs.declared.numbers.Op2.TheVariants as op;
ghost use Rattle.ras_syntax.specs.declared.expr.ExprForm.TheVariants as form;
ghost use Rattle.ras_syntax.specs.declared.expr.Axis.TheVariants as axis;
ghost use Rattle.ras_syntax.specs.declared.expr.DomainExpr.TheVariants as domain;
ghost use Rattle.ras_syntax.specs.declared.expr.Part.TheVariants as part;
ghost use Rattle.ras_syntax.specs.declared.expr.FoldOp.TheVariants as fold;
ghost use Rattle.ras_syntax.specs.declared.expr.CellsFold.TheVariants as folded;
ghost use Rattle.ras_syntax.specs.declared.statement.StatementForm.TheVariants.{Select, Insert, Delete, Update, Create};
ghost use Rattle.ras_syntax.specs.declared.faults.CheckFault.TheVariants.{NoCollection, CollectionExists, NoType, NoIterator, DoubleName, NoComponent, TypeMismatch, DimensionMismatch, VariableDomain};
ghost use Rattle.ras_syntax.specs.declared.typed.Kind.TheVariants as kind;
ghost use Rattle.ras_syntax.specs.declared.typed.CheckedForm.TheVariants as checked;
ghost use Rattle.ras_syntax.specs.declared.typed.TypedForm.TheVariants as typed;
ghost use Rattle.ras_syntax.specs.declared.typed.TypedAxis.TheVariants as taxis;
ghost use Rattle.ras_syntax.specs.declared.typed.TypedDomain.TheVariants as tdomain;
ghost use Rattle.spec_expressions.specs.Tree.{tree_of, node, iterator, bound_of, lower, upper};
ghost use Rattle.spec_statements.specs.WorkedChecks.{bound_of_a, G_, H_, N_, span_from, b_, char_array, check_of, expr_from, fault_from, fine, grey_source, nil_source_as_b, letter, name_from, number_from, p_, rgb_array, source, typed_from, tnumber, true_from, ttrim, wides, word, zero_to_one, zero_to_one_trim, zero_to_zero};
ghost use Rattle.spec_expressions.specs.Worked.{R_, a_, rgb_source, rgb_set, wide_kind};

/// Each check fault, at its place in the text.
pub fn each_check_fault()
    // select a from H as a
    ensures no_collection { check_of 20 (Select (name_from 7 a_) (source 14 H_ 19 a_ ∷ []) None) ≡ fault_from 14 15 NoCollection }
    // create collection G GreySet
    ensures collection_exists { check_of 27 (Create (letter 18 G_) (word 20 27 (codes "GreySet"))) ≡ fault_from 18 19 CollectionExists }
    // create collection H Grey
    ensures no_type { check_of 24 (Create (letter 18 H_) (word 20 24 (codes "Grey"))) ≡ fault_from 20 24 NoType }
    // select a[p] from G as a
    ensures no_iterator { check_of 23 (Select (expr_from 7 11 (form.Index (name_from 7 a_) (axis.At (name_from 9 p_) ∷ []))) (source 17 G_ 22 a_ ∷ []) None) ≡ fault_from 9 10 NoIterator }
    // update G as a set b assign a
    ensures other_iterator { check_of 28 (Update (source 7 G_ 12 a_) (letter 18 b_) None (span_from 18 19) (name_from 27 a_) None) ≡ fault_from 18 19 NoIterator }
    // select a from G as a, N as a
    ensures double_iterator { check_of 28 (Select (name_from 7 a_) (source 14 G_ 19 a_ ∷ source 22 N_ 27 a_ ∷ []) None) ≡ fault_from 27 28 DoubleName }
    // select marray p in [0:1] values condense + over p in [0:1] using 1
    ensures double_variable { check_of 66 (Select (expr_from 7 66 (form.Marray (letter 14 p_) (domain.Literal (zero_to_one 20 ∷ [])) (expr_from 32 66 (form.Condense fold.Plus (letter 48 p_) (domain.Literal (zero_to_one 54 ∷ [])) None (number_from 65 66 1))))) [] None) ≡ fault_from 48 49 DoubleName }
    // select a.alpha from R as a
    ensures no_component { check_of 26 (Select (expr_from 7 14 (form.Part (name_from 7 a_) (part.Named (codes "alpha")))) (source 20 R_ 25 a_ ∷ []) None) ≡ fault_from 7 14 NoComponent }
    // insert into G values 1
    ensures scalar_body { check_of 22 (Insert (letter 12 G_) (number_from 21 22 1)) ≡ fault_from 21 22 TypeMismatch }
    // select marray p in [0:0,0:0,0:0,0:0,0:0,0:0,0:0] values 1
    ensures seven_axes { check_of 57 (Select (expr_from 7 57 (form.Marray (letter 14 p_) (domain.Literal (zero_to_zero 20 ∷ zero_to_zero 24 ∷ zero_to_zero 28 ∷ zero_to_zero 32 ∷ zero_to_zero 36 ∷ zero_to_zero 40 ∷ zero_to_zero 44 ∷ [])) (number_from 56 57 1))) [] None) ≡ fault_from 7 57 DimensionMismatch }
    // select marray p in [0:1] values add_cells(a[p[0]:1,0:1]) from G as a
    ensures variable_bound { check_of 68 (Select (expr_from 7 56 (form.Marray (letter 14 p_) (domain.Literal (zero_to_one 20 ∷ [])) (expr_from 32 56 (form.Cells folded.Add (expr_from 42 55 (form.Index (name_from 42 a_) (axis.Trim (Some (expr_from 44 48 (form.Index (name_from 44 p_) (axis.At (number_from 46 47 0) ∷ [])))) (Some (number_from 49 50 1)) ∷ axis.Trim (Some (number_from 51 52 0)) (Some (number_from 53 54 1)) ∷ []))))))) (source 62 G_ 67 a_ ∷ []) None) ≡ fault_from 42 55 VariableDomain }
{}

/// The order of check faults: names of collections, then declared names, then expressions from left to
/// right with parts before the whole, then the statement's own rules.
pub fn order_of_check_faults()
    // select a from G as a, H as a
    ensures collections_first { check_of 28 (Select (name_from 7 a_) (source 14 G_ 19 a_ ∷ source 22 H_ 27 a_ ∷ []) None) ≡ fault_from 22 23 NoCollection }
    // select b from G as a, N as a
    ensures iterators_then { check_of 28 (Select (name_from 7 b_) (source 14 G_ 19 a_ ∷ source 22 N_ 27 a_ ∷ []) None) ≡ fault_from 27 28 DoubleName }
    // update G as a set b assign c
    ensures set_name_then { check_of 28 (Update (source 7 G_ 12 a_) (letter 18 b_) None (span_from 18 19) (name_from 27 (codes "c")) None) ≡ fault_from 18 19 NoIterator }
    // select marray a in [0:1] values b from G as a
    ensures parts_first { check_of 45 (Select (expr_from 7 33 (form.Marray (letter 14 a_) (domain.Literal (zero_to_one 20 ∷ [])) (name_from 32 b_))) (source 39 G_ 44 a_ ∷ []) None) ≡ fault_from 32 33 NoIterator }
    // select marray a in [0:1] values 1 from G as a
    ensures variable_then { check_of 45 (Select (expr_from 7 33 (form.Marray (letter 14 a_) (domain.Literal (zero_to_one 20 ∷ [])) (number_from 32 33 1))) (source 39 G_ 44 a_ ∷ []) None) ≡ fault_from 14 15 DoubleName }
    // select 1+true from G as a where 2
    ensures expressions_before_rules { check_of 33 (Select (expr_from 7 13 (form.Binary op.Add (number_from 7 8 1) (true_from 9 13))) (source 19 G_ 24 a_ ∷ []) (Some (number_from 32 33 2))) ≡ fault_from 7 13 TypeMismatch }
    // select a from G as a where 2
    ensures condition { check_of 28 (Select (name_from 7 a_) (source 14 G_ 19 a_ ∷ []) (Some (number_from 27 28 2))) ≡ fault_from 27 28 TypeMismatch }
    // select a[1c:2,0:1] from G as a
    ensures suffix_in_a_bound { check_of 30 (Select (expr_from 7 18 (form.Index (name_from 7 a_) (axis.Trim (Some (expr_from 9 11 (form.Number (pos 1) atoms.Char))) (Some (number_from 12 13 2)) ∷ zero_to_one_trim 14 ∷ []))) (source 24 G_ 29 a_ ∷ []) None) ≡ fault_from 7 18 VariableDomain }
    // select marray p in [0:1] values oid(p)
    ensures identifier_of_a_variable { check_of 38 (Select (expr_from 7 38 (form.Marray (letter 14 p_) (domain.Literal (zero_to_one 20 ∷ [])) (expr_from 32 38 (form.Oid (letter 36 p_))))) [] None) ≡ fault_from 36 37 NoIterator }
    // update G as a set a[0:1] assign a
    ensures target { check_of 33 (Update (source 7 G_ 12 a_) (letter 18 a_) (Some (zero_to_one_trim 20 ∷ [])) (span_from 18 24) (name_from 32 a_) None) ≡ fault_from 18 24 DimensionMismatch }
    // update G as a set a[0:1] assign 1
    ensures target_before_body { check_of 33 (Update (source 7 G_ 12 a_) (letter 18 a_) (Some (zero_to_one_trim 20 ∷ [])) (span_from 18 24) (number_from 32 33 1) None) ≡ fault_from 18 24 DimensionMismatch }
    // select condense + over p in [0:1] where 1 using 2
    ensures condition_of_a_fold { check_of 49 (Select (expr_from 7 49 (form.Condense fold.Plus (letter 23 p_) (domain.Literal (zero_to_one 29 ∷ [])) (Some (number_from 40 41 1)) (number_from 48 49 2))) [] None) ≡ fault_from 7 49 TypeMismatch }
    // select marray p in [0:1] values condense + over q in [0:p[0]] using 1
    ensures bound_of_a_fold { check_of 69 (Select (expr_from 7 69 (form.Marray (letter 14 p_) (domain.Literal (zero_to_one 20 ∷ [])) (expr_from 32 69 (form.Condense fold.Plus (letter 48 (codes "q")) (domain.Literal ((number_from 54 55 0, expr_from 56 60 (form.Index (name_from 56 p_) (axis.At (number_from 58 59 0) ∷ []))) ∷ [])) None (number_from 68 69 1))))) [] None) ≡ fault_from 32 69 VariableDomain }
    // select a.3 from R as a
    ensures no_such_component { check_of 22 (Select (expr_from 7 10 (form.Part (name_from 7 a_) (part.Numbered (pos 3)))) (source 16 R_ 21 a_ ∷ []) None) ≡ fault_from 7 10 NoComponent }
    // insert into G values marray p in [0:1,0:1] values true
    ensures bool_for_a_number { check_of 54 (Insert (letter 12 G_) (expr_from 21 54 (form.Marray (letter 28 p_) (domain.Literal (zero_to_one 34 ∷ zero_to_one 38 ∷ [])) (true_from 50 54)))) ≡ fault_from 21 54 TypeMismatch }
    // insert into G values marray p in [0:1] values 1
    ensures too_few_axes { check_of 47 (Insert (letter 12 G_) (expr_from 21 47 (form.Marray (letter 28 p_) (domain.Literal (zero_to_one 34 ∷ [])) (number_from 46 47 1)))) ≡ fault_from 21 47 DimensionMismatch }
    // delete from G as a where a
    ensures array_condition { check_of 26 (Delete (source 12 G_ 17 a_) (Some (name_from 25 a_))) ≡ fault_from 25 26 TypeMismatch }
{}

/// Statements that check, with the kinds of their expressions.
pub fn statements_that_check()
    // create collection H GreySet
    ensures created { check_of 27 (Create (letter 18 H_) (word 20 27 (codes "GreySet"))) ≡ fine 27 (checked.Create H_ 0) }
    // select a.green from R as a
    ensures component { check_of 26 (Select (expr_from 7 14 (form.Part (name_from 7 a_) (part.Named (codes "green")))) (source 20 R_ 25 a_ ∷ []) None) ≡ fine 26 (checked.Select (typed_from 7 14 (char_array 1) (typed.Part (typed_from 7 8 rgb_array (typed.Iterator a_ 0)) (part.Numbered (pos 1)))) (rgb_source ∷ []) None) }
    // select a[1:2,0] from G as a
    ensures cut { check_of 27 (Select (expr_from 7 15 (form.Index (name_from 7 a_) (axis.Trim (Some (number_from 9 10 1)) (Some (number_from 11 12 2)) ∷ axis.At (number_from 13 14 0) ∷ []))) (source 21 G_ 26 a_ ∷ []) None) ≡ fine 27 (checked.Select (typed_from 7 15 (char_array 1) (typed.Index (typed_from 7 8 (char_array 2) (typed.Iterator a_ 0)) (taxis.Trim (Some (tnumber 9 10 1)) (Some (tnumber 11 12 2)) ∷ taxis.At (tnumber 13 14 0) ∷ []))) (grey_source ∷ []) None) }
    // select a[0,1] from G as a
    ensures one_cell { check_of 25 (Select (expr_from 7 13 (form.Index (name_from 7 a_) (axis.At (number_from 9 10 0) ∷ axis.At (number_from 11 12 1) ∷ []))) (source 19 G_ 24 a_ ∷ []) None) ≡ fine 25 (checked.Select (typed_from 7 13 (kind.Scalar (cells.Atom atoms.Char)) (typed.Index (typed_from 7 8 (char_array 2) (typed.Iterator a_ 0)) (taxis.At (tnumber 9 10 0) ∷ taxis.At (tnumber 11 12 1) ∷ []))) (grey_source ∷ []) None) }
    // select b from G as a, N as b
    ensures second_source { check_of 28 (Select (name_from 7 b_) (source 14 G_ 19 a_ ∷ source 22 N_ 27 b_ ∷ []) None) ≡ fine 28 (checked.Select (typed_from 7 8 (char_array 1) (typed.Iterator b_ 1)) (grey_source ∷ nil_source_as_b ∷ []) None) }
    // select a.1 from R as a
    ensures numbered_component { check_of 22 (Select (expr_from 7 10 (form.Part (name_from 7 a_) (part.Numbered (pos 1)))) (source 16 R_ 21 a_ ∷ []) None) ≡ fine 22 (checked.Select (typed_from 7 10 (char_array 1) (typed.Part (typed_from 7 8 rgb_array (typed.Iterator a_ 0)) (part.Numbered (pos 1)))) (rgb_source ∷ []) None) }
    // update G as a set a[0,0:1] assign marray p in [0:1] values 1
    ensures position_in_a_target { check_of 60 (Update (source 7 G_ 12 a_) (letter 18 a_) (Some (axis.At (number_from 20 21 0) ∷ zero_to_one_trim 22 ∷ [])) (span_from 18 26) (expr_from 34 60 (form.Marray (letter 41 p_) (domain.Literal (zero_to_one 47 ∷ [])) (number_from 59 60 1))) None) ≡ fine 60 (checked.Update grey_source (Some (taxis.At (tnumber 20 21 0) ∷ ttrim 22 ∷ [])) (span_from 18 26) (typed_from 34 60 (kind.Array (cells.Atom atoms.Wide) 1) (typed.Marray (letter 41 p_) (tdomain.Literal ((tnumber 47 48 0, tnumber 49 50 1) ∷ [])) (tnumber 59 60 1))) None) }
    // delete from G as a where oid(a) = 1
    ensures deleted { check_of 35 (Delete (source 12 G_ 17 a_) (Some (expr_from 25 35 (form.Binary op.Eq (expr_from 25 31 (form.Oid (letter 29 a_))) (number_from 34 35 1))))) ≡ fine 35 (checked.Delete grey_source (Some (typed_from 25 35 (kind.Scalar (cells.Atom atoms.Bool)) (typed.Binary op.Eq (typed_from 25 31 wide_kind (typed.Oid (letter 29 a_))) (tnumber 34 35 1))))) }
    // insert into R values marray p in [0:1] values {p[0],10,20}
    ensures inserted { check_of 58 (Insert (letter 12 R_) (expr_from 21 58 (form.Marray (letter 28 p_) (domain.Literal (zero_to_one 34 ∷ [])) (expr_from 46 58 (form.Build (expr_from 47 51 (form.Index (name_from 47 p_) (axis.At (number_from 49 50 0) ∷ [])) ∷ number_from 52 54 10 ∷ number_from 55 57 20 ∷ [])))))) ≡ fine 58 (checked.Insert R_ rgb_set (typed_from 21 58 (kind.Array wides 1) (typed.Marray (letter 28 p_) (tdomain.Literal ((tnumber 34 35 0, tnumber 36 37 1) ∷ [])) (typed_from 46 58 (kind.Scalar wides) (typed.Build (typed_from 47 51 wide_kind (typed.Index (typed_from 47 48 (kind.Point 1) (typed.Variable p_)) (taxis.At (tnumber 49 50 0) ∷ [])) ∷ tnumber 52 54 10 ∷ tnumber 55 57 20 ∷ [])))))) }
    // update G as a set a[0:1,0:1] assign a[0:1,0:1] + 1
    ensures updated { check_of 50 (Update (source 7 G_ 12 a_) (letter 18 a_) (Some (zero_to_one_trim 20 ∷ zero_to_one_trim 24 ∷ [])) (span_from 18 28) (expr_from 36 50 (form.Binary op.Add (expr_from 36 46 (form.Index (name_from 36 a_) (zero_to_one_trim 38 ∷ zero_to_one_trim 42 ∷ []))) (number_from 49 50 1))) None) ≡ fine 50 (checked.Update grey_source (Some (ttrim 20 ∷ ttrim 24 ∷ [])) (span_from 18 28) (typed_from 36 50 (kind.Array (cells.Atom atoms.Wide) 2) (typed.Binary op.Add (typed_from 36 46 (char_array 2) (typed.Index (typed_from 36 37 (char_array 2) (typed.Iterator a_ 0)) (ttrim 38 ∷ ttrim 42 ∷ []))) (tnumber 49 50 1))) None) }
{}

/// A bound of a domain keeps its name in the checked text, and is told apart in its tree.
pub fn bounds_of_domains()
    // select sdom(a)[0].lo from G as a
    ensures checked { check_of 32 (Select (expr_from 7 20 (form.Part (expr_from 7 17 (form.Index (expr_from 7 14 (form.Sdom (name_from 12 a_))) (axis.At (number_from 15 16 0) ∷ []))) (part.Named (codes "lo")))) (source 26 G_ 31 a_ ∷ []) None) ≡ fine 32 (checked.Select (bound_of_a (codes "lo")) (grey_source ∷ []) None) }
    ensures lower { tree_of (bound_of_a (codes "lo")) ≡ node (span_from 7 20) wide_kind (bound_of lower (node (span_from 12 13) (char_array 2) (iterator 0)) (pos 0)) }
    // select sdom(a)[0].hi from G as a
    ensures upper { tree_of (bound_of_a (codes "hi")) ≡ node (span_from 7 20) wide_kind (bound_of upper (node (span_from 12 13) (char_array 2) (iterator 0)) (pos 0)) }
    // select sdom(a)[0].x from G as a
    ensures neither { check_of 31 (Select (expr_from 7 19 (form.Part (expr_from 7 17 (form.Index (expr_from 7 14 (form.Sdom (name_from 12 a_))) (axis.At (number_from 15 16 0) ∷ []))) (part.Named (codes "x")))) (source 25 G_ 30 a_ ∷ []) None) ≡ fault_from 7 19 NoComponent }
    // select sdom(a)[0] from G as a
    ensures interval_alone { check_of 29 (Select (expr_from 7 17 (form.Index (expr_from 7 14 (form.Sdom (name_from 12 a_))) (axis.At (number_from 15 16 0) ∷ []))) (source 23 G_ 28 a_ ∷ []) None) ≡ fault_from 7 17 TypeMismatch }
    // select sdom(a)[2].lo from G as a
    ensures no_such_axis { check_of 32 (Select (expr_from 7 20 (form.Part (expr_from 7 17 (form.Index (expr_from 7 14 (form.Sdom (name_from 12 a_))) (axis.At (number_from 15 16 2) ∷ []))) (part.Named (codes "lo")))) (source 26 G_ 31 a_ ∷ []) None) ≡ fault_from 7 17 DimensionMismatch }
{}
