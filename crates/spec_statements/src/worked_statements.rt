//! Worked statements: their locks, answers and effects, by computing. Each law is the contract of
//! a function that does nothing. Above a row of statements, or above rows of the same ones, stands
//! their text.
ghost use Rattle.std.specs.Prelude.{◌≡◌, pos, [], ◌∷◌, None, Some, codes, is_ok, true};
ghost use Rattle.ras_cells.specs.declared.cell.CellFault.TheVariants.{CastRange, DivideByZero, NullStore};
ghost use Rattle.ras_cells.specs.declared.numbers.Op2.TheVariants as two;
ghost use Rattle.ras_domain.specs.declared.lock.Mode.TheVariants.{Shared, Exclusive};
ghost use Rattle.ras_syntax.specs.declared.faults.ShapeFault.TheVariants.{Outside, DomainsDiffer, EmptyDomain, BoundOut, ArrayTooLarge, ReplyTooLarge, TooManyRows, TooManyTiles};
ghost use Rattle.spec_statements.specs.Effects.{reply_of_checked, effect_of_checked, run_of};
ghost use Rattle.spec_statements.specs.Phases.{needs_2, needs_3, needs_4, until_plans};
ghost use Rattle.spec_statements.specs.Reply.{values, done, faulty, misfit, unchecked, all_cells, one_domain, reply_of_answer};
ghost use Rattle.spec_statements.specs.Agree.{look_at, collection_seen, domain_seen, tile_seen};
ghost use Rattle.spec_statements.specs.Locks.{lock_list};
ghost use Rattle.spec_statements.specs.Machine.{machine, needs_of, reply_of};
ghost use Rattle.ras_syntax.specs.declared.faults.CheckFault.TheVariants.{NoCollection, CollectionExists, NoType};
ghost use Rattle.ras_domain.specs.declared.lock.LockName.TheVariants as locks;
ghost use Rattle.ras_syntax.specs.declared.answer.Answer.TheVariants as answers;
ghost use Rattle.ras_syntax.specs.declared.answer.RowValue.TheVariants as rows;
ghost use Rattle.spec_statements.specs.Statement.{create, delete, drop, insert, select, update};
ghost use Rattle.ras_syntax.specs.declared.expr.CellsFold.TheVariants as folds;
ghost use Rattle.spec_expressions.specs.Tree.{domain_of, edge, folded, index, marray, no_axes, no_trees, oid, own, truth, always, only_where, position, shift, trees, trim};
ghost use Rattle.spec_expressions.specs.Worked.{a, worked_array, axis, term, first_coordinate, four_and, from_to, line_box, minus, n, naturals, nothing, op, p, somewhere, square, trimmed, R_, a_};
ghost use Rattle.ras_syntax.specs.declared.statement.StatementForm.TheVariants as written;
ghost use Rattle.spec_statements.specs.WorkedChecks.{G_, H_, span_from, b_, letter, name_from, number_from, source, word};
ghost use Rattle.spec_statements.specs.WorkedStatements.{N, statement_as_written, create_H, declared, drop_H, by_coordinate, by_coordinate_or, domain_of_N, from_sevens, select_ids, from_N, line_made, many_arrays, narrow, nil, scalars, second_N, update_line, whole, with_N, collection_lock, first_locks, G, base_database, domain_of_G, from_G, grey, has_oid, one_cell_at, select_all, select_where, statement, tile_of_G, two_trims, update_at, update_at_place};

/// A trimming select reads four tiles of its array, and changes nothing.
pub fn a_select()
    // select a[1:2, 1:2] from G as a
    ensures phase_2 { needs_2 (select_all (trimmed 1 2 1 2)) base_database ≡ domain_of_G Shared ∷ [] }
    ensures phase_3 { needs_3 (select_all (trimmed 1 2 1 2)) base_database ≡ [] }
    ensures phase_4 { needs_4 (select_all (trimmed 1 2 1 2)) base_database ≡ tile_of_G Shared 0 0 ∷ tile_of_G Shared 0 1 ∷ tile_of_G Shared 1 0 ∷ tile_of_G Shared 1 1 ∷ [] }
    ensures answer { reply_of_checked (select_all (trimmed 1 2 1 2)) base_database ≡ values (all_cells (axis (pos 1) (pos 2) ∷ axis (pos 1) (pos 2) ∷ []) (naturals (5 ∷ 6 ∷ 9 ∷ 10 ∷ [])) ∷ []) }
    ensures effect { effect_of_checked (select_all (trimmed 1 2 1 2)) base_database ≡ base_database }
{}

/// A condition on the identifier cuts the rows before they are numbered.
pub fn a_select_by_identifier()
    // select a[0:0, 0:0] from G as a where oid(a) = 1
    ensures found { reply_of_checked (select_where (trimmed 0 0 0 0) (has_oid 1)) base_database ≡ values (all_cells (axis (pos 0) (pos 0) ∷ axis (pos 0) (pos 0) ∷ []) (naturals (0 ∷ [])) ∷ []) }
    // select a[0:0, 0:0] from G as a where oid(a) = 2
    ensures none { reply_of_checked (select_where (trimmed 0 0 0 0) (has_oid 2)) base_database ≡ values [] }
    ensures no_locks { needs_2 (select_where (trimmed 0 0 0 0) (has_oid 2)) base_database ≡ [] }
{}

/// An update within the domain: it reads and writes one tile, which it locks exclusively.
pub fn an_update()
    // update G as a set a[0:1, 0:1] assign a[0:1, 0:1] + 1
    ensures phase_4 { needs_4 (update_at 0 1 0 1 (op two.Add (trimmed 0 1 0 1) (n 1))) base_database ≡ tile_of_G Exclusive 0 0 ∷ [] }
    ensures answer { reply_of_checked (update_at 0 1 0 1 (op two.Add (trimmed 0 1 0 1) (n 1))) base_database ≡ done 1 }
    // update G as a set a[0:1, 0:1] assign a[0:1, 0:1] + 1; select a[0:1, 0:2] from G as a
    ensures effect { reply_of_checked (select_all (trimmed 0 1 0 2)) (effect_of_checked (update_at 0 1 0 1 (op two.Add (trimmed 0 1 0 1) (n 1))) base_database) ≡ values (all_cells (axis (pos 0) (pos 1) ∷ axis (pos 0) (pos 2) ∷ []) (naturals (1 ∷ 2 ∷ 2 ∷ 5 ∷ 6 ∷ 6 ∷ [])) ∷ []) }
    // update G as a set a[0:1, 0:1] assign a[0:1, 1:2]
    ensures differ { reply_of_checked (update_at 0 1 0 1 (trimmed 0 1 1 2)) base_database ≡ misfit 1 somewhere DomainsDiffer }
{}

/// An update beyond the domain: the domain grows to the hull, new cells are default cells, and each
/// tile whose box changes is locked.
pub fn a_growing_update()
    // update G as a set a[4:4, 0:0] assign marray p in [4:4, 0:0] values 99
    ensures phase_4 { needs_4 (update_at 4 4 0 0 (one_cell_at 4 0 (n 99))) base_database ≡ domain_of_G Exclusive ∷ tile_of_G Exclusive 2 0 ∷ tile_of_G Exclusive 2 1 ∷ [] }
    ensures answer { reply_of_checked (update_at 4 4 0 0 (one_cell_at 4 0 (n 99))) base_database ≡ done 1 }
    // update G as a set a[4:4, 0:0] assign marray p in [4:4, 0:0] values 99;
    // select a[4:4, 0:3] from G as a
    ensures effect { reply_of_checked (select_all (trimmed 4 4 0 3)) (effect_of_checked (update_at 4 4 0 0 (one_cell_at 4 0 (n 99))) base_database) ≡ values (all_cells (axis (pos 4) (pos 4) ∷ axis (pos 0) (pos 3) ∷ []) (naturals (99 ∷ 0 ∷ 0 ∷ 0 ∷ [])) ∷ []) }
    // update G as a set a[4:4, 0:0] assign marray p in [4:4, 0:0] values 99;
    // select a[3:3, 0:3] from G as a
    ensures others_stay { reply_of_checked (select_all (trimmed 3 3 0 3)) (effect_of_checked (update_at 4 4 0 0 (one_cell_at 4 0 (n 99))) base_database) ≡ values (all_cells (axis (pos 3) (pos 3) ∷ axis (pos 0) (pos 3) ∷ []) (naturals (12 ∷ 13 ∷ 14 ∷ 15 ∷ [])) ∷ []) }
{}

/// Deleting, creating and dropping.
pub fn deletes_creates_and_drops()
    // delete from G as a where oid(a) = 1
    ensures deleted { reply_of_checked (statement (delete from_G (only_where (has_oid 1)))) base_database ≡ done 1 }
    // delete from G as a where oid(a) = 1; select a from G as a
    ensures empty { reply_of_checked (select_all a) (effect_of_checked (statement (delete from_G (only_where (has_oid 1)))) base_database) ≡ values [] }
    // create collection H GreySet
    ensures created { reply_of_checked (statement (create (codes "H") 0)) base_database ≡ done 0 }
    // drop collection G
    ensures dropped { effect_of_checked (statement (drop G)) base_database ≡ [] }
{}

/// An insert takes the next identifier; a cell that its atom doesn't have is a fault of the body's
/// point.
pub fn inserts()
    // insert into G values marray p in [0:0, 0:0] values 7
    ensures identifier { reply_of_checked (statement (insert G grey (one_cell_at 0 0 (n 7)))) base_database ≡ done 2 }
    // insert into G values marray p in [0:0, 0:0] values 7;
    // select a[0:0, 0:0] from G as a where oid(a) = 2
    ensures stored { reply_of_checked (select_where (trimmed 0 0 0 0) (has_oid 2)) (effect_of_checked (statement (insert G grey (one_cell_at 0 0 (n 7)))) base_database) ≡ values (all_cells (axis (pos 0) (pos 0) ∷ axis (pos 0) (pos 0) ∷ []) (naturals (7 ∷ [])) ∷ []) }
    // insert into G values marray p in [0:0, 0:0] values 300
    ensures out_of_range { reply_of_checked (statement (insert G grey (one_cell_at 0 0 (n 300)))) base_database ≡ faulty 1 (pos 0 ∷ pos 0 ∷ []) CastRange }
    ensures unchanged { effect_of_checked (statement (insert G grey (one_cell_at 0 0 (n 300)))) base_database ≡ base_database }
{}

/// A fault of the body is that of the first row, at its least point; a fault of the condition comes
/// before any body.
pub fn faults_of_statements()
    // select div(1, a - 4) from G as a
    ensures body { reply_of_checked (select_all (op two.Div (n 1) (op two.Sub a (n 4)))) base_database ≡ faulty 1 (pos 1 ∷ pos 0 ∷ []) DivideByZero }
    // select div(1, a - 4) from G as a where mod(1, 0) = 1
    ensures condition { reply_of_checked (select_where (op two.Div (n 1) (op two.Sub a (n 4))) (op two.Eq (op two.Mod (n 1) (n 0)) (n 1))) base_database ≡ faulty 1 [] DivideByZero }
    // select a[0:4, 0:0] from G as a
    ensures shape { reply_of_checked (select_all (trimmed 0 4 0 0)) base_database ≡ misfit 1 somewhere Outside }
    ensures no_locks { needs_4 (select_all (trimmed 0 4 0 0)) base_database ≡ [] }
{}

/// An insert stores a null as the first null value, and an update leaves the cell where its body is
/// null. Where a type has no null value, an insert of a null has a fault.
pub fn nulls_in_statements()
    // insert into N values marray p in [4:5]
    //   values condense max over q in [0:0] where false using 1
    ensures stored { effect_of_checked (statement (insert N nil (line_made 4 5 nothing))) with_N ≡ (N, record { set_type = 1; next = 3; arrays = (1, worked_array line_box (λ p. first_coordinate p ∷ [])) ∷ (2, worked_array (axis (pos 4) (pos 5) ∷ []) (λ p. pos 0 ∷ [])) ∷ [] }) ∷ [] }
    // insert into G values marray p in [0:0, 0:0]
    //   values condense max over q in [0:0] where false using 1
    ensures no_null_value { reply_of_checked (statement (insert G grey (one_cell_at 0 0 nothing))) base_database ≡ faulty 1 (pos 0 ∷ pos 0 ∷ []) NullStore }
    // update N as a set a[1:2] assign marray p in [1:2]
    //   values condense max over q in [0:0] where false using 1
    ensures left { effect_of_checked (update_line 1 2 (line_made 1 2 nothing)) with_N ≡ with_N }
    ensures counted { reply_of_checked (update_line 1 2 (line_made 1 2 nothing)) with_N ≡ done 1 }
    // update N as a set a[5:5] assign marray p in [5:5] values 9
    ensures grown { effect_of_checked (update_line 5 5 (line_made 5 5 (n 9))) with_N ≡ (N, record { set_type = 1; next = 2; arrays = (1, worked_array (axis (pos 0) (pos 5) ∷ []) by_coordinate) ∷ [] }) ∷ [] }
{}

/// Domains as results, and rows of two sources, the first slowest.
pub fn results_of_selects()
    // select sdom(a) from G as a
    ensures domain { reply_of_checked (select_all (term (domain_of a))) base_database ≡ values (one_domain square ∷ []) }
    // select oid(a) * 10 + oid(b) from N as a, N as b
    ensures pairs { reply_of_checked (statement (select (op two.Add (op two.Mul (term (oid (codes "a"))) (n 10)) (term (oid (codes "b")))) (from_N ∷ second_N ∷ []) always)) (many_arrays 2) ≡ values (scalars (11 ∷ 12 ∷ 21 ∷ 22 ∷ [])) }
    // select 1
    ensures no_source { reply_of_checked (statement (select (n 1) [] always)) base_database ≡ values (scalars (1 ∷ [])) }
{}

/// Conjuncts on identifiers cut the rows before they are numbered and locked; the rest of the condition
/// is judged row by row.
pub fn rows_of_conditions()
    // select oid(a) from N as a where oid(a) = 2
    ensures cut { needs_2 (select_ids (has_oid 2)) (many_arrays 3) ≡ domain_of_N 2 ∷ [] }
    // select oid(a) from N as a where 2 = oid(a)
    ensures number_first { needs_2 (select_ids (op two.Eq (n 2) (term (oid (codes "a"))))) (many_arrays 3) ≡ domain_of_N 2 ∷ [] }
    // select oid(a) from N as a where true and oid(a) = 2 and true
    ensures within_and { needs_2 (select_ids (op two.And (op two.And (term (truth true)) (has_oid 2)) (term (truth true)))) (many_arrays 3) ≡ domain_of_N 2 ∷ [] }
    // select oid(a) from N as a where oid(a) = 2 and oid(a) = 3
    ensures twice { needs_2 (select_ids (op two.And (has_oid 2) (has_oid 3))) (many_arrays 3) ≡ [] }
    // select oid(a) from N as a where oid(a) = 2 or oid(a) = 3
    ensures not_within_or { needs_2 (select_ids (op two.Or (has_oid 2) (has_oid 3))) (many_arrays 3) ≡ domain_of_N 1 ∷ domain_of_N 2 ∷ domain_of_N 3 ∷ [] }
    ensures passing { reply_of_checked (select_ids (op two.Or (has_oid 2) (has_oid 3))) (many_arrays 3) ≡ values (scalars (2 ∷ 3 ∷ [])) }
    // select oid(a) from N as a where oid(a) = 3 and div(1, 0) = 1
    ensures numbered_after_the_cut { reply_of_checked (select_ids (op two.And (has_oid 3) (op two.Eq (op two.Div (n 1) (n 0)) (n 1)))) (many_arrays 3) ≡ faulty 1 [] DivideByZero }
    // select oid(a) from N as a where (condense max over q in [0:0] where false using 1) = 1
    ensures null { reply_of_checked (select_ids (op two.Eq nothing (n 1))) (many_arrays 3) ≡ values [] }
    // select oid(a) from N as a where div(1, oid(a) - 2) = 1
    ensures first_failing_row { reply_of_checked (select_ids (op two.Eq (op two.Div (n 1) (op two.Sub (term (oid (codes "a"))) (n 2))) (n 1))) (many_arrays 3) ≡ faulty 2 [] DivideByZero }
    // select div(1, oid(a) - 2) from N as a
    ensures first_failing_body { reply_of_checked (statement (select (op two.Div (n 1) (op two.Sub (term (oid (codes "a"))) (n 2))) (from_N ∷ []) always)) (many_arrays 3) ≡ faulty 2 [] DivideByZero }
    // select 1 from G as a where a[4, 0] = 1
    ensures shape_of_a_condition { reply_of_checked (select_where (n 1) (op two.Eq (term (index a (position (n 4) (position (n 0) no_axes)))) (n 1))) base_database ≡ misfit 1 somewhere Outside }
    // select 1 from N as a, N as b where oid(b) = 2
    ensures two_sources { needs_2 (statement (select (n 1) (from_N ∷ second_N ∷ []) (only_where (op two.Eq (term (oid (codes "b"))) (n 2))))) (many_arrays 2) ≡ domain_of_N 1 ∷ domain_of_N 2 ∷ [] }
{}

/// What is written: a position keeps its coordinate, an update without axes writes its body's domain,
/// and new cells that aren't written are default cells.
pub fn written_arrays()
    // update G as a set a[2, 0:1] assign marray p in [0:1] values p[0] + 90;
    // select a[2:2, 0:3] from G as a
    ensures position { reply_of_checked (select_all (trimmed 2 2 0 3)) (effect_of_checked (statement (update from_G (Some (position (n 2) (trim (edge (n 0)) (edge (n 1)) no_axes))) somewhere (line_made 0 1 (op two.Add (p 0) (n 90))) always)) base_database) ≡ values (all_cells (axis (pos 2) (pos 2) ∷ axis (pos 0) (pos 3) ∷ []) (naturals (90 ∷ 91 ∷ 10 ∷ 11 ∷ [])) ∷ []) }
    // update G as a set a[2, *:*] assign marray p in [0:3] values 7
    ensures own_bounds { reply_of_checked (statement (update from_G (Some (position (n 2) (trim own own no_axes))) somewhere (line_made 0 3 (n 7)) always)) base_database ≡ done 1 }
    // update G as a set a[2, *:*] assign marray p in [0:2] values 7
    ensures other_domain { reply_of_checked (statement (update from_G (Some (position (n 2) (trim own own no_axes))) somewhere (line_made 0 2 (n 7)) always)) base_database ≡ misfit 1 somewhere DomainsDiffer }
    // update G as a set a[2, 0] assign marray p in [0:0] values 7
    ensures positions_alone { reply_of_checked (statement (update from_G (Some (position (n 2) (position (n 0) no_axes))) somewhere (line_made 0 0 (n 7)) always)) base_database ≡ misfit 1 somewhere DomainsDiffer }
    // update G as a set a assign marray p in [1:1, 1:1] values 50; select a[1:1, 0:3] from G as a
    ensures no_axes { reply_of_checked (select_all (trimmed 1 1 0 3)) (effect_of_checked (statement (update from_G None somewhere (one_cell_at 1 1 (n 50)) always)) base_database) ≡ values (all_cells (axis (pos 1) (pos 1) ∷ axis (pos 0) (pos 3) ∷ []) (naturals (4 ∷ 50 ∷ 6 ∷ 7 ∷ [])) ∷ []) }
    // update G as a set a assign marray p in [4:4, 4:4] values 50; select a[3:4, 3:4] from G as a
    ensures no_axes_grow { reply_of_checked (select_all (trimmed 3 4 3 4)) (effect_of_checked (statement (update from_G None somewhere (one_cell_at 4 4 (n 50)) always)) base_database) ≡ values (all_cells (axis (pos 3) (pos 4) ∷ axis (pos 3) (pos 4) ∷ []) (naturals (15 ∷ 0 ∷ 0 ∷ 50 ∷ [])) ∷ []) }
    // update N as a set a[5:5] assign marray p in [5:5] values 9
    ensures default_cells { effect_of_checked (statement (update from_sevens (Some (trim (edge (n 5)) (edge (n 5)) no_axes)) somewhere (line_made 5 5 (n 9)) always)) with_N ≡ (N, record { set_type = 1; next = 2; arrays = (1, worked_array (axis (pos 0) (pos 5) ∷ []) (by_coordinate_or (pos 7))) ∷ [] }) ∷ [] }
    // insert into N values marray p in [0:3] values p[0] * 200
    ensures least_storing_fault { reply_of_checked (statement (insert N nil (line_made 0 3 (op two.Mul (p 0) (n 200))))) with_N ≡ faulty 1 (pos 2 ∷ []) CastRange }
    // delete from N as a where oid(a) < 3
    ensures two_arrays { reply_of_checked (statement (delete from_N (only_where (op two.Lt (term (oid (codes "a"))) (n 3))))) (many_arrays 4) ≡ done 2 }
    // delete from N as a where oid(a) < 3; select oid(a) from N as a
    ensures kept_arrays { reply_of_checked (statement (select (term (oid (codes "a"))) (from_N ∷ []) always)) (effect_of_checked (statement (delete from_N (only_where (op two.Lt (term (oid (codes "a"))) (n 3))))) (many_arrays 4)) ≡ values (scalars (3 ∷ 4 ∷ [])) }
{}

/// Identifiers aren't used again, but by a collection that is dropped and created again.
pub fn identifiers_of_arrays()
    // delete from G as a; insert into G values marray p in [0:0, 0:0] values 7
    ensures after_a_delete { (run_of (statement (delete from_G always) ∷ statement (insert G grey (one_cell_at 0 0 (n 7))) ∷ []) base_database).0 ≡ done 1 ∷ done 2 ∷ [] }
    // drop collection G; create collection G GreySet;
    // insert into G values marray p in [0:0, 0:0] values 7
    ensures created_again { (run_of (statement (drop G) ∷ statement (create G 0) ∷ statement (insert G grey (one_cell_at 0 0 (n 7))) ∷ []) base_database).0 ≡ done 0 ∷ done 0 ∷ done 1 ∷ [] }
    // create collection H GreySet
    ensures created { effect_of_checked (statement (create (codes "H") 0)) base_database ≡ (G, record { set_type = 0; next = 2; arrays = (1, worked_array square (λ p. four_and p ∷ [])) ∷ [] }) ∷ (codes "H", record { set_type = 0; next = 1; arrays = [] }) ∷ [] }
{}

/// A list of locks has each name once, with the stronger mode, ordered by the collection's name, then
/// collection, domain, tile, then by identifier and place.
pub fn lists_of_locks()
    ensures ordered { lock_list (tile_of_G Shared 0 1 ∷ domain_of_N 1 ∷ tile_of_G Shared 0 0 ∷ domain_of_G Shared ∷ collection_lock N Shared ∷ collection_lock G Shared ∷ []) ≡ collection_lock G Shared ∷ domain_of_G Shared ∷ tile_of_G Shared 0 0 ∷ tile_of_G Shared 0 1 ∷ collection_lock N Shared ∷ domain_of_N 1 ∷ [] }
    ensures once { lock_list (domain_of_G Shared ∷ domain_of_G Shared ∷ []) ≡ domain_of_G Shared ∷ [] }
    ensures stronger_first { lock_list (domain_of_G Exclusive ∷ domain_of_G Shared ∷ []) ≡ domain_of_G Exclusive ∷ [] }
    ensures stronger_last { lock_list (domain_of_G Shared ∷ domain_of_G Exclusive ∷ []) ≡ domain_of_G Exclusive ∷ [] }
    ensures longer_names_last { lock_list (collection_lock (codes "GG") Shared ∷ collection_lock G Shared ∷ collection_lock (codes "A") Shared ∷ []) ≡ collection_lock (codes "A") Shared ∷ collection_lock G Shared ∷ collection_lock (codes "GG") Shared ∷ [] }
    ensures identifiers { lock_list (domain_of_N 10 ∷ domain_of_N 9 ∷ []) ≡ domain_of_N 9 ∷ domain_of_N 10 ∷ [] }
    ensures domains_before_tiles { lock_list (tile_of_G Shared 0 0 ∷ (locks.Domain G 2, Shared) ∷ []) ≡ (locks.Domain G 2, Shared) ∷ tile_of_G Shared 0 0 ∷ [] }
{}

/// The limits of a statement: its rows, its reply, and the arrays that it writes.
pub fn limits_of_statements()
    // select 1 from N as a, N as b
    ensures rows { reply_of_checked (statement (select (n 1) (from_N ∷ second_N ∷ []) always)) (many_arrays 257) ≡ misfit 0 whole TooManyRows }
    // select marray p in [1:262145] values 1
    ensures reply { reply_of_checked (statement (select (line_made 1 262145 (n 1)) [] always)) base_database ≡ misfit 0 whole ReplyTooLarge }
    // select marray p in [1:262144] values 1
    ensures largest_reply { is_ok (until_plans (statement (select (line_made 1 262144 (n 1)) [] always)) base_database) ≡ true }
    // insert into N values marray p in [0:131072] values 1
    ensures tiles { reply_of_checked (statement (insert N nil (line_made 0 131072 (n 1)))) with_N ≡ misfit 1 somewhere TooManyTiles }
    // update N as a set a[131072:131072] assign marray p in [131072:131072] values 1
    ensures grown_tiles { reply_of_checked (update_line 131072 131072 (line_made 131072 131072 (n 1))) with_N ≡ misfit 1 somewhere TooManyTiles }
    // insert into N values marray p in [0:131071] values 1
    ensures most_tiles { is_ok (until_plans (statement (insert N nil (line_made 0 131071 (n 1)))) with_N) ≡ true }
    // insert into N values marray p in [5:10] values 1
    ensures outside { reply_of_checked (statement (insert N narrow (line_made 5 10 (n 1)))) with_N ≡ misfit 1 somewhere Outside }
    // update N as a set a[16777216:16777216] assign marray p in [16777216:16777216] values 1
    ensures grown_too_large { reply_of_checked (update_line 16777216 16777216 (line_made 16777216 16777216 (n 1))) with_N ≡ misfit 1 somewhere ArrayTooLarge }
    // update N as a set a[2:1] assign marray p in [0:0] values 1
    ensures empty_target { reply_of_checked (update_line 2 1 (line_made 0 0 (n 1))) with_N ≡ misfit 1 somewhere EmptyDomain }
    // update G as a set a[1:0, 0:2147483648] assign marray p in [0:0, 0:0] values 1
    ensures target_bound_first { reply_of_checked (update_at_place (trim (edge (n 1)) (edge (n 0)) (trim (edge (n 0)) (edge (n 2147483648)) no_axes))) base_database ≡ misfit 1 (span_from 18 24) BoundOut }
    // update G as a set a[0:4095, 0:4096] assign marray p in [0:0, 0:0] values 1
    ensures target_too_large { reply_of_checked (update_at_place (two_trims 0 4095 0 4096)) base_database ≡ misfit 1 (span_from 18 24) ArrayTooLarge }
    // update N as a set a[2147483648] assign marray p in [0:0] values 1
    ensures target_out { reply_of_checked (statement (update from_N (Some (position (n 2147483648) no_axes)) somewhere (line_made 0 0 (n 1)) always)) with_N ≡ misfit 1 somewhere BoundOut }
{}

/// What a statement reaches: tiles at the points that it looks at, and tiles that a position may look
/// at.
pub fn reaches_of_statements()
    // select (marray p in [0:3] values a[p[0], 0])[1:1] from G as a
    ensures within_the_result { needs_4 (select_all (term (index (term (marray (codes "p") (from_to 0 3) (term (index a (position (p 0) (position (n 0) no_axes)))))) (trim (edge (n 1)) (edge (n 1)) no_axes)))) base_database ≡ tile_of_G Shared 0 0 ∷ [] }
    // select marray p in [0:1] values a[p[0] + 1, p[0]] from G as a
    ensures by_bounds { needs_4 (select_all (term (marray (codes "p") (from_to 0 1) (term (index a (position (op two.Add (p 0) (n 1)) (position (p 0) no_axes))))))) base_database ≡ tile_of_G Shared 0 0 ∷ tile_of_G Shared 1 0 ∷ [] }
    // select a[div(1, 1), 0] from G as a
    ensures by_type { needs_4 (select_all (term (index a (position (op two.Div (n 1) (n 1)) (position (n 0) no_axes))))) base_database ≡ tile_of_G Shared 0 0 ∷ tile_of_G Shared 1 0 ∷ [] }
    // select marray p in [4:5] values a[p[0], p[0]] from G as a
    ensures nowhere { needs_4 (select_all (term (marray (codes "p") (from_to 4 5) (term (index a (position (p 0) (position (p 0) no_axes))))))) base_database ≡ [] }
    // select shift(a[2:3, 0:1], [-2, 0]) from G as a
    ensures moved { needs_4 (select_all (term (shift (trimmed 2 3 0 1) (trees (minus (n 2)) (trees (n 0) no_trees))))) base_database ≡ tile_of_G Shared 1 0 ∷ [] }
    // select sdom(a) from G as a
    ensures domain_alone { needs_4 (select_all (term (domain_of a))) base_database ≡ [] }
    // select 1 from G as a where a[3, 3] < 9
    ensures condition { needs_3 (select_where (n 1) (op two.Lt (term (index a (position (n 3) (position (n 3) no_axes)))) (n 9))) base_database ≡ tile_of_G Shared 1 1 ∷ [] }
    // select add_cells(a[0:1, 2:3]) from G as a
    ensures folded_part { needs_4 (select_all (term (folded folds.Add (trimmed 0 1 2 3)))) base_database ≡ tile_of_G Shared 0 1 ∷ [] }
{}

/// A run answers each statement over what those before it have left.
pub fn a_run()
    // update G as a set a[0:0, 0:0] assign marray p in [0:0, 0:0] values 77;
    // select a[0:0, 0:1] from G as a; delete from G as a; select a from G as a
    ensures answers { (run_of (update_at 0 0 0 0 (one_cell_at 0 0 (n 77)) ∷ select_all (trimmed 0 0 0 1) ∷ statement (delete from_G always) ∷ select_all a ∷ []) base_database).0
        ≡ done 1 ∷ values (all_cells (axis (pos 0) (pos 0) ∷ axis (pos 0) (pos 1) ∷ []) (naturals (77 ∷ 1 ∷ [])) ∷ []) ∷ done 1 ∷ values [] ∷ [] }
{}

/// The first phase asks for collections by their names alone, also where there is no such collection.
pub fn first_phases()
    // select a from R as a, G as b
    ensures two_sources { first_locks (written.Select (name_from 7 a_) (source 14 R_ 19 a_ ∷ source 22 G_ 27 b_ ∷ []) None) ≡ collection_lock G_ Shared ∷ collection_lock R_ Shared ∷ [] }
    // select a from G as a, G as b
    ensures one_source_twice { first_locks (written.Select (name_from 7 a_) (source 14 G_ 19 a_ ∷ source 22 G_ 27 b_ ∷ []) None) ≡ collection_lock G_ Shared ∷ [] }
    // select 1
    ensures no_source { first_locks (written.Select (number_from 7 8 1) [] None) ≡ [] }
    // insert into H values 1
    ensures inserts { first_locks (written.Insert (letter 12 H_) (number_from 21 22 1)) ≡ collection_lock H_ Exclusive ∷ [] }
    // delete from G as a
    ensures deletes { first_locks (written.Delete (source 12 G_ 17 a_) None) ≡ collection_lock G_ Exclusive ∷ [] }
    // update G as a set a assign a
    ensures updates { first_locks (written.Update (source 7 G_ 12 a_) (letter 18 a_) None (span_from 18 19) (name_from 27 a_) None) ≡ collection_lock G_ Shared ∷ [] }
    // create collection H GreySet
    ensures creates { first_locks (written.Create (letter 18 H_) (word 20 27 (codes "GreySet"))) ≡ collection_lock H_ Exclusive ∷ [] }
{}

/// Statements as they are written: the first phase is asked for before the check, and a statement that
/// isn't checked asks for nothing more and changes nothing.
pub fn statements_as_they_are_written()
    // select a from H as a
    ensures first_phase { needs_of declared (statement_as_written (written.Select (name_from 7 a_) (source 14 H_ 19 a_ ∷ []) None)) 1 base_database ≡ collection_lock H_ Shared ∷ [] }
    ensures second_phase { needs_of declared (statement_as_written (written.Select (name_from 7 a_) (source 14 H_ 19 a_ ∷ []) None)) 2 base_database ≡ [] }
    ensures no_collection { reply_of declared (statement_as_written (written.Select (name_from 7 a_) (source 14 H_ 19 a_ ∷ []) None)) base_database ≡ unchecked (span_from 14 15) NoCollection }
    // create collection H GreySet; create collection H GreySet;
    // drop collection H; drop collection H
    ensures run { (machine declared (create_H ∷ create_H ∷ drop_H ∷ drop_H ∷ []) base_database).0 ≡ done 0 ∷ unchecked (span_from 18 19) CollectionExists ∷ done 0 ∷ unchecked (span_from 16 17) NoCollection ∷ [] }
    ensures last { (machine declared (create_H ∷ create_H ∷ drop_H ∷ drop_H ∷ []) base_database).1 ≡ base_database }
    // create collection H Grey
    ensures no_type { reply_of declared (statement_as_written (written.Create (letter 18 H_) (word 20 24 (codes "Grey")))) base_database ≡ unchecked (span_from 20 24) NoType }
{}

/// Answers in memory stand for replies, whatever room their lists have.
pub fn replies_of_answers()
    ensures done { reply_of_answer (answers.Done 3) ≡ done 3 }
    ensures fault { reply_of_answer (answers.Fault 2 (record { items = pos 1 ∷ [] }) CastRange) ≡ faulty 2 (pos 1 ∷ []) CastRange }
    ensures values { reply_of_answer (answers.Value (rows.Domain square ∷ rows.Array line_box (record { width = 1; cells = naturals (0 ∷ 1 ∷ 2 ∷ 3 ∷ []); room = 9 }) ∷ [])) ≡ values (one_domain square ∷ all_cells line_box (naturals (0 ∷ 1 ∷ 2 ∷ 3 ∷ [])) ∷ []) }
{}

/// What a lock shows of a database: nothing of what isn't there, and no point at a place that has
/// another number of coordinates than the extents.
pub fn what_locks_show()
    ensures collection { look_at declared (locks.Collection G) base_database ≡ Some (collection_seen 0 2 (1 ∷ [])) }
    ensures no_collection { look_at declared (locks.Collection N) base_database ≡ None }
    ensures domain { look_at declared (locks.Domain G 1) base_database ≡ Some (domain_seen square) }
    ensures no_array { look_at declared (locks.Domain G 2) base_database ≡ None }
    ensures tile { look_at declared (tile_of_G Shared 1 0).0 base_database ≡ Some (tile_seen 0 ((pos 2 ∷ pos 0 ∷ [], pos 8 ∷ []) ∷ (pos 2 ∷ pos 1 ∷ [], pos 9 ∷ []) ∷ (pos 3 ∷ pos 0 ∷ [], pos 12 ∷ []) ∷ (pos 3 ∷ pos 1 ∷ [], pos 13 ∷ []) ∷ [])) }
    ensures tile_without_points { look_at declared (tile_of_G Shared 2 0).0 base_database ≡ Some (tile_seen 0 []) }
    ensures one_coordinate_too_many { look_at declared (locks.Tile G 1 (record { items = pos 1 ∷ pos 0 ∷ pos 0 ∷ [] })) base_database ≡ Some (tile_seen 0 []) }
    ensures no_tile { look_at declared (locks.Tile N 1 (record { items = pos 0 ∷ [] })) base_database ≡ None }
{}
