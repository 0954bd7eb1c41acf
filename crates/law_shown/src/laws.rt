//! The laws. `specs/` of `spec_shown` and `spec_views` have the words that they use.
ghost use Rattle.std.specs.Prelude.{◌≡◌, ℕ, ◌<◌, ◌≤◌, List, [], Ok, false};
ghost use Rattle.ras_syntax.specs.declared.statement.Statement.{Statement};
ghost use Rattle.ras_syntax.specs.declared.types.SetType.{SetType};
ghost use Rattle.ras_syntax.specs.declared.typed.Checked.{Checked};
ghost use Rattle.spec_expressions.specs.Database.{Database};
ghost use Rattle.spec_shown.specs.Shown.{IsPartOf};
ghost use Rattle.spec_shown.specs.Standing.{IsShown};
ghost use Rattle.spec_statements.specs.Effects.{reply_of_checked};
ghost use Rattle.spec_statements.specs.Machine.{checked_over, first_list, is_too_long, needs_of, reply_of};
ghost use Rattle.spec_statements.specs.Phases.{needs_2, needs_3, needs_4};
ghost use Rattle.spec_statements.specs.ReachLaw.{IsSetting};
ghost use Rattle.spec_statements.specs.Statement.{statement_tree_of};
ghost use Rattle.spec_views.specs.Holdings.{Holdings, IsSeenBy, passing_by};
ghost use Rattle.spec_views.specs.Writings.{written_by};

/// What holdings show of a statement's rows is a database of its own, for which the holdings stand too.
/// It is one of those that they may stand for, with all that isn't held made up.
pub fn holdings_show_a_database()
    ensures { (types : List SetType) (statement : Statement) (holdings : Holdings) (one : Database) (checked : Checked) (phase : ℕ)
        → IsSetting types statement one → is_too_long (first_list statement) ≡ false
        → checked_over types statement one ≡ Ok checked
        → 2 ≤ phase → IsSeenBy types holdings statement phase one → IsPartOf types holdings one
        → (shown : Database) × IsShown types statement holdings checked phase shown }
{}

/// The check of the statement over each other database for which they stand is the same.
pub fn shown_check()
    ensures { (types : List SetType) (statement : Statement) (holdings : Holdings) (checked : Checked) (phase : ℕ)
        (shown other : Database) → is_too_long (first_list statement) ≡ false → 2 ≤ phase
        → IsShown types statement holdings checked phase shown → IsSeenBy types holdings statement phase other
        → checked_over types statement other ≡ Ok checked }
{}

/// Each other database for which they stand has the same list of the next phase; by the phase, it is the
/// list that the checked statement needs over what is shown.
pub fn shown_lists()
    ensures needs { (types : List SetType) (statement : Statement) (holdings : Holdings) (checked : Checked) (phase : ℕ)
        (shown other : Database) → IsShown types statement holdings checked phase shown
        → IsSeenBy types holdings statement phase other
        → needs_of types statement phase other ≡ needs_of types statement phase shown }
    ensures second { (types : List SetType) (statement : Statement) (holdings : Holdings) (checked : Checked)
        (shown other : Database) → is_too_long (first_list statement) ≡ false
        → IsShown types statement holdings checked 2 shown → IsSeenBy types holdings statement 2 other
        → needs_of types statement 2 other ≡ needs_2 (statement_tree_of checked) shown }
    ensures third { (types : List SetType) (statement : Statement) (holdings : Holdings) (checked : Checked)
        (shown other : Database) → is_too_long (first_list statement) ≡ false
        → IsShown types statement holdings checked 3 shown → IsSeenBy types holdings statement 3 other
        → needs_of types statement 3 other ≡ needs_3 (statement_tree_of checked) shown }
    ensures fourth { (types : List SetType) (statement : Statement) (holdings : Holdings) (checked : Checked)
        (shown other : Database) → is_too_long (first_list statement) ≡ false
        → IsShown types statement holdings checked 4 shown → IsSeenBy types holdings statement 4 other
        → needs_of types statement 4 other ≡ needs_4 (statement_tree_of checked) shown }
{}

/// The same rows pass over it, by their numbers and identifiers, or the same fault comes before.
pub fn shown_passing()
    ensures { (types : List SetType) (statement : Statement) (holdings : Holdings) (checked : Checked)
        (shown other : Database) → is_too_long (first_list statement) ≡ false
        → IsShown types statement holdings checked 4 shown → IsSeenBy types holdings statement 4 other
        → passing_by (statement_tree_of checked) other ≡ passing_by (statement_tree_of checked) shown }
{}

/// The statement writes the same, or ends with the same reply before it writes.
pub fn shown_writings()
    ensures { (types : List SetType) (statement : Statement) (holdings : Holdings) (checked : Checked)
        (shown other : Database) → is_too_long (first_list statement) ≡ false
        → IsShown types statement holdings checked 5 shown → IsSeenBy types holdings statement 5 other
        → written_by (statement_tree_of checked) other ≡ written_by (statement_tree_of checked) shown }
{}

/// It has the same reply, the one of the checked statement over what is shown. Where no later phase asks
/// for locks, that is known as soon as this is.
pub fn shown_answers()
    ensures answers { (types : List SetType) (statement : Statement) (holdings : Holdings) (checked : Checked)
        (shown other : Database) → is_too_long (first_list statement) ≡ false
        → IsShown types statement holdings checked 5 shown → IsSeenBy types holdings statement 5 other
        → reply_of types statement other ≡ reply_of_checked (statement_tree_of checked) shown }
    ensures early { (types : List SetType) (statement : Statement) (holdings : Holdings) (checked : Checked) (phase : ℕ)
        (shown other : Database) → is_too_long (first_list statement) ≡ false
        → IsShown types statement holdings checked phase shown → IsSeenBy types holdings statement phase other
        → ((later : ℕ) → phase ≤ later → later < 5 → needs_of types statement later shown ≡ [])
        → reply_of types statement other ≡ reply_of_checked (statement_tree_of checked) shown }
{}
