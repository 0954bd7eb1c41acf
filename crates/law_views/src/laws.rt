//! The laws. `specs/` of `spec_views` has the words that they use.
ghost use Rattle.std.specs.Prelude.{◌≡◌, ◌≢◌, ℕ, ◌+◌, ◌*◌, ◌<◌, ◌≤◌, List, [], ◌∷◌, ◌++◌, IsTrue, Ok, Some, count_by, false};
ghost use Rattle.ras_domain.specs.declared.lock.LockName.{LockName};
ghost use Rattle.ras_syntax.specs.declared.statement.Statement.{Statement};
ghost use Rattle.ras_syntax.specs.declared.types.SetType.{SetType};
ghost use Rattle.ras_syntax.specs.declared.typed.Checked.{Checked};
ghost use Rattle.spec_expressions.specs.Database.{Database};
ghost use Rattle.spec_expressions.specs.SetTypes.{AreTypes};
ghost use Rattle.spec_statements.specs.Agree.{Agrees};
ghost use Rattle.spec_statements.specs.Locks.{Lock};
ghost use Rattle.ras_syntax.specs.Literals.{statement_numbers_fit};
ghost use Rattle.ras_domain.specs.declared.lock.Mode.{Mode};
ghost use Rattle.spec_statements.specs.Machine.{checked_over, effect_of, first_list, is_too_long, needs_of, reply_of};
ghost use Rattle.spec_statements.specs.ReachLaw.{AreNamedIn, HasParents, IsSetting, Names};
ghost use Rattle.spec_statements.specs.Reply.{reply_of_answer};
ghost use Rattle.ras_syntax.specs.declared.answer.Answer.{Answer};
ghost use Rattle.ras_syntax.specs.declared.event.Event.TheVariants.{Answered, Begun, GaveUp, Granted, Refused};
ghost use Rattle.spec_statements.specs.Statement.{statement_tree_of};
ghost use Rattle.spec_statements.specs.Validity.{IsValidFor};
ghost use Rattle.ras_syntax.specs.declared.limits.TheConstants.{MAX_IDENTIFIER};
ghost use Rattle.spec_histories.specs.History.{History, Programs, begun_at, committed_database, events_of, has_phase, is_closed, own_database, program_needs, statement_numbered};
ghost use Rattle.spec_histories.specs.Legal.{IsDueList, IsGoingOn, IsLegal, MayFollow, is_begun};
ghost use Rattle.spec_histories.specs.Serializable.{ArePrograms, HasRoom, answer_count};
ghost use Rattle.spec_views.specs.Holdings.{HasSmallNexts, Holdings, IsSeenBy, StandsFor, holding_at, lists_before, passing_by};
ghost use Rattle.spec_views.specs.Sessions.{AreShort, IsIdle, IsQuiet, IsWorkOf};
ghost use Rattle.spec_views.specs.Writings.{applied_in, written_by};
ghost use Rattle.spec_statements.specs.Effects.{effect_of_checked};
ghost use Rattle.spec_views.specs.Work.{IsWork, Rewrites, RewritesTo, TakenPiece, Work, taken_locks};

/// Two databases for which the same holdings stand show the same under each lock of the list, where
/// the list has the parents of its tiles and domains.
pub fn holdings_fix_what_is_shown()
    ensures { (types : List SetType) (holdings : Holdings) (list : List Lock) (one other : Database) → HasParents list
        → StandsFor types holdings list one → StandsFor types holdings list other → Agrees types list one other }
{}

/// The lists of a statement's phases before any one have these parents.
pub fn earlier_lists_have_parents()
    ensures { (types : List SetType) (statement : Statement) (database : Database) (phase : ℕ)
        → HasParents (lists_before types statement phase database) }
{}

/// What a view shows of a statement's lists over one database, it shows over each: whether it stands for
/// the other one on the first one's lists, or for each on its own.
pub fn views_fix_the_lists()
    ensures same { (types : List SetType) (statement : Statement) (view : Holdings) (one other : Database)
        → IsSetting types statement one → (phase : ℕ) → IsSeenBy types view statement phase one → IsValidFor types other
        → StandsFor types view (lists_before types statement phase one) other
        → lists_before types statement phase one ≡ lists_before types statement phase other }
    ensures earlier { (types : List SetType) (statement : Statement) (view : Holdings) (one other : Database)
        → IsSetting types statement one → (phase : ℕ)
        → IsSeenBy types view statement phase one → IsSeenBy types view statement phase other
        → lists_before types statement phase one ≡ lists_before types statement phase other }
    ensures needs { (types : List SetType) (statement : Statement) (view : Holdings) (one other : Database)
        → IsSetting types statement one → (phase : ℕ)
        → IsSeenBy types view statement phase one → IsSeenBy types view statement phase other
        → needs_of types statement phase one ≡ needs_of types statement phase other }
{}

/// The check has one outcome over all databases that the first phase shows.
pub fn views_fix_the_check()
    ensures { (types : List SetType) (statement : Statement) (view : Holdings) (one other : Database)
        → is_too_long (first_list statement) ≡ false
        → IsSeenBy types view statement 2 one → IsSeenBy types view statement 2 other
        → checked_over types statement one ≡ checked_over types statement other }
{}

/// The rows that pass are the same over all that the first three phases show, by their numbers and
/// identifiers, and so is a fault that comes before.
pub fn views_fix_the_passing_rows()
    ensures { (types : List SetType) (statement : Statement) (view : Holdings) (one other : Database)
        → IsSetting types statement one → (checked : Checked)
        → is_too_long (first_list statement) ≡ false → checked_over types statement one ≡ Ok checked
        → IsSeenBy types view statement 4 one → IsSeenBy types view statement 4 other
        → passing_by (statement_tree_of checked) one ≡ passing_by (statement_tree_of checked) other }
{}

/// The answer is the same over all that the four phases show, and what is left agrees. Where no later
/// phase asks for locks, the answer is the same as soon as that is known.
pub fn views_fix_the_answer()
    ensures answers { (types : List SetType) (statement : Statement) (view : Holdings) (one other : Database)
        → IsSetting types statement one → IsSeenBy types view statement 5 one → IsSeenBy types view statement 5 other
        → (reply_of types statement one ≡ reply_of types statement other)
        × Agrees types (lists_before types statement 5 one) (effect_of types statement one) (effect_of types statement other) }
    ensures early { (types : List SetType) (statement : Statement) (view : Holdings) (one other : Database)
        → IsSetting types statement one → (phase : ℕ)
        → IsSeenBy types view statement phase one → IsSeenBy types view statement phase other
        → ((later : ℕ) → phase ≤ later → later < 5 → needs_of types statement later one ≡ [])
        → reply_of types statement one ≡ reply_of types statement other }
{}

/// Valid databases that have the same under every name are the same.
pub fn holdings_fix_databases()
    ensures { (types : List SetType) (one other : Database)
        → AreTypes types → IsValidFor types one → IsValidFor types other
        → ((name : LockName) → holding_at types name one ≡ holding_at types name other) → one ≡ other }
{}

/// Work begins with nothing taken, and stays what it is when a piece more is taken, which is seen as the
/// work has rewritten it.
pub fn work_takes_pieces()
    ensures begun { (programs : Programs) (view : Holdings)
        → IsWork programs [] (record { pieces = []; rewrites = λ name held. held; view = view }) }
    ensures taken { (programs : Programs) (statements : List Statement) (work : Work) (piece : TakenPiece) (view : Holdings)
        → IsWork programs statements work
        → ((name : LockName) → Names (taken_locks work.pieces) name → view name ≡ work.view name)
        → ((name : LockName) → Names piece.list name → view name ≡ work.rewrites name (piece.holdings name))
        → IsWork programs statements (record { pieces = piece ∷ work.pieces; rewrites = work.rewrites; view = view }) }
{}

/// A statement whose locks were all taken adds what it rewrites in the databases that it is over, or
/// nothing where it has no effect on these.
pub fn work_goes_on_by_statements()
    ensures applied { (programs : Programs) (statements : List Statement) (work : Work) (statement : Statement) (more : Rewrites)
        (one : Database) → AreTypes programs.types → IsWork programs statements work → IsSetting programs.types statement one
        → IsSeenBy programs.types work.view statement 5 one
        → AreNamedIn (lists_before programs.types statement 5 one) (taken_locks work.pieces)
        → ((database : Database) → IsSeenBy programs.types work.view statement 5 database
        → RewritesTo programs.types more database (effect_of programs.types statement database))
        → IsWork programs (statements ++ statement ∷ [])
        (record { pieces = work.pieces; rewrites = λ name held. more name (work.rewrites name held); view = λ name. more name (work.view name) }) }
    ensures skipped { (programs : Programs) (statements : List Statement) (work : Work) (statement : Statement) (one : Database)
        → AreTypes programs.types → IsWork programs statements work → IsSetting programs.types statement one
        → IsSeenBy programs.types work.view statement 5 one
        → AreNamedIn (lists_before programs.types statement 5 one) (taken_locks work.pieces)
        → ((database : Database) → IsSeenBy programs.types work.view statement 5 database
        → effect_of programs.types statement database ≡ database)
        → IsWork programs (statements ++ statement ∷ []) work }
{}

/// No more statements are answered than transactions have begun, times the statements of a session. So
/// there is room for identifiers where there is room for that many.
pub fn answers_are_few()
    ensures few { (programs : Programs) (longest : ℕ) (past : History) → AreShort programs longest → IsLegal programs past
        → answer_count past ≤ count_by is_begun past * longest }
    ensures room { (programs : Programs) (longest begins bound : ℕ) (past : History) → AreShort programs longest
        → IsLegal programs past → count_by is_begun past ≤ begins → bound + begins * longest ≤ MAX_IDENTIFIER
        → HasRoom bound past }
{}

/// In a legal history the work of a live transaction leads from the committed database to its own one, and
/// its view serves for that one up to each phase whose earlier lists were granted.
pub fn own_views_serve()
    ensures leads { (programs : Programs) (bound : ℕ) (past : History) (t : ℕ) (work : Work)
        → ArePrograms programs bound → HasRoom bound past → IsLegal programs past → IsWorkOf programs past t work
        → RewritesTo programs.types work.rewrites (committed_database programs past) (own_database programs past t) }
    ensures seen { (programs : Programs) (bound : ℕ) (past : History) (t : ℕ) (work : Work)
        → ArePrograms programs bound → HasRoom bound past → IsLegal programs past → IsWorkOf programs past t work
        → (k p : ℕ) (statement : Statement) → statement_numbered programs (events_of t past) k ≡ Some statement
        → is_closed k (events_of t past) ≡ false
        → ((q : ℕ) → q < p → program_needs programs statement q (own_database programs past t) ≢ []
        → IsTrue (has_phase k q (events_of t past)))
        → IsSeenBy programs.types work.view statement p (own_database programs past t) }
{}

/// A list that is right for each database that was seen is due, and an answer that is right for each may
/// follow.
pub fn what_was_seen_is_due()
    ensures list { (programs : Programs) (bound : ℕ) (past : History) (t : ℕ) (work : Work)
        → ArePrograms programs bound → HasRoom bound past → IsLegal programs past → IsWorkOf programs past t work
        → (k p : ℕ) (list : List Lock) (statement : Statement) → IsGoingOn programs past t k statement
        → ((q : ℕ) → q < p → program_needs programs statement q (own_database programs past t) ≢ []
        → IsTrue (has_phase k q (events_of t past)))
        → ((database : Database) → IsSeenBy programs.types work.view statement p database
        → list ≡ needs_of programs.types statement p database)
        → list ≢ [] → has_phase k p (events_of t past) ≡ false → IsDueList programs past t k p list }
    ensures answer { (programs : Programs) (bound : ℕ) (past : History) (t : ℕ) (work : Work)
        → ArePrograms programs bound → HasRoom bound past → IsLegal programs past → IsWorkOf programs past t work
        → (k : ℕ) (answer : Answer) (statement : Statement) → IsGoingOn programs past t k statement
        → ((q : ℕ) → program_needs programs statement q (own_database programs past t) ≢ []
        → IsTrue (has_phase k q (events_of t past)))
        → ((database : Database) → IsSeenBy programs.types work.view statement 5 database
        → reply_of_answer answer ≡ reply_of programs.types statement database)
        → MayFollow programs past (Answered t k answer) }
{}

/// Whatever others do, a live transaction's work stays its work.
pub fn work_stays_whatever_others_do()
    ensures { (programs : Programs) (bound : ℕ) (more past : History) (t : ℕ)
        → ArePrograms programs bound → HasRoom bound (more ++ past) → IsLegal programs (more ++ past) → events_of t more ≡ []
        → (work : Work) → IsWorkOf programs past t work → IsWorkOf programs (more ++ past) t work }
{}

/// And a list of it that was due stays due, and an answer that might follow still may.
pub fn what_was_due_stays_due()
    ensures list { (programs : Programs) (bound : ℕ) (more past : History) (t : ℕ)
        → ArePrograms programs bound → HasRoom bound (more ++ past) → IsLegal programs (more ++ past) → events_of t more ≡ []
        → (k p : ℕ) (list : List Lock) → IsDueList programs past t k p list → IsDueList programs (more ++ past) t k p list }
    ensures answer { (programs : Programs) (bound : ℕ) (more past : History) (t : ℕ)
        → ArePrograms programs bound → HasRoom bound (more ++ past) → IsLegal programs (more ++ past) → events_of t more ≡ []
        → (k : ℕ) (answer : Answer) → MayFollow programs past (Answered t k answer)
        → MayFollow programs (more ++ past) (Answered t k answer) }
{}

/// What a statement writes is the same over all that its four phases show, told apart from the database
/// that it is written to.
pub fn views_fix_what_is_written()
    ensures { (types : List SetType) (statement : Statement) (view : Holdings) (one other : Database)
        → IsSetting types statement one → (checked : Checked)
        → is_too_long (first_list statement) ≡ false → checked_over types statement one ≡ Ok checked
        → IsSeenBy types view statement 5 one → IsSeenBy types view statement 5 other
        → written_by (statement_tree_of checked) one ≡ written_by (statement_tree_of checked) other }
{}

/// A checked statement's effect on a valid database is what it writes, written to that database.
pub fn effects_are_what_is_written()
    ensures { (types : List SetType) (statement : Statement) (database : Database) (checked : Checked)
        → IsValidFor types database → checked_over types statement database ≡ Ok checked
        → effect_of_checked (statement_tree_of checked) database
        ≡ applied_in (statement_tree_of checked).request (written_by (statement_tree_of checked) database) database }
{}

/// A view that has the first phase's collections tells by what it holds of them whether they give out
/// numbers of 64 bits.
pub fn views_tell_of_identifiers()
    ensures { (types : List SetType) (statement : Statement) (view : Holdings) (database : Database) (phase : ℕ)
        → AreTypes types → IsTrue (statement_numbers_fit statement.form) → HasSmallNexts view → 2 ≤ phase
        → IsSeenBy types view statement phase database → IsSetting types statement database }
{}

/// In a legal history a live transaction's own database is one that the laws speak of, for each of its
/// statements.
pub fn own_databases_have_room()
    ensures { (programs : Programs) (bound : ℕ) (past : History) (t : ℕ) (work : Work)
        → ArePrograms programs bound → HasRoom bound past → IsLegal programs past → IsWorkOf programs past t work
        → (k : ℕ) (statement : Statement) → statement_numbered programs (events_of t past) k ≡ Some statement
        → IsSetting programs.types statement (own_database programs past t) }
{}

/// A transaction's work begins with nothing.
pub fn work_begins_with_a_transaction()
    ensures { (programs : Programs) (past : History) (t session k : ℕ) (view : Holdings) → IsLegal programs (Begun t session k ∷ past)
        → IsWorkOf programs (Begun t session k ∷ past) t (record { pieces = []; rewrites = λ name held. held; view = view }) }
{}

/// It takes the piece of the committed database on the list that it is granted, which is seen as the work
/// has rewritten it.
pub fn work_takes_what_is_granted()
    ensures { (programs : Programs) (past : History) (t k p : ℕ) (work : Work) (piece : TakenPiece) (view : Holdings)
        → IsWorkOf programs past t work → StandsFor programs.types piece.holdings piece.list (committed_database programs past)
        → ((name : LockName) → Names (taken_locks work.pieces) name → view name ≡ work.view name)
        → ((name : LockName) → Names piece.list name → view name ≡ work.rewrites name (piece.holdings name))
        → IsWorkOf programs (Granted t k p piece.list ∷ past) t
        (record { pieces = piece ∷ work.pieces; rewrites = work.rewrites; view = view }) }
{}

/// It goes on by what an answered statement rewrites, or stays where that has no effect.
pub fn work_goes_on_by_answers()
    ensures rewritten { (programs : Programs) (bound : ℕ) (past : History) (t : ℕ) (work : Work)
        → ArePrograms programs bound → HasRoom bound past → IsLegal programs past → IsWorkOf programs past t work
        → (k : ℕ) (answer : Answer) (statement : Statement) → IsGoingOn programs past t k statement
        → ((q : ℕ) → program_needs programs statement q (own_database programs past t) ≢ []
        → IsTrue (has_phase k q (events_of t past)))
        → (more : Rewrites)
        → ((database : Database) → IsSeenBy programs.types work.view statement 5 database
        → RewritesTo programs.types more database (effect_of programs.types statement database))
        → IsWorkOf programs (Answered t k answer ∷ past) t
        (record { pieces = work.pieces; rewrites = λ name held. more name (work.rewrites name held); view = λ name. more name (work.view name) }) }
    ensures unchanged { (programs : Programs) (bound : ℕ) (past : History) (t : ℕ) (work : Work)
        → ArePrograms programs bound → HasRoom bound past → IsLegal programs past → IsWorkOf programs past t work
        → (k : ℕ) (answer : Answer) (statement : Statement) → IsGoingOn programs past t k statement
        → ((q : ℕ) → program_needs programs statement q (own_database programs past t) ≢ []
        → IsTrue (has_phase k q (events_of t past)))
        → ((database : Database) → IsSeenBy programs.types work.view statement 5 database
        → effect_of programs.types statement database ≡ database)
        → IsWorkOf programs (Answered t k answer ∷ past) t work }
{}

/// A refusal and a giving up leave it as it is.
pub fn work_stays_without_an_answer()
    ensures refused { (programs : Programs) (past : History) (t k p holder : ℕ) (lock : LockName) (mode : Mode) (work : Work)
        → IsWorkOf programs past t work → IsWorkOf programs (Refused t k p lock mode holder ∷ past) t work }
    ensures gave_up { (programs : Programs) (past : History) (t k : ℕ) (work : Work)
        → IsWorkOf programs past t work → IsWorkOf programs (GaveUp t k ∷ past) t work }
{}

/// What transactions of other sessions do is no event of a session's own transactions, and none begins
/// there.
pub fn other_sessions_leave_a_session_alone()
    ensures events { (programs : Programs) (session : ℕ) (more past : History) (t at : ℕ) → IsLegal programs (more ++ past)
        → IsQuiet session more past → begun_at (events_of t past) ≡ Some (session, at) → events_of t more ≡ [] }
    ensures idle { (session : ℕ) (more past : History) → IsQuiet session more past → IsIdle session past
        → IsIdle session (more ++ past) }
{}
