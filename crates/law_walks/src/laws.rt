//! The laws. `specs/` has the words that they use, with those of `spec_sessions` and `spec_views`.
ghost use Rattle.std.specs.Prelude.{◌≡◌, ◌≢◌, ℕ, ◌<◌, ◌≤◌, Bool as Truth, List, [], ◌∷◌, ◌++◌, length, map};
ghost use Rattle.std.specs.Prelude.{IsTrue, Option, Some, None, Result, false};
ghost use Rattle.ras_syntax.specs.declared.answer.Answer.{Answer};
ghost use Rattle.ras_syntax.specs.declared.event.Event.{Event};
ghost use Rattle.ras_syntax.specs.declared.event.Event.TheVariants.{Answered};
ghost use Rattle.ras_syntax.specs.declared.faults.SyntaxFault.{SyntaxFault};
ghost use Rattle.ras_syntax.specs.declared.statement.Statement.{Statement};
ghost use Rattle.spec_expressions.specs.Database.{Database};
ghost use Rattle.spec_statements.specs.Locks.{Lock};
ghost use Rattle.spec_statements.specs.Machine.{needs_of, reply_of};
ghost use Rattle.spec_statements.specs.ReachLaw.{IsSetting};
ghost use Rattle.spec_statements.specs.Reply.{reply_of_answer};
ghost use Rattle.spec_histories.specs.History.{History, Programs, committed_database, events_of, has_phase, is_closed, is_live, nth, own_database, program_needs};
ghost use Rattle.spec_histories.specs.Legal.{IsDueList, IsGoingOn, IsLegal, MayFollow};
ghost use Rattle.spec_histories.specs.Serializable.{ArePrograms, HasRoom};
ghost use Rattle.spec_workloads.specs.Programs.{statement_if_read};
ghost use Rattle.spec_views.specs.Holdings.{IsSeenBy};
ghost use Rattle.spec_views.specs.Sessions.{IsIdle, IsQuiet, IsWorkOf};
ghost use Rattle.spec_views.specs.Work.{RewritesTo, Work};
ghost use Rattle.spec_sessions.specs.Outcomes.{IsWholeWalkOf};
ghost use Rattle.spec_sessions.specs.Walk.{LineReply, ReadScript, State, Step, is_over, live_in, made, quiet, step_from};
ghost use Rattle.law_walks.specs.Session.{IsSessionOf, IsUnderWay, SessionValue, new_session, phase_behind, phase_passed, session_after};

/// A session that hasn't begun is one of the empty history.
pub fn sessions_start_with_nothing()
    ensures { (programs : Programs) (number : ℕ) (script : ReadScript) (work : Work)
        → nth number programs.scripts ≡ Some (map statement_if_read script)
        → IsSessionOf programs [] (new_session number script work) }
{}

/// It goes on by an event that is a step of its walk, with a work of the transaction that lives then.
pub fn sessions_go_on_by_events()
    ensures { (programs : Programs) (past : History) (session : SessionValue) (event : Event)
        (after : Option LineReply × State) (work : Work)
        → IsSessionOf programs past session → IsLegal programs (event ∷ past)
        → step_from session.number session.script session.walked.state (made event) ≡ Some after
        → ((t : ℕ) → live_in after.1.place ≡ Some t → IsWorkOf programs (event ∷ past) t work)
        → IsSessionOf programs (event ∷ past) (session_after session after work (phase_behind event)) }
{}

/// It goes on by a line without an event.
pub fn sessions_go_on_by_lines()
    ensures { (programs : Programs) (past : History) (session : SessionValue) (wanting : Truth)
        (after : Option LineReply × State)
        → IsSessionOf programs past session
        → step_from session.number session.script session.walked.state (quiet wanting) ≡ Some after
        → IsSessionOf programs past (session_after session after session.work 1) }
{}

/// What transactions of other sessions do leaves it as it is.
pub fn other_sessions_leave_a_walk_alone()
    ensures { (programs : Programs) (bound : ℕ) (more past : History) (session : SessionValue)
        → ArePrograms programs bound → HasRoom bound (more ++ past) → IsLegal programs (more ++ past)
        → IsQuiet session.number more past → IsSessionOf programs past session
        → IsSessionOf programs (more ++ past) session }
{}

/// The transaction that lives at its place lives in the history, and may end. Where none lives there, none of
/// the session lives in the history; and a statement's number is a place in the script.
pub fn places_tell_who_lives()
    ensures live { (programs : Programs) (past : History) (session : SessionValue) → IsSessionOf programs past session
        → (t : ℕ) → live_in session.walked.state.place ≡ Some t → IsTrue (is_live t past) }
    ensures idle { (programs : Programs) (past : History) (session : SessionValue) → IsSessionOf programs past session
        → live_in session.walked.state.place ≡ None → IsIdle session.number past }
    ensures place { (programs : Programs) (past : History) (session : SessionValue) → IsSessionOf programs past session
        → (read : Result Statement SyntaxFault) → nth session.walked.state.next session.script ≡ Some read
        → (1 ≤ session.walked.state.next) × (session.walked.state.next ≤ length session.script) }
{}

/// At its end the walk is a whole one, with the session's lines.
pub fn whole_walks_have_all_lines()
    ensures { (programs : Programs) (past : History) (session : SessionValue) → IsSessionOf programs past session
        → IsTrue (is_over session.script session.walked.state)
        → (steps : List Step) × IsWholeWalkOf session.number session.script past session.walked.lines steps }
{}

/// A data statement that comes next goes on in the transaction that lives, and may be given up. The view of
/// the work serves for the transaction's own database up to the session's phase.
pub fn statements_go_on_where_they_come_next()
    ensures going_on { (programs : Programs) (past : History) (session : SessionValue) → IsSessionOf programs past session
        → (t : ℕ) (statement : Statement) → IsUnderWay session t statement
        → IsGoingOn programs past t session.walked.state.next statement }
    ensures may_end { (programs : Programs) (past : History) (session : SessionValue) → IsSessionOf programs past session
        → (t : ℕ) (statement : Statement) → IsUnderWay session t statement
        → IsTrue (is_live t past) × (is_closed session.walked.state.next (events_of t past) ≡ false) }
    ensures seen { (programs : Programs) (past : History) (session : SessionValue) → IsSessionOf programs past session
        → (t : ℕ) (statement : Statement) → IsUnderWay session t statement
        → (bound : ℕ) → ArePrograms programs bound → HasRoom bound past → IsLegal programs past
        → IsSeenBy programs.types session.work.view statement session.phase (own_database programs past t) }
    ensures setting { (programs : Programs) (past : History) (session : SessionValue) → IsSessionOf programs past session
        → (t : ℕ) (statement : Statement) → IsUnderWay session t statement
        → (bound : ℕ) → ArePrograms programs bound → HasRoom bound past → IsLegal programs past
        → IsSetting programs.types statement (own_database programs past t) }
{}

/// What its next statement needs in the session's phase over each database that is seen is due, or the phase
/// is passed where that is nothing.
pub fn lists_are_asked_phase_by_phase()
    ensures due { (programs : Programs) (past : History) (session : SessionValue) → IsSessionOf programs past session
        → (t : ℕ) (statement : Statement) → IsUnderWay session t statement
        → (bound : ℕ) → ArePrograms programs bound → HasRoom bound past → IsLegal programs past
        → (list : List Lock)
        → ((database : Database) → IsSeenBy programs.types session.work.view statement session.phase database
        → list ≡ needs_of programs.types statement session.phase database)
        → list ≢ [] → IsDueList programs past t session.walked.state.next session.phase list }
    ensures passed { (programs : Programs) (past : History) (session : SessionValue) → IsSessionOf programs past session
        → (t : ℕ) (statement : Statement) → IsUnderWay session t statement
        → (bound : ℕ) → ArePrograms programs bound → HasRoom bound past → IsLegal programs past
        → ((database : Database) → IsSeenBy programs.types session.work.view statement session.phase database
        → needs_of programs.types statement session.phase database ≡ [])
        → IsSessionOf programs past (phase_passed session) }
{}

/// Where no phase from the session's one on needs anything, the statement has asked for all, and the reply over
/// each database that is seen may be its answer.
pub fn answers_follow_the_last_phase()
    ensures asked { (programs : Programs) (past : History) (session : SessionValue) → IsSessionOf programs past session
        → (t : ℕ) (statement : Statement) → IsUnderWay session t statement
        → (bound : ℕ) → ArePrograms programs bound → HasRoom bound past → IsLegal programs past
        → ((q : ℕ) (database : Database) → session.phase ≤ q → q < 5
        → IsSeenBy programs.types session.work.view statement session.phase database
        → needs_of programs.types statement q database ≡ [])
        → (q : ℕ) → program_needs programs statement q (own_database programs past t) ≢ []
        → IsTrue (has_phase session.walked.state.next q (events_of t past)) }
    ensures answer { (programs : Programs) (past : History) (session : SessionValue) → IsSessionOf programs past session
        → (t : ℕ) (statement : Statement) → IsUnderWay session t statement
        → (bound : ℕ) → ArePrograms programs bound → HasRoom bound past → IsLegal programs past
        → (answer : Answer)
        → ((q : ℕ) (database : Database) → session.phase ≤ q → q < 5
        → IsSeenBy programs.types session.work.view statement session.phase database
        → needs_of programs.types statement q database ≡ [])
        → ((database : Database) → IsSeenBy programs.types session.work.view statement session.phase database
        → reply_of_answer answer ≡ reply_of programs.types statement database)
        → MayFollow programs past (Answered t session.walked.state.next answer) }
{}

/// What the work of the transaction that lives rewrites makes of the committed database its own one.
pub fn commits_make_the_own_database()
    ensures { (programs : Programs) (past : History) (session : SessionValue) → IsSessionOf programs past session
        → (bound : ℕ) → ArePrograms programs bound → HasRoom bound past → IsLegal programs past
        → (t : ℕ) → live_in session.walked.state.place ≡ Some t
        → RewritesTo programs.types session.work.rewrites (committed_database programs past) (own_database programs past t) }
{}
