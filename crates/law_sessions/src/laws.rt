//! The laws. `specs/` of `spec_sessions` has the words that they use.
ghost use Rattle.std.specs.Prelude.{◌≡◌, ℕ, suc, ◌+◌, ◌*◌, ◌≤◌, IsTrue, List, [], ◌∷◌, ◌++◌, All, length, reverse, Ok, Some, count_by};
ghost use Rattle.ras_syntax.specs.declared.limits.TheConstants.{MAX_RETRIES, MAX_SESSIONS, MAX_STATEMENTS};
ghost use Rattle.ras_syntax.specs.declared.types.Script.{Script};
ghost use Rattle.spec_grammar.specs.Tokens.{Text};
ghost use Rattle.spec_histories.specs.History.{History, Programs};
ghost use Rattle.spec_histories.specs.Legal.{IsLegal, is_begun};
ghost use Rattle.spec_histories.specs.Serializable.{HasRoom};
ghost use Rattle.spec_sessions.specs.Begins.{HasFewTries, begins_in, read_scripts};
ghost use Rattle.spec_sessions.specs.Outcomes.{AreMadeSoFarFrom, IsMade, IsPaced, OutcomeValue, session_events};
ghost use Rattle.spec_sessions.specs.Printable.{IsGood, IsPrintable, IsUnbroken, blanked};
ghost use Rattle.spec_sessions.specs.Report.{report_text};
ghost use Rattle.spec_sessions.specs.Walk.{ReadScript, Step, Walked, walk};
ghost use Rattle.spec_views.specs.Sessions.{IsQuiet};
ghost use Rattle.spec_workloads.specs.Outline.{is_name};
ghost use Rattle.spec_workloads.specs.Programs.{programs_of};
ghost use Rattle.spec_workloads.specs.Setup.{WorkloadValue, workload_of};
ghost use Rattle.law_sessions.specs.Numbers.{HasNumbersOfReports};
ghost use Rattle.law_sessions.specs.Plain.{plain_outcome};

/// A walk begins no more transactions than the script has statements, times the tries that a begin may
/// have.
pub fn sessions_begin_few_transactions()
    ensures { (session : ℕ) (script : ReadScript) (steps : List Step) (walked : Walked) → All HasFewTries script
        → walk session script steps ≡ Some walked → begins_in steps ≤ length script * suc MAX_RETRIES }
{}

/// What came before a step of a walk is a walk.
pub fn walks_begin_as_walks()
    ensures { (session : ℕ) (script : ReadScript) (step : Step) (before : List Step) (walked : Walked)
        → walk session script (step ∷ before) ≡ Some walked → (was : Walked) × (walk session script before ≡ Some was) }
{}

/// What transactions of other sessions do leaves a session's events.
pub fn other_sessions_leave_the_events()
    ensures { (session : ℕ) (more past : History) → IsQuiet session more past → session_events session (more ++ past) ≡ session_events session past }
{}

/// In a legal history of a text's workload whose sessions walk through their scripts, few transactions
/// begin. So identifiers have room, whatever the sessions do.
pub fn runs_begin_few_transactions()
    ensures begins { (text : Text) (found : WorkloadValue × ℕ) (past : History) → workload_of text ≡ Ok found
        → IsLegal (programs_of found.0) past → AreMadeSoFarFrom 1 (read_scripts found.0) past
        → count_by is_begun past ≤ MAX_SESSIONS * (MAX_STATEMENTS * suc MAX_RETRIES) }
    ensures room { (text : Text) (found : WorkloadValue × ℕ) (past : History) → workload_of text ≡ Ok found
        → IsLegal (programs_of found.0) past → AreMadeSoFarFrom 1 (read_scripts found.0) past → HasRoom (1 + MAX_STATEMENTS) past }
{}

/// An outcome of a text's workload that is made by walks, and whose history is legal, has a report: each of
/// its parts has a text, each session has its lines, each statement that was answered or refused has one
/// event and one line that tells of it, and each holder of a lock began in a session that there is.
pub fn made_outcomes_are_printable()
    ensures { (text : Text) (found : WorkloadValue × ℕ) (outcome : OutcomeValue) → workload_of text ≡ Ok found
        → IsLegal (programs_of found.0) (reverse outcome.history) → IsMade (read_scripts found.0) outcome
        → IsPrintable found.0.scripts outcome }
{}

/// For one workload and one schedule at most one outcome is good, paced by the schedule and without want of
/// memory, apart from how the lists of its answers lie in memory: at each turn the session's next step is
/// determined by what came before it.
pub fn one_outcome_is_good_paced_and_unbroken()
    ensures { (programs : Programs) (scripts : List ReadScript) (schedule : List (ℕ × ℕ)) (one other : OutcomeValue)
        → IsGood programs scripts one → IsPaced schedule scripts one → IsUnbroken one
        → IsGood programs scripts other → IsPaced schedule scripts other → IsUnbroken other
        → plain_outcome one ≡ plain_outcome other }
{}

/// The report of a printable outcome determines the lines and the history, but for the answers whose lines
/// tell of want of memory, and apart from how the lists of answers lie in memory. Sessions have names, and
/// numbers are of 64 bits.
pub fn a_report_determines_its_outcome()
    ensures { (scripts : List Script) (one other : OutcomeValue) → All (λ script. IsTrue (is_name script.name)) scripts
        → IsPrintable scripts one → IsPrintable scripts other → HasNumbersOfReports one → HasNumbersOfReports other
        → report_text scripts one ≡ report_text scripts other → plain_outcome (blanked one) ≡ plain_outcome (blanked other) }
{}
