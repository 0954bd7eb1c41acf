//! The laws. `specs/` of the crate of histories has the words that they use.
ghost use Rattle.std.specs.Prelude.{◌≢◌, ◌≡◌, ℕ, [], ◌∷◌, ◌++◌, IsTrue};
ghost use Rattle.spec_statements.specs.Agree.{Agrees};
ghost use Rattle.spec_statements.specs.Machine.{machine};
ghost use Rattle.ras_syntax.specs.declared.event.Event.TheVariants.{Committed};
ghost use Rattle.spec_histories.specs.History.{History, Programs, committed_database, granted_locks, is_live, events_of, own_database};
ghost use Rattle.spec_histories.specs.Legal.{IsLegal};
ghost use Rattle.spec_histories.specs.Serializable.{ArePrograms, HasRoom, IsSerializable, IsSteady, committed_replies, committed_statements};

/// In a legal history the committed transactions, one after another in the order of their commits,
/// are a run of the machine of one thread: it gives the answers that the history records, and leaves
/// the committed database.
pub fn legal_histories_are_serializable()
    ensures { (programs : Programs) (bound : ℕ) (past : History)
        → ArePrograms programs bound → HasRoom bound past → IsLegal programs past → IsSerializable programs past }
{}

/// The same, told of the machine itself.
pub fn legal_histories_run_on_one_thread()
    ensures answers { (programs : Programs) (bound : ℕ) (past : History)
        → ArePrograms programs bound → HasRoom bound past → IsLegal programs past
        → (machine programs.types (committed_statements programs past) programs.base).0 ≡ committed_replies past }
    ensures last { (programs : Programs) (bound : ℕ) (past : History)
        → ArePrograms programs bound → HasRoom bound past → IsLegal programs past
        → (machine programs.types (committed_statements programs past) programs.base).1 ≡ committed_database programs past }
{}

/// In a legal history the answers of a live transaction are those of a run over the committed
/// database as it is now, and the lists that were granted to its open statement are those that it
/// needs now.
pub fn legal_histories_are_steady()
    ensures { (programs : Programs) (bound : ℕ) (past : History) (t : ℕ)
        → ArePrograms programs bound → HasRoom bound past
        → IsLegal programs past → IsTrue (is_live t past) → IsSteady programs past t }
{}

/// A commit leaves as it is what another live transaction holds locks on.
pub fn commits_leave_what_others_hold()
    ensures { (programs : Programs) (bound : ℕ) (past : History) (t number other : ℕ)
        → ArePrograms programs bound → HasRoom bound past
        → IsLegal programs (Committed t number ∷ past) → other ≢ t → IsTrue (is_live other past)
        → Agrees programs.types (granted_locks (events_of other past)) (committed_database programs past) (committed_database programs (Committed t number ∷ past)) }
{}

/// Whatever others do, a live transaction lives on, and the committed database and its own one show
/// it the same of all that it holds locks on.
pub fn what_was_seen_stays()
    ensures live { (more past : History) (t : ℕ)
        → IsTrue (is_live t past) → events_of t more ≡ [] → IsTrue (is_live t (more ++ past)) }
    ensures committed { (programs : Programs) (bound : ℕ) (more past : History) (t : ℕ)
        → ArePrograms programs bound → HasRoom bound (more ++ past)
        → IsLegal programs (more ++ past) → IsTrue (is_live t past) → events_of t more ≡ []
        → Agrees programs.types (granted_locks (events_of t past)) (committed_database programs past) (committed_database programs (more ++ past)) }
    ensures own { (programs : Programs) (bound : ℕ) (more past : History) (t : ℕ)
        → ArePrograms programs bound → HasRoom bound (more ++ past)
        → IsLegal programs (more ++ past) → IsTrue (is_live t past) → events_of t more ≡ []
        → Agrees programs.types (granted_locks (events_of t past)) (own_database programs past t) (own_database programs (more ++ past) t) }
{}
