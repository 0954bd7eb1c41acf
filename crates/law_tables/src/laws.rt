//! What a table of locks says of the history whose locks it has.
ghost use Rattle.std.specs.Prelude.{◌≡◌, ℕ, List, [], ◌∷◌, Contains, IsTrue};
ghost use Rattle.spec_statements.specs.Locks.{Lock};
ghost use Rattle.spec_histories.specs.History.{History, events_of, is_live};
ghost use Rattle.spec_histories.specs.Legal.{IsBlockedBy, IsFirstBlocked, IsFree};
ghost use Rattle.ras_syntax.specs.declared.event.Event.TheVariants.{Begun, Granted, Refused, Answered, GaveUp, Committed, Aborted};
ghost use Rattle.ras_domain.specs.declared.lock.Mode.{Mode};
ghost use Rattle.ras_syntax.specs.declared.answer.Answer.{Answer};
ghost use Rattle.ras_domain.specs.declared.lock.LockName.{LockName};
ghost use Rattle.ras_locks.specs.Holders.{without_owner};
ghost use Rattle.ras_locks.specs.Tables.{HeldLocks, IsContestedBy, IsFirstConflict, IsUncontested, holders_of, with_locks};
ghost use Rattle.law_tables.specs.Tied.{IsTableOf};

/// The table in which no lock is held is that of the history in which nothing happened.
pub fn the_empty_table_is_of_no_history()
    ensures { (table : HeldLocks) → ((name : LockName) → holders_of table name ≡ []) → IsTableOf [] table }
{}

/// A lock conflicts with an entry of the table exactly where a transaction holds one that blocks it.
pub fn a_conflict_is_a_block()
    ensures blocked { (past : History) (table : HeldLocks) (t : ℕ) (lock : Lock) (other : ℕ)
        → IsTableOf past table → IsContestedBy table t lock other → IsBlockedBy past t lock other }
    ensures contested { (past : History) (table : HeldLocks) (t : ℕ) (lock : Lock) (other : ℕ)
        → IsTableOf past table → IsBlockedBy past t lock other → IsContestedBy table t lock other }
{}

/// A list of which the table says that no lock conflicts is one of which every lock is free, and the
/// other way round.
pub fn uncontested_lists_are_free()
    ensures free { (past : History) (table : HeldLocks) (t : ℕ) (list : List Lock)
        → IsTableOf past table → IsUncontested table list t → (lock : Lock) → Contains list lock → IsFree past t lock }
    ensures uncontested { (past : History) (table : HeldLocks) (t : ℕ) (list : List Lock)
        → IsTableOf past table → ((lock : Lock) → Contains list lock → IsFree past t lock) → IsUncontested table list t }
{}

/// The first conflict that a table gives is the one that a refusal names: the first lock of the list
/// that is blocked, and the least transaction that blocks it.
pub fn the_first_conflict_is_the_first_block()
    ensures { (past : History) (table : HeldLocks) (t : ℕ) (list : List Lock) (place other : ℕ)
        → IsTableOf past table → (conflict : IsFirstConflict table list t place other)
        → IsFirstBlocked past t list conflict.lock other }
{}

/// After a list is granted to a live transaction, the table with that list is the table of the
/// history that goes on so.
pub fn a_grant_is_in_the_table()
    ensures { (past : History) (t k p : ℕ) (list : List Lock) (table new : HeldLocks) → IsTrue (is_live t past) → IsTableOf past table
        → ((name : LockName) → holders_of new name ≡ with_locks list t name (holders_of table name))
        → IsTableOf (Granted t k p list ∷ past) new }
{}

/// After a transaction commits or is aborted, the table without it is the table of the history.
pub fn an_end_leaves_the_table()
    ensures committed { (past : History) (t n : ℕ) (table new : HeldLocks) → IsTableOf past table
        → ((name : LockName) → holders_of new name ≡ without_owner t (holders_of table name)) → IsTableOf (Committed t n ∷ past) new }
    ensures aborted { (past : History) (t : ℕ) (table new : HeldLocks) → IsTableOf past table
        → ((name : LockName) → holders_of new name ≡ without_owner t (holders_of table name)) → IsTableOf (Aborted t ∷ past) new }
{}

/// The other events leave the table: an answer, a refusal, a statement that is given up, and the
/// begin of a transaction that had no event before.
pub fn other_events_leave_the_table()
    ensures begun { (past : History) (t session k : ℕ) (table new : HeldLocks) → events_of t past ≡ [] → IsTableOf past table
        → ((name : LockName) → holders_of new name ≡ holders_of table name) → IsTableOf (Begun t session k ∷ past) new }
    ensures answered { (past : History) (t k : ℕ) (answer : Answer) (table new : HeldLocks) → IsTableOf past table
        → ((name : LockName) → holders_of new name ≡ holders_of table name) → IsTableOf (Answered t k answer ∷ past) new }
    ensures refused { (past : History) (t k p : ℕ) (lock : LockName) (mode : Mode) (holder : ℕ) (table new : HeldLocks)
        → IsTableOf past table → ((name : LockName) → holders_of new name ≡ holders_of table name) → IsTableOf (Refused t k p lock mode holder ∷ past) new }
    ensures gave_up { (past : History) (t k : ℕ) (table new : HeldLocks) → IsTableOf past table
        → ((name : LockName) → holders_of new name ≡ holders_of table name) → IsTableOf (GaveUp t k ∷ past) new }
{}

/// A list that conflicts with nothing in one table conflicts with nothing in another that has the same
/// holders, as the one that a reservation leaves.
pub fn the_same_holders_conflict_alike()
    ensures { (table new : HeldLocks) (t : ℕ) (list : List Lock) → ((name : LockName) → holders_of new name ≡ holders_of table name)
        → IsUncontested table list t → IsUncontested new list t }
{}
