//! Worked histories: which event may follow which others, and which may not. Each law is the
//! contract of a function that does nothing.
ghost use Rattle.std.specs.Prelude.{◌∷◌};
ghost use Rattle.ras_domain.specs.declared.lock.LockName.TheVariants.{Collection};
ghost use Rattle.ras_domain.specs.declared.lock.Mode.TheVariants.{Exclusive};
ghost use Rattle.ras_syntax.specs.declared.answer.Answer.{Answer};
ghost use Rattle.ras_syntax.specs.declared.answer.Answer.TheVariants.{Done};
ghost use Rattle.spec_statements.specs.WorkedChecks.{H_};
ghost use Rattle.ras_syntax.specs.declared.event.Event.TheVariants.{Begun, Granted, Refused, Answered, Committed};
ghost use Rattle.spec_histories.specs.Legal.{IsLegal, MayFollow};
ghost use Rattle.spec_histories.specs.Serializable.{ArePrograms, IsSerializable, IsSteady};
ghost use Rattle.spec_histories.specs.Worked.{committed_once, on_H, programs, under_way};

/// One transaction creates a collection and commits, a second one creates another and lives on, and
/// a third one gives its statement up and is aborted.
pub fn a_legal_history()
    // session 1: begin; create collection H GreySet; drop collection H
    // session 2: create collection K GreySet; a text that is no statement
    // session 3: drop collection H
    ensures { IsLegal programs committed_once }
{}

/// The programs meet the premises of the laws, which so hold of this history.
pub fn the_laws_hold_of_the_legal_history()
    ensures premises { ArePrograms programs 2 }
    ensures serial { IsSerializable programs committed_once }
    ensures steady { IsSteady programs committed_once 2 }
{}

/// While the first transaction holds the lock on a collection, the third one is refused it, and the
/// first is named.
pub fn a_refusal_is_legal()
    // drop collection H
    ensures { IsLegal programs (Refused 3 1 1 (Collection H_) Exclusive 1 ∷ Begun 3 3 1 ∷ under_way) }
{}

/// After the first transaction's commit the third one is granted that lock.
pub fn a_lock_is_free_after_its_owners_commit()
    // drop collection H
    ensures { IsLegal programs (Granted 3 1 1 on_H ∷ Begun 3 3 1 ∷ Answered 2 1 (Done 0) ∷ Committed 1 1 ∷ under_way) }
{}

/// Locks that another transaction holds aren't granted, and a refusal names one that does hold them.
pub fn wrong_grants_are_not_legal()
    // drop collection H
    ensures granted_what_another_holds { MayFollow programs (Begun 3 3 1 ∷ under_way) (Granted 3 1 1 on_H) → ⊥ }
    ensures refused_for_one_that_holds_none { MayFollow programs (Begun 3 3 1 ∷ under_way) (Refused 3 1 1 (Collection H_) Exclusive 2) → ⊥ }
    ensures refused_what_is_free { MayFollow programs (Begun 3 3 1 ∷ Answered 2 1 (Done 0) ∷ Committed 1 1 ∷ under_way) (Refused 3 1 1 (Collection H_) Exclusive 1) → ⊥ }
{}

/// Only a statement that was granted its locks is answered, as the machine answers it, and once.
pub fn wrong_answers_are_not_legal()
    // create collection K GreySet
    ensures another_answer { MayFollow programs under_way (Answered 2 1 (Done 1)) → ⊥ }
    // drop collection H
    ensures before_its_locks { (answer : Answer) → MayFollow programs (Begun 3 3 1 ∷ under_way) (Answered 3 1 answer) → ⊥ }
    // create collection H GreySet
    ensures a_second_time { (answer : Answer) → MayFollow programs under_way (Answered 1 2 answer) → ⊥ }
    // a text that is no statement
    ensures of_no_statement { (answer : Answer) → MayFollow programs under_way (Answered 2 2 answer) → ⊥ }
{}

/// Commits are numbered in order, none is of a transaction that has ended, and a session has one live
/// transaction at most.
pub fn wrong_begins_and_commits_are_not_legal()
    ensures another_number_of_a_commit { MayFollow programs under_way (Committed 1 2) → ⊥ }
    ensures a_commit_of_an_ended_one { MayFollow programs committed_once (Committed 3 2) → ⊥ }
    // begin
    ensures a_second_one_of_a_session { MayFollow programs under_way (Begun 3 1 1) → ⊥ }
{}
