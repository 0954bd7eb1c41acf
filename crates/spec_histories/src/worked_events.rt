//! A worked history: who lives and holds what, and what the databases are. Each law is the contract
//! of a function that does nothing.
ghost use Rattle.std.specs.Prelude.{◌≡◌, [], ◌∷◌, Some, None, codes, length, map, true, false};
ghost use Rattle.std.specs.Map.{keys_of};
ghost use Rattle.spec_statements.specs.Reply.{done};
ghost use Rattle.spec_statements.specs.WorkedStatements.{create_H, drop_H};
ghost use Rattle.spec_histories.specs.History.{answered_statements, numbered_replies_in, committed_database, begun_at, granted_locks, has_phase, is_closed, is_live, is_open, events_of, own_database, statement_numbered};
ghost use Rattle.spec_histories.specs.Serializable.{committed_replies, committed_statements};
ghost use Rattle.spec_histories.specs.Worked.{committed_once, create_K, on_H, on_K, programs, under_way};

/// A transaction lives from its begin to its end, and holds what it was granted.
pub fn lives_and_locks()
    // session 1: begin; create collection H GreySet; drop collection H
    // session 2: create collection K GreySet; a text that is no statement
    // session 3: drop collection H
    ensures both_live { (is_live 1 under_way ≡ true) × (is_live 2 under_way ≡ true) }
    ensures not_begun { is_live 3 under_way ≡ false }
    ensures ended { (is_live 1 committed_once ≡ false) × (is_live 3 committed_once ≡ false) }
    ensures still_live { is_live 2 committed_once ≡ true }
    // create collection K GreySet
    ensures its_locks { granted_locks (events_of 2 committed_once) ≡ on_K }
    ensures its_begin { begun_at (events_of 2 committed_once) ≡ Some (2, 1) }
{}

/// A statement is open from its first grant until it is answered, refused or given up.
pub fn open_and_closed_statements()
    // create collection H GreySet
    ensures answered { (is_open 2 (events_of 1 under_way) ≡ false) × (is_closed 2 (events_of 1 under_way) ≡ true) }
    // create collection K GreySet
    ensures granted { (is_open 1 (events_of 2 under_way) ≡ true) × (is_closed 1 (events_of 2 under_way) ≡ false) }
    // drop collection H
    ensures given_up { (is_open 1 (events_of 3 committed_once) ≡ false) × (is_closed 1 (events_of 3 committed_once) ≡ true) }
    // create collection K GreySet
    ensures first_phase { has_phase 1 1 (events_of 2 under_way) ≡ true }
    ensures second_phase { has_phase 1 2 (events_of 2 under_way) ≡ false }
{}

/// An event's statement is that of its number in the script of its transaction's session, counted
/// from 1.
pub fn statements_of_events()
    // create collection H GreySet
    ensures first_session { statement_numbered programs (events_of 1 under_way) 2 ≡ Some create_H }
    // create collection K GreySet
    ensures second_session { statement_numbered programs (events_of 2 under_way) 1 ≡ Some create_K }
    // a text that is no statement
    ensures no_statement { statement_numbered programs (events_of 2 under_way) 2 ≡ None }
    // no text
    ensures no_such_number { statement_numbered programs (events_of 1 under_way) 4 ≡ None }
    ensures none_before_the_first { statement_numbered programs (events_of 1 under_way) 0 ≡ None }
    ensures not_begun { statement_numbered programs (events_of 3 under_way) 1 ≡ None }
    // create collection H GreySet
    ensures answered { answered_statements programs (events_of 1 under_way) ≡ create_H ∷ [] }
    ensures answers { numbered_replies_in (events_of 1 under_way) ≡ (2, done 0) ∷ [] }
{}

/// The committed database changes at a commit alone; a transaction's own one has its own effects too.
/// Above a row stand the statements whose effects it shows.
pub fn databases_of_histories()
    // none yet
    ensures committed_before { keys_of (committed_database programs under_way) ≡ codes "G" ∷ [] }
    // create collection H GreySet
    ensures own_before { keys_of (own_database programs under_way 1) ≡ codes "G" ∷ codes "H" ∷ [] }
    // none yet
    ensures others_before { keys_of (own_database programs under_way 2) ≡ codes "G" ∷ [] }
    // create collection H GreySet
    ensures committed_after { keys_of (committed_database programs committed_once) ≡ codes "G" ∷ codes "H" ∷ [] }
    // create collection H GreySet; create collection K GreySet
    ensures own_after { keys_of (own_database programs committed_once 2) ≡ codes "G" ∷ codes "H" ∷ codes "K" ∷ [] }
    // create collection H GreySet
    ensures of_the_ended { keys_of (own_database programs committed_once 3) ≡ codes "G" ∷ codes "H" ∷ [] }
    ensures statements { committed_statements programs committed_once ≡ create_H ∷ [] }
    ensures replies { committed_replies committed_once ≡ done 0 ∷ [] }
{}
