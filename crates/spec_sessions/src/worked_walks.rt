//! Walks of worked scripts, and runs of two sessions.
ghost use Rattle.std.specs.Prelude.{◌≡◌, ℕ, true, false, [], ◌∷◌, ◌++◌, List, reverse, Some, None};
ghost use Rattle.ras_syntax.specs.declared.answer.Answer.TheVariants.{Done};
ghost use Rattle.ras_syntax.specs.declared.event.Event.{Event};
ghost use Rattle.ras_syntax.specs.declared.event.Event.TheVariants.{Begun, Answered, GaveUp, Committed, Aborted};
ghost use Rattle.ras_syntax.specs.declared.faults.SyntaxFault.TheVariants.{Unexpected};
ghost use Rattle.ras_syntax.specs.declared.statement.Word.TheVariants.{Begin, Commit, Abort};
ghost use Rattle.std.specs.Prelude.{Err};
ghost use Rattle.spec_sessions.specs.Outcomes.{events_in, paced_events, session_events, turns_of};
ghost use Rattle.spec_sessions.specs.Walk.{made, quiet, recorded, out_of_memory, no_statement, begun, committed, aborted, no_transaction, in_transaction};
ghost use Rattle.spec_sessions.specs.Worked.{all_granted, by_data, by_word, divided, granted_in, line, lines_walked, meeting_history, refused_by, selected, selecting_walk, updating_walk};

/// `commit; begin; begin; abort;`
pub fn words_alone()
    ensures { lines_walked 1 (by_word (Commit false) ∷ by_word (Begin 0) ∷ by_word (Begin 0) ∷ by_word Abort ∷ [])
        (quiet false ∷ made (Begun 1 1 2) ∷ quiet false ∷ made (Aborted 1) ∷ [])
        ≡ Some (line 1 0 no_transaction ∷ line 2 1 begun ∷ line 3 1 in_transaction ∷ line 4 1 (aborted 4) ∷ []) }
{}

/// `begin; select div(1,0); commit;`, and the same with `commit anyway;`
pub fn bad_statements()
    ensures aborts { lines_walked 1 (by_word (Begin 0) ∷ by_data ∷ by_word (Commit false) ∷ [])
        (made (Begun 1 1 1) ∷ made (Answered 1 2 divided) ∷ made (Aborted 1) ∷ [])
        ≡ Some (line 1 1 begun ∷ line 2 1 recorded ∷ line 3 1 (aborted 2) ∷ []) }
    ensures commits { lines_walked 1 (by_word (Begin 0) ∷ by_data ∷ by_word (Commit true) ∷ [])
        (made (Begun 1 1 1) ∷ made (Answered 1 2 divided) ∷ made (Committed 1 1) ∷ [])
        ≡ Some (line 1 1 begun ∷ line 2 1 recorded ∷ line 3 1 (committed 1) ∷ []) }
    ensures never { lines_walked 1 (by_word (Begin 0) ∷ by_data ∷ by_word (Commit false) ∷ [])
        (made (Begun 1 1 1) ∷ made (Answered 1 2 divided) ∷ made (Committed 1 1) ∷ []) ≡ None }
    ensures unread { lines_walked 1 (by_word (Begin 0) ∷ Err (Unexpected 3) ∷ by_word (Commit false) ∷ [])
        (made (Begun 1 1 1) ∷ quiet false ∷ made (Aborted 1) ∷ [])
        ≡ Some (line 1 1 begun ∷ line 2 1 (no_statement (Unexpected 3)) ∷ line 3 1 (aborted 2) ∷ []) }
    ensures good { lines_walked 1 (by_word (Begin 0) ∷ by_data ∷ by_word (Commit false) ∷ [])
        (made (Begun 1 1 1) ∷ made (Answered 1 2 (Done 0)) ∷ made (Aborted 1) ∷ [])
        ≡ Some (line 1 1 begun ∷ line 2 1 recorded ∷ line 3 1 out_of_memory ∷ []) }
{}

/// A script that ends in a transaction, and a data statement in one of its own.
pub fn ends_of_scripts()
    ensures open { lines_walked 1 (by_word (Begin 0) ∷ []) (made (Begun 1 1 1) ∷ made (Aborted 1) ∷ []) ≡ Some (line 1 1 begun ∷ line 2 1 (aborted 2) ∷ []) }
    ensures not_over { lines_walked 1 (by_word (Begin 0) ∷ []) (made (Begun 1 1 1) ∷ []) ≡ None }
    ensures empty { lines_walked 1 [] [] ≡ Some [] }
    ensures own { lines_walked 2 (by_data ∷ []) (made (Begun 5 2 1) ∷ all_granted 5 1 ++ made (Answered 5 1 selected) ∷ made (Committed 5 3) ∷ [])
        ≡ Some (line 1 5 recorded ∷ []) }
    ensures own_fails { lines_walked 2 (by_data ∷ []) (made (Begun 5 2 1) ∷ made (Answered 5 1 divided) ∷ made (Aborted 5) ∷ []) ≡ Some (line 1 5 recorded ∷ []) }
    ensures own_commits_wrongly { lines_walked 2 (by_data ∷ []) (made (Begun 5 2 1) ∷ made (Answered 5 1 divided) ∷ made (Committed 5 1) ∷ []) ≡ None }
    ensures other_session { lines_walked 1 (by_data ∷ []) (made (Begun 5 2 1) ∷ made (Answered 5 1 selected) ∷ made (Committed 5 1) ∷ []) ≡ None }
{}

/// Want of memory at each place.
pub fn walks_without_memory()
    ensures begin { lines_walked 1 (by_word (Begin 0) ∷ by_data ∷ by_word (Begin 0) ∷ by_word (Commit false) ∷ by_word Abort ∷ [])
        (quiet true ∷ quiet true ∷ quiet true ∷ quiet true ∷ quiet false ∷ [])
        ≡ Some (line 1 0 out_of_memory ∷ line 2 0 out_of_memory ∷ line 3 0 out_of_memory ∷ line 4 0 out_of_memory ∷ line 5 0 no_transaction ∷ []) }
    ensures with_grant { lines_walked 1 (by_word (Begin 0) ∷ by_data ∷ by_word (Commit true) ∷ [])
        (made (Begun 1 1 1) ∷ made (granted_in 1 2 1) ∷ made (GaveUp 1 2) ∷ made (Committed 1 1) ∷ [])
        ≡ Some (line 1 1 begun ∷ line 2 1 out_of_memory ∷ line 3 1 (committed 1) ∷ []) }
    ensures without_grant { lines_walked 1 (by_word (Begin 0) ∷ by_data ∷ by_word (Commit false) ∷ []) (made (Begun 1 1 1) ∷ quiet true ∷ made (Aborted 1) ∷ [])
        ≡ Some (line 1 1 begun ∷ line 2 1 out_of_memory ∷ line 3 1 (aborted 2) ∷ []) }
    ensures not_given_up { lines_walked 1 (by_word (Begin 0) ∷ by_data ∷ by_word (Commit true) ∷ [])
        (made (Begun 1 1 1) ∷ made (GaveUp 1 2) ∷ made (Committed 1 1) ∷ []) ≡ None }
    ensures own_commit { lines_walked 1 (by_data ∷ []) (made (Begun 1 1 1) ∷ made (Answered 1 1 (Done 1)) ∷ made (Aborted 1) ∷ []) ≡ Some (line 1 1 out_of_memory ∷ []) }
    ensures own_begin { lines_walked 1 (by_data ∷ []) (quiet true ∷ []) ≡ Some (line 1 0 out_of_memory ∷ []) }
    ensures own_closing { lines_walked 1 (by_data ∷ []) (made (Begun 1 1 1) ∷ made (granted_in 1 1 1) ∷ made (GaveUp 1 1) ∷ made (Aborted 1) ∷ [])
        ≡ Some (line 1 1 out_of_memory ∷ []) }
{}

/// `begin retry 1; select ..; commit;`: the select is refused once, and then again.
pub fn tries_again()
    ensures twice { lines_walked 2 (by_word (Begin 1) ∷ by_data ∷ by_word (Commit false) ∷ [])
        (made (Begun 2 2 1) ∷ made (granted_in 2 2 1) ∷ made (refused_by 2 2 2 1) ∷ made (Aborted 2)
        ∷ made (Begun 3 2 1) ∷ made (granted_in 3 2 1) ∷ made (granted_in 3 2 2) ∷ made (Answered 3 2 selected) ∷ made (Committed 3 2) ∷ [])
        ≡ Some (line 1 2 begun ∷ line 2 2 recorded ∷ line 1 3 begun ∷ line 2 3 recorded ∷ line 3 3 (committed 2) ∷ []) }
    ensures no_more { lines_walked 2 (by_word (Begin 1) ∷ by_data ∷ by_word (Commit false) ∷ [])
        (made (Begun 2 2 1) ∷ made (refused_by 2 2 1 1) ∷ made (Aborted 2) ∷ made (Begun 3 2 1) ∷ made (refused_by 3 2 1 1) ∷ made (Aborted 3) ∷ [])
        ≡ Some (line 1 2 begun ∷ line 2 2 recorded ∷ line 1 3 begun ∷ line 2 3 recorded ∷ line 3 3 (aborted 2) ∷ []) }
    ensures unasked { lines_walked 2 (by_word (Begin 1) ∷ by_data ∷ by_word (Commit false) ∷ [])
        (made (Begun 2 2 1) ∷ made (Answered 2 2 selected) ∷ made (Aborted 2) ∷ made (Begun 3 2 1) ∷ made (Answered 3 2 selected) ∷ made (Committed 3 1) ∷ [])
        ≡ None }
{}

/// Two sessions, `begin; update ..; commit;` and `select ..; select ..;`, that meet in one tile: five steps
/// of the first, eleven of the second, and what is left.
pub fn two_sessions_meet()
    ensures order { paced_events (turns_of ((1, 5) ∷ (2, 11) ∷ [])) (updating_walk ∷ selecting_walk ∷ []) ≡ meeting_history }
    ensures skipped { paced_events (turns_of ((9, 3) ∷ (1, 5) ∷ (2, 50) ∷ (0, 1) ∷ [])) (updating_walk ∷ selecting_walk ∷ []) ≡ meeting_history }
    ensures alone { paced_events [] (updating_walk ∷ selecting_walk ∷ []) ≡ events_in updating_walk ++ events_in selecting_walk }
    ensures first { session_events 1 (reverse meeting_history) ≡ reverse (events_in updating_walk) }
    ensures second { session_events 2 (reverse meeting_history) ≡ reverse (events_in selecting_walk) }
    ensures first_lines { lines_walked 1 (by_word (Begin 0) ∷ by_data ∷ by_word (Commit false) ∷ []) updating_walk
        ≡ Some (line 1 1 begun ∷ line 2 1 recorded ∷ line 3 1 (committed 2) ∷ []) }
    ensures second_lines { lines_walked 2 (by_data ∷ by_data ∷ []) selecting_walk ≡ Some (line 1 2 recorded ∷ line 2 3 recorded ∷ []) }
{}
