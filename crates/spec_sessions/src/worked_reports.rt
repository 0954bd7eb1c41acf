//! Reports of worked outcomes, written out.
ghost use Rattle.std.specs.Prelude.{◌≡◌, [], ◌∷◌, ◌++◌, codes, pos};
ghost use Rattle.ras_domain.specs.declared.lock.LockName.TheVariants.{Tile};
ghost use Rattle.ras_domain.specs.declared.lock.Mode.TheVariants.{Shared};
ghost use Rattle.ras_syntax.specs.declared.answer.Answer.TheVariants.{Done};
ghost use Rattle.ras_syntax.specs.declared.event.Event.TheVariants.{Refused};
ghost use Rattle.spec_sessions.specs.Printable.{blanked, events_on, lines_on};
ghost use Rattle.spec_sessions.specs.Report.{report_text};
ghost use Rattle.spec_sessions.specs.Walk.{recorded};
ghost use Rattle.spec_sessions.specs.Worked.{line};
ghost use Rattle.spec_sessions.specs.WorkedReports.{each_kind, met, named, trimmed_outcome, untold_with};

/// One session with `select a[1:2,1:2] from G as a`.
pub fn one_select_is_reported()
    ensures trim { report_text (named (codes "A") ∷ []) trimmed_outcome
        ≡ codes "#rasq report 1\n#session A\n1 1 value 1\nrow [1:2,1:2] 5 6 9 10\n#history\nbegun 1 session 1 statement 1\n"
        ++ codes "granted 1 1 phase 1: S collection G\ngranted 1 1 phase 2: S domain G 1\n"
        ++ codes "granted 1 1 phase 4: S tile G 1 [0,0], S tile G 1 [0,1], S tile G 1 [1,0], S tile G 1 [1,1]\n"
        ++ codes "answered 1 1\ncommitted 1 1\n#end\n" }
{}

/// A session whose select meets another one's update, and is refused.
pub fn a_refusal_is_reported()
    ensures met { report_text (named (codes "A") ∷ named (codes "B") ∷ []) met
        ≡ codes "#rasq report 1\n#session A\n1 1 begun\n2 1 done 1\n3 1 committed 2\n"
        ++ codes "#session B\n1 2 locked tile G 1 [0,0] holder 1 of A\n2 3 value 1\nrow [2:3,2:3] 10 11 14 15\n"
        ++ codes "#history\nbegun 1 session 1 statement 1\ngranted 1 2 phase 1: S collection G\ngranted 1 2 phase 2: S domain G 1\n"
        ++ codes "granted 1 2 phase 4: X tile G 1 [0,0]\nanswered 1 2\nbegun 2 session 2 statement 1\ngranted 2 1 phase 1: S collection G\n"
        ++ codes "granted 2 1 phase 2: S domain G 1\nrefused 2 1 phase 4 S tile G 1 [0,0] holder 1\naborted 2\nbegun 3 session 2 statement 2\n"
        ++ codes "granted 3 2 phase 1: S collection G\ngranted 3 2 phase 2: S domain G 1\ngranted 3 2 phase 4: S tile G 1 [1,1]\nanswered 3 2\n"
        ++ codes "committed 3 1\ncommitted 1 2\n#end\n" }
{}

/// Lines and answers of each kind.
pub fn each_kind_of_line_is_reported()
    ensures lines { report_text (named (codes "b_2") ∷ []) each_kind
        ≡ codes "#rasq report 1\n#session b_2\n1 0 no transaction\n2 1 begun\n3 1 in transaction\n4 1 fault divide_by_zero row 1 at [0,-3]\n"
        ++ codes "5 1 shape reply_too_large row 0 span 0:20\n6 1 check no_collection span 14:15\n7 1 value 4\nrow null\nrow -7\nrow {0,10}\nrow sdom [-1:3]\n"
        ++ codes "8 1 syntax unexpected at 13\n9 1 memory\n10 1 aborted 10\n#history\nbegun 1 session 1 statement 2\nanswered 1 4\nanswered 1 5\n"
        ++ codes "answered 1 6\nanswered 1 7\ngave up 1 9\naborted 1\n#end\n" }
{}

/// The event and the line of a statement; and what a report doesn't tell: an answer whose line tells of
/// want of memory.
pub fn reports_leave_out_untold_answers()
    ensures event { events_on met 2 1 ≡ Refused 2 1 4 (Tile (codes "G") 1 (record { items = pos 0 ∷ pos 0 ∷ [] })) Shared 1 ∷ [] }
    ensures line { lines_on met 2 1 ≡ line 1 2 recorded ∷ [] }
    ensures none { events_on met 1 3 ≡ [] }
    ensures told { blanked met ≡ met }
    ensures untold { blanked (untold_with (Done 7)) ≡ untold_with (Done 0) }
    ensures same { report_text (named (codes "A") ∷ []) (untold_with (Done 7)) ≡ report_text (named (codes "A") ∷ []) (untold_with (Done 0)) }
{}
