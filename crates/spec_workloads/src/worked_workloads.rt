//! Workloads of worked texts, and the texts of their checks and refusals. Trees of expressions don't
//! compute, so these rows have none.
ghost use Rattle.std.specs.Prelude.{◌≡◌, [], ◌++◌, codes, Ok};
ghost use Rattle.spec_workloads.specs.Setup.{workload_of};
ghost use Rattle.spec_workloads.specs.WorkedTexts.{checks_of, setup_with, small_setup, small_workload, titled_text};

/// A setup is run in order, from no collections.
pub fn setups_are_run()
    ensures small { workload_of (setup_with small_setup []) ≡ Ok (small_workload, 266) }
{}

/// Each statement with its check: right ones, session words, and the first fault of the others.
pub fn statements_are_checked()
    ensures none { checks_of (setup_with small_setup []) ≡ codes "#rasq check 1\n#end\n" }
    ensures words { checks_of (setup_with [] (codes "#session A\nbegin; Commit anyway;\n#session b\nbegin retry 3;\n;\n-- c\nbegin retry 0;\n"))
        ≡ codes "#rasq check 1\nA 1 ok\nA 2 ok\nb 1 ok\nb 2 syntax unexpected at 0\nb 3 syntax unexpected at 12\n#end\n" }
    ensures checks { checks_of (setup_with small_setup (codes "#session A\ncreate collection G GreySet;\ncreate collection N GreySet;\ndrop collection G;\ncreate collection H Grey;\ndrop collection N;\n"))
        ≡ codes "#rasq check 1\nA 1 ok\nA 2 check collection_exists span 18:19\nA 3 check no_collection span 16:17\nA 4 check no_type span 20:24\nA 5 ok\n#end\n" }
{}

/// Setups with a statement that isn't done, and texts without an outline.
pub fn texts_are_refused()
    ensures check { checks_of (setup_with (codes "create collection G GreySet;\ndrop collection N;\n") [])
        ≡ codes "refused setup statement 2 check no_collection span 16:17\n" }
    ensures word { checks_of (setup_with (codes "create collection G GreySet;\ncommit;\n") []) ≡ codes "refused setup statement 2 word\n" }
    ensures syntax { checks_of (setup_with (codes "drop collection;\n") []) ≡ codes "refused setup statement 1 syntax unexpected at 15\n" }
    ensures no_text { checks_of [] ≡ codes "refused heading line 1\n" }
    ensures of_type { checks_of (titled_text (codes "#types\n\n;#end")) ≡ codes "refused type line 4\n" }
    ensures cut { checks_of (titled_text []) ≡ codes "refused no end\n" }
{}
