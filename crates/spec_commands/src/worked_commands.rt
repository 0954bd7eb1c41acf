//! What the command that checks a workload says of texts that are worked out by hand. Trees of
//! expressions don't compute, so these texts have none.
ghost use Rattle.std.specs.Prelude.{◌≡◌, [], ◌++◌, codes, Ok, Err};
ghost use Rattle.spec_commands.specs.Commands.{check_command};
ghost use Rattle.spec_workloads.specs.WorkedTexts.{setup_with, small_setup, titled_text};

/// Behind the last heading, which is line 10 here, stand blanks or nothing.
pub fn blanks_may_follow()
    ensures nothing { check_command (setup_with small_setup []) ≡ Ok (codes "#rasq check 1\n#end\n") }
    ensures blanks { check_command (setup_with small_setup [] ++ codes " \n\t\r\n") ≡ Ok (codes "#rasq check 1\n#end\n") }
    ensures unended { check_command (titled_text (codes "#end")) ≡ Ok (codes "#rasq check 1\n#end\n") }
    ensures comment { check_command (setup_with small_setup [] ++ codes "-- c\n") ≡ Err (codes "refused heading line 11\n") }
    ensures later { check_command (setup_with small_setup [] ++ codes "\n \n x\n") ≡ Err (codes "refused heading line 13\n") }
{}

/// The outline is judged first, then what follows it, and then the setup is run.
pub fn faults_in_their_order()
    ensures outline { check_command (titled_text (codes "#setups\n#end\nx")) ≡ Err (codes "refused heading line 2\n") }
    ensures behind { check_command (setup_with (codes "drop collection N;\n") [] ++ codes "x") ≡ Err (codes "refused heading line 9\n") }
    ensures setup { check_command (setup_with (codes "drop collection N;\n") [])
        ≡ Err (codes "refused setup statement 1 check no_collection span 16:17\n") }
{}

/// Each statement is told with its check.
pub fn statements_are_told()
    ensures { check_command (setup_with small_setup (codes "#session A\ndrop collection N;\nbegin;\ndrop collection G;\n"))
        ≡ Ok (codes "#rasq check 1\nA 1 ok\nA 2 ok\nA 3 check no_collection span 16:17\n#end\n") }
{}
