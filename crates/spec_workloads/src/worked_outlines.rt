//! The outlines of worked texts, as they were found by hand.
ghost use Rattle.std.specs.Prelude.{◌≡◌, [], ◌∷◌, ◌++◌, codes, Ok, Err};
ghost use Rattle.spec_workloads.specs.Outline.{outline_of, bad_heading, bad_type, too_many_sessions, too_many_statements, no_end, no_outline};
ghost use Rattle.spec_workloads.specs.WorkedTexts.{base_text, base_outline, titled_text, types_text, type_text, sessions_text, empty_statements, small_text, outlines_of_fronts, small_outlines};

/// Three types, a setup of six statements and one session.
pub fn base_workload()
    ensures whole { outline_of base_text ≡ Ok (base_outline, 489) }
{}

/// A title and an end are a workload. What follows the end isn't looked at.
pub fn smallest_workloads()
    ensures empty { outline_of (titled_text (codes "#end")) ≡ Ok (no_outline, 21) }
    ensures more { outline_of (titled_text (codes "#end\n#rasq report 1\n")) ≡ Ok (no_outline, 22) }
    ensures blanks { outline_of (codes "#rasq workload 1 \t\r\n -- nothing\n\n#end \n") ≡ Ok (no_outline, 39) }
{}

/// A small workload that is cut behind each of its bytes.
pub fn cut_workloads()
    ensures fronts { outlines_of_fronts small_text 32 ≡ small_outlines }
{}

/// A statement begins with its first byte that is no blank and in no comment, and goes up to its semicolon.
pub fn statements_between_semicolons()
    ensures comment { outline_of (titled_text (codes "#setup\n -- a;\n drop -- b;\n collection G ; ;\n#end\n"))
        ≡ Ok (record no_outline { setup = codes "drop -- b;\n collection G " ∷ [] ∷ [] }, 66) }
{}

/// Headings that aren't due.
pub fn wrong_headings()
    ensures nothing { outline_of [] ≡ Err (bad_heading 1) }
    ensures title { outline_of (codes "#rasq workload 2\n#end\n") ≡ Err (bad_heading 1) }
    ensures late_title { outline_of (codes "\n#rasq workload 1\n#end\n") ≡ Err (bad_heading 1) }
    ensures unknown { outline_of (titled_text (codes "#type\n#end\n")) ≡ Err (bad_heading 2) }
    ensures types_twice { outline_of (titled_text (codes "#types\n#types\n#end\n")) ≡ Err (bad_heading 3) }
    ensures types_late { outline_of (titled_text (codes "#setup\n#types\n#end\n")) ≡ Err (bad_heading 3) }
    ensures setup_late { outline_of (titled_text (codes "#session A\n#setup\n#end\n")) ≡ Err (bad_heading 3) }
    ensures no_name { outline_of (titled_text (codes "#session\n#end\n")) ≡ Err (bad_heading 2) }
    ensures two_blanks { outline_of (titled_text (codes "#session  A\n#end\n")) ≡ Err (bad_heading 2) }
    ensures two_names { outline_of (titled_text (codes "#session A B\n#end\n")) ≡ Err (bad_heading 2) }
    ensures word { outline_of (titled_text (codes "#session Select\n#end\n")) ≡ Err (bad_heading 2) }
    ensures taken { outline_of (titled_text (codes "#session A\n#session a\n#session A\n#end\n")) ≡ Err (bad_heading 4) }
    ensures outside { outline_of (titled_text (codes "\n -- c\n ;\n#end\n")) ≡ Err (bad_heading 4) }
    ensures in_statement { outline_of (titled_text (codes "#setup\ndrop collection G\n#end\n")) ≡ Err (bad_heading 4) }
    ensures in_type { outline_of (titled_text (codes "#types\ntype A = wide\n#end\n")) ≡ Err (bad_heading 4) }
{}

/// Texts that end too early.
pub fn texts_without_an_end()
    ensures title { outline_of (titled_text []) ≡ Err no_end }
    ensures statement { outline_of (titled_text (codes "#setup\ndrop collection G")) ≡ Err no_end }
    ensures of_type { outline_of (titled_text (codes "#types\ntype A = wide")) ≡ Err no_end }
{}

/// Type lines of another form.
pub fn wrong_type_lines()
    ensures empty { outline_of (types_text (codes ";")) ≡ Err (bad_type 3) }
    ensures later { outline_of (types_text (codes "type A = char [*:*];\n -- b\n typ B = char [*:*];")) ≡ Err (bad_type 5) }
    ensures words { outline_of (types_text (codes "Type A = char [*:*];")) ≡ Err (bad_type 3) }
    ensures name { outline_of (types_text (codes "type null = char [*:*];")) ≡ Err (bad_type 3) }
    ensures no_atom { outline_of (type_text (codes "grey [*:*]")) ≡ Err (bad_type 3) }
    ensures no_bounds { outline_of (type_text (codes "char")) ≡ Err (bad_type 3) }
    ensures no_interval { outline_of (type_text (codes "char [1]")) ≡ Err (bad_type 3) }
    ensures extent_from_one { outline_of (type_text (codes "char [*:*] tiles [1:2]")) ≡ Err (bad_type 3) }
    ensures extent_from_00 { outline_of (type_text (codes "char [*:*] tiles [00:2]")) ≡ Err (bad_type 3) }
    ensures order { outline_of (type_text (codes "char [*:*] null [0] tiles [0:1]")) ≡ Err (bad_type 3) }
    ensures more { outline_of (type_text (codes "char [*:*] 1")) ≡ Err (bad_type 3) }
    ensures float { outline_of (type_text (codes "float [*:*]")) ≡ Err (bad_type 3) }
    ensures number { outline_of (type_text (codes "char [300c:*]")) ≡ Err (bad_type 3) }
{}

/// Types that may not be declared.
pub fn types_that_are_refused()
    ensures not_stored { outline_of (type_text (codes "wide [*:*]")) ≡ Err (bad_type 3) }
    ensures taken { outline_of (types_text (codes "type A = char [*:*];\ntype A = char [*:*];")) ≡ Err (bad_type 4) }
    ensures component_taken { outline_of (type_text (codes "{r: char, r: octet} [*:*]")) ≡ Err (bad_type 3) }
    ensures bound { outline_of (type_text (codes "char [*:2147483648]")) ≡ Err (bad_type 3) }
    ensures bounds { outline_of (type_text (codes "char [1:0]")) ≡ Err (bad_type 3) }
    ensures axes { outline_of (type_text (codes "char [*:*,*:*,*:*,*:*,*:*,*:*,*:*]")) ≡ Err (bad_type 3) }
    ensures components { outline_of (type_text (codes "{a:bool,b:bool,c:bool,d:bool,e:bool,f:bool,g:bool,h:bool,i:bool} [*:*]")) ≡ Err (bad_type 3) }
    ensures intervals { outline_of (type_text (codes "char [*:*] null [1,2,3,4,5,6,7,8,9]")) ≡ Err (bad_type 3) }
    ensures extents { outline_of (type_text (codes "char [*:*] tiles [0:1,0:1]")) ≡ Err (bad_type 3) }
    ensures cells { outline_of (type_text (codes "char [*:*] tiles [0:65536]")) ≡ Err (bad_type 3) }
    ensures null_range { outline_of (type_text (codes "char [*:*] null [256]")) ≡ Err (bad_type 3) }
    ensures null_order { outline_of (type_text (codes "char [*:*] null [2:1]")) ≡ Err (bad_type 3) }
    ensures nulls_meet { outline_of (type_text (codes "char [*:*] null [1:2,2:3]")) ≡ Err (bad_type 3) }
    ensures composite { outline_of (type_text (codes "{r: char} [*:*] null [0]")) ≡ Err (bad_type 3) }
{}

/// Limits of sessions and statements, each at its first line beyond.
pub fn limits_of_workloads()
    ensures sessions { outline_of (titled_text (sessions_text 65 ++ codes "#end\n")) ≡ Err (too_many_sessions 66) }
    ensures statements { outline_of (empty_statements 10001) ≡ Err (too_many_statements 3) }
    ensures cut { outline_of (titled_text (codes "#setup\n;\n#session A\nx\n#end\n")) ≡ Err (bad_heading 6) }
{}
