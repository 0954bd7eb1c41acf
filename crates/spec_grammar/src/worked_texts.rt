//! Worked texts: their tokens, weights, trees and verdicts. Each row is the contract of a function that
//! does nothing.
ghost use Rattle.std.specs.Prelude.{true, false, ◌≡◌, [], ◌∷◌, length, replicate, pos, codes, Some, None, ◌<◌, ◌++◌, Ok, Err};
ghost use Rattle.ras_cells.specs.declared.atom.Atom.TheVariants as atoms;
ghost use Rattle.ras_cells.specs.declared.numbers.Op1.TheVariants as one;
ghost use Rattle.ras_cells.specs.declared.numbers.Op2.TheVariants as two;
ghost use Rattle.ras_syntax.specs.declared.faults.SyntaxFault.TheVariants.{Unexpected, NumberTooWide, TooDeep, UnknownName, FloatRefused};
ghost use Rattle.ras_syntax.specs.declared.expr.ExprForm.TheVariants as forms;
ghost use Rattle.ras_syntax.specs.declared.expr.Axis.TheVariants as axis;
ghost use Rattle.ras_syntax.specs.declared.expr.DomainExpr.TheVariants as domains;
ghost use Rattle.ras_syntax.specs.declared.expr.Part.TheVariants as parts;
ghost use Rattle.ras_syntax.specs.declared.expr.FoldOp.TheVariants as folds;
ghost use Rattle.ras_syntax.specs.declared.expr.CellsFold.TheVariants as cells;
ghost use Rattle.ras_syntax.specs.declared.statement.StatementForm.TheVariants as statements;
ghost use Rattle.ras_syntax.specs.declared.statement.Word.TheVariants as words;
ghost use Rattle.spec_grammar.specs.Tokens.{name, number, signs, lexed};
ghost use Rattle.spec_grammar.specs.Weight.{weight_of};
ghost use Rattle.spec_grammar.specs.Grammar.{w, s, IsExpr, IsStatement};
ghost use Rattle.spec_grammar.specs.Verdict.{IsVerdict};
ghost use Rattle.spec_grammar.specs.Worked.{token_from, AreTokensOf, IsFaultOf, span_in_text, spanned, expr_in, number_in, name_in, in_parentheses};

/// Reserved words are read in any mix of large and small letters, and names keep their letters.
pub fn words_are_read_in_any_letters()
    ensures { AreTokensOf (codes "SELECT Case_1 fRoM _g") (token_from (w "select") 0 6 ∷ token_from (name (codes "Case_1")) 7 13
        ∷ token_from (w "from") 14 18 ∷ token_from (name (codes "_g")) 19 21 ∷ []) }
{}

/// The longest sign is taken.
pub fn longest_sign_is_taken()
    ensures { AreTokensOf (codes "<=<>=!==") (token_from (s "<=") 0 2 ∷ token_from (s "<") 2 3 ∷ token_from (s ">=") 3 5 ∷ token_from (s "!=") 5 7
        ∷ token_from (s "=") 7 8 ∷ []) }
{}

/// Comments reach to the end of their line, and a minus that is alone begins none.
pub fn comments_are_blanks()
    ensures lines { AreTokensOf (codes "-- a\n1--2\r\n\t-- b") (token_from (number (pos 1) atoms.Wide) 5 6 ∷ []) }
    ensures minus { AreTokensOf (codes "- -1") (token_from (s "-") 0 1 ∷ token_from (s "-") 2 3 ∷ token_from (number (pos 1) atoms.Wide) 3 4 ∷ []) }
{}

/// A suffix names the atom of a number.
pub fn suffixes_name_atoms()
    ensures each { AreTokensOf (codes "1 2c 3o 4s 5us 6l 7ul 007") (token_from (number (pos 1) atoms.Wide) 0 1
        ∷ token_from (number (pos 2) atoms.Char) 2 4 ∷ token_from (number (pos 3) atoms.Octet) 5 7 ∷ token_from (number (pos 4) atoms.Short) 8 10
        ∷ token_from (number (pos 5) atoms.Ushort) 11 14 ∷ token_from (number (pos 6) atoms.Long) 15 17
        ∷ token_from (number (pos 7) atoms.Ulong) 18 21 ∷ token_from (number (pos 7) atoms.Wide) 22 25 ∷ []) }
    ensures digits_after { AreTokensOf (codes "1s5") (token_from (number (pos 1) atoms.Short) 0 2 ∷ token_from (number (pos 5) atoms.Wide) 2 3 ∷ []) }
    ensures component { AreTokensOf (codes "a.1c") (token_from (name (codes "a")) 0 1 ∷ token_from (s ".") 1 2
        ∷ token_from (number (pos 1) atoms.Char) 2 4 ∷ []) }
{}

/// A number must be of its atom's range, whatever follows it.
pub fn wide_numbers_are_refused()
    ensures greatest { AreTokensOf (codes "9223372036854775807") (token_from (number (pos 9223372036854775807) atoms.Wide) 0 19 ∷ []) }
    ensures wide { IsFaultOf (codes "9223372036854775808") [] (NumberTooWide 0) }
    ensures char { IsFaultOf (codes "select 300c") (token_from (w "select") 0 6 ∷ []) (NumberTooWide 7) }
    ensures before_letters { IsFaultOf (codes "300cx") [] (NumberTooWide 0) }
    ensures octet { IsFaultOf (codes "128o") [] (NumberTooWide 0) }
{}

/// What would be a float, or read or make one, is refused at its place.
pub fn floats_are_refused()
    ensures fraction { IsFaultOf (codes "1.5") [] (FloatRefused 0) }
    ensures fraction_after_suffix { IsFaultOf (codes "1c.5") [] (FloatRefused 0) }
    ensures mark { IsFaultOf (codes "1e5") [] (FloatRefused 0) }
    ensures mark_after_suffix { IsFaultOf (codes "1cd") [] (FloatRefused 0) }
    ensures component { IsFaultOf (codes "a.1.2") (token_from (name (codes "a")) 0 1 ∷ token_from (s ".") 1 2 ∷ []) (FloatRefused 2) }
    ensures quotient { IsFaultOf (codes "1 / 2") (token_from (number (pos 1) atoms.Wide) 0 1 ∷ []) (FloatRefused 2) }
    ensures root { IsFaultOf (codes "sqrt(4)") [] (FloatRefused 0) }
{}

/// A name that stands before a parenthesis is unknown, since functions are reserved words.
pub fn names_call_nothing()
    ensures call { IsFaultOf (codes "foo(") [] (UnknownName 0) }
    ensures apart { IsFaultOf (codes "1 foo -- (\n (") (token_from (number (pos 1) atoms.Wide) 0 1 ∷ []) (UnknownName 2) }
    ensures large { IsFaultOf (codes "Sqrt (4)") [] (UnknownName 0) }
    ensures alone { AreTokensOf (codes "Sqrt") (token_from (name (codes "Sqrt")) 0 4 ∷ []) }
    ensures word { AreTokensOf (codes "MOD(") (token_from (w "mod") 0 3 ∷ token_from (s "(") 3 4 ∷ []) }
{}

/// A byte that begins no token, and a letter that is no suffix, are unexpected.
pub fn other_bytes_are_unexpected()
    ensures mark { IsFaultOf (codes "a !") (token_from (name (codes "a")) 0 1 ∷ []) (Unexpected 2) }
    ensures semicolon { IsFaultOf (codes "a;") (token_from (name (codes "a")) 0 1 ∷ []) (Unexpected 1) }
    ensures large_mark { IsFaultOf (codes "1E5") [] (Unexpected 0) }
    ensures letter { IsFaultOf (codes "1cx") [] (Unexpected 0) }
    ensures underscore { IsFaultOf (codes "1_") [] (Unexpected 0) }
{}

/// 63 pairs of parentheses are no weight too much, and 64 are.
pub fn parentheses_weigh_two()
    ensures most { weight_of (in_parentheses 63) ≡ 126 }
    ensures too_many { weight_of (in_parentheses 64) ≡ 128 }
{}

/// Signs and words that nest weigh one, brackets two, and everything else nothing.
pub fn words_and_signs_weigh_one()
    ensures { weight_of (lexed (codes "select not a[0].r + min_cells({1, -b}) overlay c from a, b, c")).tokens ≡ 11 }
{}

/// Each sign and each word that weighs, once.
pub fn each_sign_and_word_is_weighed()
    ensures two { weight_of (lexed (codes "( [ {")).tokens ≡ 6 }
    ensures signs { weight_of (lexed (codes ". + - * = != < <= > >=")).tokens ≡ 10 }
    ensures words { weight_of (lexed (codes "NOT overlay and or xor case marray condense concat")).tokens ≡ 9 }
    ensures nothing { weight_of (lexed (codes ") ] } , : 1 a select from where values when struct shift sdom div abs add_cells")).tokens ≡ 0 }
{}

/// `drop collection G` is a statement, and so is its text.
pub fn dropping_is_a_statement()
    ensures statement { IsStatement (lexed (codes "drop collection G")).tokens (statements.Drop (spanned (codes "G") 16 17)) }
    ensures verdict { IsVerdict (codes "drop collection G") (Ok (record { form = statements.Drop (spanned (codes "G") 16 17); length = 17 })) }
{}

/// `select 1` is a statement without sources and condition.
pub fn selecting_a_number_is_a_statement()
    ensures { IsStatement (lexed (codes "select 1")).tokens
        (statements.Select (number_in 1 7 8) [] None) }
{}

/// Products bind closer than sums.
pub fn products_bind_closer_than_sums()
    ensures { IsExpr (lexed (codes "1+2*3")).tokens (expr_in 0 5 (forms.Binary two.Add (number_in 1 0 1)
        (expr_in 2 5 (forms.Binary two.Mul (number_in 2 2 3) (number_in 3 4 5))))) }
{}

/// Chains group to the left, and parentheses belong to the span of what stands round them.
pub fn differences_group_to_the_left()
    ensures left { IsExpr (lexed (codes "1-2-3")).tokens (expr_in 0 5 (forms.Binary two.Sub
        (expr_in 0 3 (forms.Binary two.Sub (number_in 1 0 1) (number_in 2 2 3)))
        (number_in 3 4 5))) }
    ensures right { IsExpr (lexed (codes "1-(2-3)")).tokens (expr_in 0 7 (forms.Binary two.Sub
        (number_in 1 0 1)
        (expr_in 3 6 (forms.Binary two.Sub (number_in 2 3 4) (number_in 3 5 6))))) }
{}

/// Whole statements, with the spans of their parts.
pub fn whole_statements_are_read()
    ensures insert { IsStatement (lexed (codes "insert into G values marray p in [0:15] values mod(p[0],256)")).tokens
        (statements.Insert (spanned (codes "G") 12 13)
        (expr_in 21 60 (forms.Marray (spanned (codes "p") 28 29)
        (domains.Literal ((number_in 0 34 35, number_in 15 36 38) ∷ []))
        (expr_in 47 60 (forms.Binary two.Mod
        (expr_in 51 55 (forms.Index (name_in (codes "p") 51 52) (axis.At (number_in 0 53 54) ∷ [])))
        (number_in 256 56 59)))))) }
    ensures update { IsStatement (lexed (codes "update G as a set a[0,1:*] assign {1, a.r} where oid(a) = 2")).tokens
        (statements.Update (record { collection = spanned (codes "G") 7 8; iterator = Some (spanned (codes "a") 12 13) })
        (spanned (codes "a") 18 19)
        (Some (axis.At (number_in 0 20 21) ∷ axis.Trim (Some (number_in 1 22 23)) None ∷ []))
        (span_in_text 18 26)
        (expr_in 34 42 (forms.Build (number_in 1 35 36 ∷ expr_in 38 41 (forms.Part (name_in (codes "a") 38 39) (parts.Named (codes "r"))) ∷ [])))
        (Some (expr_in 49 59 (forms.Binary two.Eq (expr_in 49 55 (forms.Oid (spanned (codes "a") 53 54))) (number_in 2 58 59))))) }
    ensures select { IsStatement (lexed (codes "select case when a.1 < 2 then (octet) 1 else -2 end from A as a, B where not true")).tokens
        (statements.Select
        (expr_in 7 51 (forms.Case
        ((
          expr_in 17 24 (forms.Binary two.Lt (expr_in 17 20 (forms.Part (name_in (codes "a") 17 18) (parts.Numbered (pos 1)))) (number_in 2 23 24)),
          expr_in 30 39 (forms.Cast atoms.Octet (number_in 1 38 39)),
        ) ∷ [])
        (expr_in 45 47 (forms.Unary one.Neg (number_in 2 46 47)))))
        (record { collection = spanned (codes "A") 57 58; iterator = Some (spanned (codes "a") 62 63) }
        ∷ record { collection = spanned (codes "B") 65 66; iterator = None } ∷ [])
        (Some (expr_in 73 81 (forms.Unary one.Not (expr_in 77 81 (forms.Bool true)))))) }
{}

/// Words of a session, plain and with what may follow them.
pub fn session_words_are_statements()
    ensures begin { IsStatement (lexed (codes "begin")).tokens (statements.Word (words.Begin 0)) }
    ensures commit { IsStatement (lexed (codes "commit")).tokens (statements.Word (words.Commit false)) }
    ensures anyway { IsStatement (lexed (codes "Commit -- at once\n ANYWAY")).tokens
        (statements.Word (words.Commit true)) }
    ensures abort { IsStatement (lexed (codes "abort")).tokens (statements.Word words.Abort) }
{}

/// A collection is created with its type, and emptied whole or where a condition holds.
pub fn collections_are_created_and_emptied()
    ensures create { IsStatement (lexed (codes "create collection G Grey")).tokens
        (statements.Create (spanned (codes "G") 18 19) (spanned (codes "Grey") 20 24)) }
    ensures whole { IsStatement (lexed (codes "delete from G")).tokens
        (statements.Delete (record { collection = spanned (codes "G") 12 13; iterator = None }) None) }
    ensures some { IsStatement (lexed (codes "DELETE\tfrom G as a where some_cells(a.1)")).tokens
        (statements.Delete
        (record { collection = spanned (codes "G") 12 13; iterator = Some (spanned (codes "a") 17 18) })
        (Some (expr_in 25 40 (forms.Cells cells.AnyTrue
        (expr_in 36 39 (forms.Part (name_in (codes "a") 36 37) (parts.Numbered (pos 1)))))))) }
{}

/// What may be missing: iterators, targets' axes and conditions.
pub fn sources_and_conditions_may_be_missing()
    ensures update { IsStatement (lexed (codes "update G set G assign struct {0, {true, false}}")).tokens
        (statements.Update (record { collection = spanned (codes "G") 7 8; iterator = None })
        (spanned (codes "G") 13 14) None (span_in_text 13 14) (expr_in 22 47 (forms.Build (number_in 0 30 31
        ∷ expr_in 33 46 (forms.Build (expr_in 34 38 (forms.Bool true) ∷ expr_in 40 45 (forms.Bool false) ∷ [])) ∷ []))) None) }
    ensures select { IsStatement (lexed (codes "select case when A then 1 when B then 2 else 3 end from A, B as b, C")).tokens
        (statements.Select (expr_in 7 50 (forms.Case
        ((name_in (codes "A") 17 18, number_in 1 24 25) ∷ (name_in (codes "B") 31 32, number_in 2 38 39) ∷ []) (number_in 3 45 46))) (
        record { collection = spanned (codes "A") 56 57; iterator = None }
        ∷ record { collection = spanned (codes "B") 59 60; iterator = Some (spanned (codes "b") 64 65) }
        ∷ record { collection = spanned (codes "C") 67 68; iterator = None } ∷ []) None) }
{}

/// `not` binds closest, then `and`, `or` with `xor`, and `overlay`; each groups to the left.
pub fn connectives_are_grouped()
    ensures connectives { IsStatement (lexed (codes "select a or b and c xor not not d overlay e and (f or true) overlay g")).tokens
        (statements.Select (expr_in 7 69 (forms.Binary two.Overlay (expr_in 7 59 (forms.Binary two.Overlay
        (expr_in 7 33 (forms.Binary two.Xor (expr_in 7 19 (forms.Binary two.Or (name_in (codes "a") 7 8)
        (expr_in 12 19 (forms.Binary two.And (name_in (codes "b") 12 13) (name_in (codes "c") 18 19)))))
        (expr_in 24 33 (forms.Unary one.Not (expr_in 28 33 (forms.Unary one.Not (name_in (codes "d") 32 33)))))))
        (expr_in 42 59 (forms.Binary two.And (name_in (codes "e") 42 43)
        (expr_in 49 58 (forms.Binary two.Or (name_in (codes "f") 49 50) (expr_in 54 58 (forms.Bool true))))))))
        (name_in (codes "g") 68 69))) [] None) }
    ensures either { IsStatement (lexed (codes "select a xor b or c")).tokens
        (statements.Select (expr_in 7 19 (forms.Binary two.Or
        (expr_in 7 14 (forms.Binary two.Xor (name_in (codes "a") 7 8) (name_in (codes "b") 13 14)))
        (name_in (codes "c") 18 19))) [] None) }
{}

/// Each comparison, which binds closer than `not` and less close than sums.
pub fn comparisons_are_read()
    ensures { IsStatement (lexed (codes "select a = b and c != d and e < f and not g <= h and i > j and k + 1 >= 2 * l")).tokens
        (statements.Select (expr_in 7 77 (forms.Binary two.And (expr_in 7 58 (forms.Binary two.And
        (expr_in 7 48 (forms.Binary two.And (expr_in 7 33 (forms.Binary two.And
        (expr_in 7 23 (forms.Binary two.And
        (expr_in 7 12 (forms.Binary two.Eq (name_in (codes "a") 7 8) (name_in (codes "b") 11 12)))
        (expr_in 17 23 (forms.Binary two.Ne (name_in (codes "c") 17 18) (name_in (codes "d") 22 23)))))
        (expr_in 28 33 (forms.Binary two.Lt (name_in (codes "e") 28 29) (name_in (codes "f") 32 33)))))
        (expr_in 38 48 (forms.Unary one.Not
        (expr_in 42 48 (forms.Binary two.Le (name_in (codes "g") 42 43) (name_in (codes "h") 47 48)))))))
        (expr_in 53 58 (forms.Binary two.Gt (name_in (codes "i") 53 54) (name_in (codes "j") 57 58)))))
        (expr_in 63 77 (forms.Binary two.Ge
        (expr_in 63 68 (forms.Binary two.Add (name_in (codes "k") 63 64) (number_in 1 67 68)))
        (expr_in 72 77 (forms.Binary two.Mul (number_in 2 72 73) (name_in (codes "l") 76 77))))))) [] None) }
{}

/// A minus binds closest, then products, then sums; numbers have the atoms of their suffixes.
pub fn signs_of_numbers_are_grouped()
    ensures { IsStatement (lexed (codes "select - -a * 2c + 3o * (4s - 5us) * b - 6l * -7ul")).tokens
        (statements.Select (expr_in 7 50 (forms.Binary two.Sub (expr_in 7 38 (forms.Binary two.Add
        (expr_in 7 16 (forms.Binary two.Mul
        (expr_in 7 11 (forms.Unary one.Neg (expr_in 9 11 (forms.Unary one.Neg (name_in (codes "a") 10 11)))))
        (expr_in 14 16 (forms.Number (pos 2) atoms.Char)))) (expr_in 19 38 (forms.Binary two.Mul
        (expr_in 19 34 (forms.Binary two.Mul (expr_in 19 21 (forms.Number (pos 3) atoms.Octet))
        (expr_in 25 33 (forms.Binary two.Sub (expr_in 25 27 (forms.Number (pos 4) atoms.Short))
        (expr_in 30 33 (forms.Number (pos 5) atoms.Ushort)))))) (name_in (codes "b") 37 38)))))
        (expr_in 41 50 (forms.Binary two.Mul (expr_in 41 43 (forms.Number (pos 6) atoms.Long))
        (expr_in 46 50 (forms.Unary one.Neg (expr_in 47 50 (forms.Number (pos 7) atoms.Ulong)))))))) [] None) }
{}

/// Each atom has its words. A cast binds as close as a minus, and less close than a part.
pub fn casts_are_read()
    ensures { IsStatement (lexed (codes "select (bool)(boolean)(octet)(char)(short)(ushort)(long)(ulong)(wide)(unsigned short)-(unsigned long)a.r * b")).tokens
        (statements.Select (expr_in 7 108 (forms.Binary two.Mul (expr_in 7 104 (forms.Cast atoms.Bool
        (expr_in 13 104 (forms.Cast atoms.Bool (expr_in 22 104 (forms.Cast atoms.Octet
        (expr_in 29 104 (forms.Cast atoms.Char (expr_in 35 104 (forms.Cast atoms.Short
        (expr_in 42 104 (forms.Cast atoms.Ushort (expr_in 50 104 (forms.Cast atoms.Long
        (expr_in 56 104 (forms.Cast atoms.Ulong (expr_in 63 104 (forms.Cast atoms.Wide
        (expr_in 69 104 (forms.Cast atoms.Ushort (expr_in 85 104 (forms.Unary one.Neg
        (expr_in 86 104 (forms.Cast atoms.Ulong
        (expr_in 101 104 (forms.Part (name_in (codes "a") 101 102) (parts.Named (codes "r"))))))))))))))))))))))))))))
        (name_in (codes "b") 107 108))) [] None) }
{}

/// Each function with operands, and each fold over all cells.
pub fn calls_are_read()
    ensures functions { IsStatement (lexed (codes "select div(a, mod(b, bit(abs(c), 7)))")).tokens
        (statements.Select (expr_in 7 37 (forms.Binary two.Div (name_in (codes "a") 11 12)
        (expr_in 14 36 (forms.Binary two.Mod (name_in (codes "b") 18 19) (expr_in 21 35
        (forms.Binary two.Bit (expr_in 25 31 (forms.Unary one.Abs (name_in (codes "c") 29 30))) (number_in 7 33 34))))))) [] None) }
    ensures cells { IsStatement (lexed (codes "select {add_cells(a), min_cells(a), max_cells(a), count_cells(a), some_cells(a), all_cells(a)}")).tokens
        (statements.Select (expr_in 7 94 (forms.Build (expr_in 8 20 (forms.Cells cells.Add (name_in (codes "a") 18 19))
        ∷ expr_in 22 34 (forms.Cells cells.Min (name_in (codes "a") 32 33))
        ∷ expr_in 36 48 (forms.Cells cells.Max (name_in (codes "a") 46 47))
        ∷ expr_in 50 64 (forms.Cells cells.Count (name_in (codes "a") 62 63))
        ∷ expr_in 66 79 (forms.Cells cells.AnyTrue (name_in (codes "a") 77 78))
        ∷ expr_in 81 93 (forms.Cells cells.AllTrue (name_in (codes "a") 91 92)) ∷ []))) [] None) }
{}

/// Arrays moved, made larger and joined, and domains that are written or an array's own.
pub fn arrays_are_moved_and_joined()
    ensures concat { IsStatement (lexed (codes "select concat shift(a,[1,-1]) with extend(b,[0:1,2:3]) with extend(c,sdom(a)) along 1")).tokens
        (statements.Select (expr_in 7 85 (forms.Concat (expr_in 14 29 (forms.Shift (name_in (codes "a") 20 21)
        (number_in 1 23 24 ∷ expr_in 25 27 (forms.Unary one.Neg (number_in 1 26 27)) ∷ []))
        ∷ expr_in 35 54 (forms.Extend (name_in (codes "b") 42 43)
        (domains.Literal ((number_in 0 45 46, number_in 1 47 48) ∷ (number_in 2 49 50, number_in 3 51 52) ∷ [])))
        ∷ expr_in 60 77 (forms.Extend (name_in (codes "c") 67 68)
        (domains.Sdom (expr_in 69 76 (forms.Sdom (name_in (codes "a") 74 75))))) ∷ []) (pos 1))) [] None) }
    ensures sdom { IsStatement (lexed (codes "select marray p in sdom(a) values sdom(a)[0].lo + p[0] overlay b")).tokens
        (statements.Select (expr_in 7 64 (forms.Marray (spanned (codes "p") 14 15)
        (domains.Sdom (expr_in 19 26 (forms.Sdom (name_in (codes "a") 24 25))))
        (expr_in 34 64 (forms.Binary two.Overlay (expr_in 34 54 (forms.Binary two.Add
        (expr_in 34 47 (forms.Part
        (expr_in 34 44 (forms.Index (expr_in 34 41 (forms.Sdom (name_in (codes "a") 39 40))) (axis.At (number_in 0 42 43) ∷ [])))
        (parts.Named (codes "lo"))))
        (expr_in 50 54 (forms.Index (name_in (codes "p") 50 51) (axis.At (number_in 0 52 53) ∷ [])))))
        (name_in (codes "b") 63 64))))) [] None) }
{}

/// Positions and bounds of axes, each bound written or the array's own, and parts of parts.
pub fn indexes_are_read()
    ensures { IsStatement (lexed (codes "select a[*:1,2:*,3,*:*][0][1:2].r.0")).tokens
        (statements.Select (expr_in 7 35 (forms.Part (expr_in 7 33 (forms.Part
        (expr_in 7 31 (forms.Index (expr_in 7 26 (forms.Index (expr_in 7 23 (forms.Index (name_in (codes "a") 7 8) (
        axis.Trim None (Some (number_in 1 11 12)) ∷ axis.Trim (Some (number_in 2 13 14)) None ∷ axis.At (number_in 3 17 18)
        ∷ axis.Trim None None ∷ []))) (axis.At (number_in 0 24 25) ∷ [])))
        (axis.Trim (Some (number_in 1 27 28)) (Some (number_in 2 29 30)) ∷ []))) (parts.Named (codes "r"))))
        (parts.Numbered (pos 0)))) [] None) }
{}

/// Each operator of a fold, over a written domain or an array's own, with a condition or without.
pub fn folds_are_read()
    ensures numbers { IsStatement (lexed (codes "select condense + over p in [0:1,2:3] where a[p[0]] using condense * over q in sdom(a) using condense min over r in sdom(b) using 1")).tokens
        (statements.Select (expr_in 7 131 (forms.Condense folds.Plus (spanned (codes "p") 23 24)
        (domains.Literal ((number_in 0 29 30, number_in 1 31 32) ∷ (number_in 2 33 34, number_in 3 35 36) ∷ []))
        (Some (expr_in 44 51 (forms.Index (name_in (codes "a") 44 45)
        (axis.At (expr_in 46 50 (forms.Index (name_in (codes "p") 46 47) (axis.At (number_in 0 48 49) ∷ []))) ∷ []))))
        (expr_in 58 131 (forms.Condense folds.Times (spanned (codes "q") 74 75)
        (domains.Sdom (expr_in 79 86 (forms.Sdom (name_in (codes "a") 84 85)))) None
        (expr_in 93 131 (forms.Condense folds.Min (spanned (codes "r") 111 112)
        (domains.Sdom (expr_in 116 123 (forms.Sdom (name_in (codes "b") 121 122)))) None (number_in 1 130 131))))))) [] None) }
    ensures truths { IsStatement (lexed (codes "select condense MAX over p in sdom(a) using {condense and over q in sdom(b) using true, condense or over r in sdom(c) where false using d}")).tokens
        (statements.Select (expr_in 7 138 (forms.Condense folds.Max (spanned (codes "p") 25 26)
        (domains.Sdom (expr_in 30 37 (forms.Sdom (name_in (codes "a") 35 36)))) None
        (expr_in 44 138 (forms.Build (expr_in 45 86 (forms.Condense folds.And (spanned (codes "q") 63 64)
        (domains.Sdom (expr_in 68 75 (forms.Sdom (name_in (codes "b") 73 74)))) None (expr_in 82 86 (forms.Bool true)))
        ∷ expr_in 88 137 (forms.Condense folds.Or (spanned (codes "r") 105 106)
        (domains.Sdom (expr_in 110 117 (forms.Sdom (name_in (codes "c") 115 116))))
        (Some (expr_in 124 129 (forms.Bool false))) (name_in (codes "d") 136 137)) ∷ []))))) [] None) }
{}

/// Words stand in any letters, names keep theirs, and blanks and comments stand between any tokens.
pub fn words_and_blanks_are_free()
    ensures { IsStatement (lexed (codes "-- all\r\nSELECT\tMin_Cells (A. r [0]) -- of one\nFrom G AS A")).tokens
        (statements.Select (expr_in 15 35 (forms.Cells cells.Min (expr_in 26 34 (forms.Index
        (expr_in 26 30 (forms.Part (name_in (codes "A") 26 27) (parts.Named (codes "r"))))
        (axis.At (number_in 0 32 33) ∷ [])))))
        (record { collection = spanned (codes "G") 51 52; iterator = Some (spanned (codes "A") 56 57) } ∷ []) None) }
{}

/// Worked verdicts: the end of a text that is no statement, a number that is out of range, the 64th
/// of the parentheses, and a fault of a token's own.
pub fn verdicts_are_told()
    ensures empty { IsVerdict (codes " -- nothing") (Err (Unexpected 11)) }
    ensures most_retries { IsVerdict (codes "begin Retry 1000") (Ok (record { form = statements.Word (words.Begin 1000); length = 16 })) }
    ensures too_many_retries { IsVerdict (codes "begin retry 1001;") (Err (Unexpected 12)) }
    ensures own { IsVerdict (codes "select 300c") (Err (NumberTooWide 7)) }
    ensures too_deep { IsVerdict (codes "select " ++ replicate 64 40) (Err (TooDeep 70)) }
{}

/// Worked verdicts of selects that go on wrongly: the end of a text where a source is missing, a
/// quotient, which would give floats, and the comma that would bring a ninth expression in braces.
pub fn wrong_selects_are_told()
    ensures no_source { IsVerdict (codes "select a from") (Err (Unexpected 13)) }
    ensures quotient { IsVerdict (codes "select a / 2 from G as a") (Err (FloatRefused 9)) }
    ensures nine_in_braces { IsVerdict (codes "select {1,2,3,4,5,6,7,8,9}") (Err (Unexpected 23)) }
{}
