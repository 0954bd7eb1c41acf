//! Laws of the definitions, each the contract of a function that does nothing.
ghost use Rattle.std.specs.Prelude.{suc, false, IsTrue, ◌≡◌, ◌↔◌, List, [], ◌∷◌, map, length, replicate, Some, None, ◌<◌, ◌≤◌, ◌++◌, Ok, Err};
ghost use Rattle.std.specs.List.{list_all, list_any};
ghost use Rattle.ras_cells.specs.declared.atom.Atom.TheVariants as atoms;
ghost use Rattle.ras_cells.specs.declared.numbers.Op1.TheVariants as one;
ghost use Rattle.ras_syntax.specs.declared.faults.SyntaxFault.{SyntaxFault};
ghost use Rattle.ras_syntax.specs.declared.faults.SyntaxFault.TheVariants.{Unexpected, TooDeep};
ghost use Rattle.ras_syntax.specs.declared.expr.Expr.{Expr};
ghost use Rattle.ras_syntax.specs.declared.limits.TheConstants.{MAX_WEIGHT};
ghost use Rattle.ras_syntax.specs.declared.statement.Statement.{Statement};
ghost use Rattle.ras_syntax.specs.declared.statement.StatementForm.{StatementForm};
ghost use Rattle.ras_syntax.specs.Literals.{statement_numbers_fit};
ghost use Rattle.spec_grammar.specs.Tokens.{Text, Token, name, is_one_of, in_small_letters, reserved_words, float_names, signs, lexed};
ghost use Rattle.spec_grammar.specs.Order.{AreInOrder};
ghost use Rattle.spec_grammar.specs.Weight.{opening_signs, nesting_signs, nesting_words, weight_of};
ghost use Rattle.spec_grammar.specs.Grammar.{Level, Nested, IsLevel, IsAt, IsStatement};
ghost use Rattle.spec_grammar.specs.Verdict.{IsVerdict, HasSyntaxFault, BeginsStatement, fault_place};
ghost use Rattle.spec_grammar.specs.Worked.{token_from};

/// The signs of two bytes stand before those of one.
pub fn signs_stand_longest_first()
    ensures { map length signs ≡ 2 ∷ 2 ∷ 2 ∷ replicate 15 1 }
{}

/// The words and signs that weigh are reserved words and signs; reserved words stand in small
/// letters in their table, and no name that only floats would need is one.
pub fn tables_agree()
    ensures words { IsTrue (list_all (is_one_of reserved_words) nesting_words) }
    ensures signs { IsTrue (list_all (is_one_of signs) (opening_signs ++ nesting_signs)) }
    ensures small { map in_small_letters reserved_words ≡ reserved_words }
    ensures floats { list_any (is_one_of reserved_words) float_names ≡ false }
{}

/// The tokens of a text stand in order, each with a byte at least and none within another; the
/// first fault of a token's own stands behind those before it, and in the text.
pub fn tokens_stand_in_order()
    ensures tokens { (text : Text) → AreInOrder 0 (lexed text).tokens (length text) }
    ensures fault { (text : Text) (f : SyntaxFault) → (lexed text).fault ≡ Some f
        → AreInOrder 0 (lexed text).tokens (fault_place f) × (fault_place f < length text) }
{}

/// Nesting is no more than a device: a production holds of expressions that are of the whole
/// grammar exactly where it is of the whole grammar itself.
pub fn productions_hold_at_any_depth()
    ensures { (level : Level) (ts : List Token) (x : Expr) → IsLevel IsAt level ts x ↔ IsAt level ts x }
{}

/// A text that is a statement has no fault.
pub fn statements_have_no_fault()
    ensures { (text : Text) (statement : Statement) (f : SyntaxFault) → IsVerdict text (Ok statement) → ¬ HasSyntaxFault text f }
{}

/// A text is told at most one fault.
pub fn one_fault_is_told()
    ensures { (text : Text) (f g : SyntaxFault) → IsVerdict text (Err f) → IsVerdict text (Err g) → f ≡ g }
{}

/// Which fault a text is told: its tokens are read up to the first that no statement goes on with
/// or that makes them too heavy, and behind them stands a fault of a token's own or the text's end.
pub fn first_wrong_token_is_told()
    ensures unexpected { (text : Text) (before after : List Token) (t : Token) → (lexed text).tokens ≡ before ++ t ∷ after
        → BeginsStatement before → ¬ BeginsStatement (before ++ t ∷ []) → weight_of before ≤ MAX_WEIGHT
        → IsVerdict text (Err (Unexpected t.from)) }
    ensures too_deep { (text : Text) (before after : List Token) (t : Token) → (lexed text).tokens ≡ before ++ t ∷ after
        → BeginsStatement (before ++ t ∷ []) → weight_of before ≤ MAX_WEIGHT → MAX_WEIGHT < weight_of (before ++ t ∷ [])
        → IsVerdict text (Err (TooDeep t.from)) }
    ensures own { (text : Text) (f : SyntaxFault) → (lexed text).fault ≡ Some f → BeginsStatement (lexed text).tokens
        → weight_of (lexed text).tokens ≤ MAX_WEIGHT → IsVerdict text (Err f) }
    ensures ended { (text : Text) → (lexed text).fault ≡ None → BeginsStatement (lexed text).tokens
        → ((form : StatementForm) → ¬ IsStatement (lexed text).tokens form) → weight_of (lexed text).tokens ≤ MAX_WEIGHT
        → IsVerdict text (Err (Unexpected (length text))) }
{}

/// An expression nests no deeper than it weighs.
pub fn weight_bounds_depth()
    ensures { (level : Level) (ts : List Token) (x : Expr) → IsAt level ts x → Nested (suc (weight_of ts)) level ts x }
{}

/// The numbers of a statement lie in the ranges of their atoms.
pub fn statements_have_numbers_in_range()
    ensures { (text : Text) (statement : Statement) → IsVerdict text (Ok statement) → IsTrue (statement_numbers_fit statement.form) }
{}
