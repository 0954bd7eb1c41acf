//! Laws of reading and of the grammar, each the contract of a function that does nothing.
ghost use Rattle.std.specs.Prelude.{◌≡◌, ℕ, ◌+◌, ◌<◌, ◌≤◌, ◌↔◌, List, ◌++◌, length, replicate, codes, Result, Ok, Err};
ghost use Rattle.ras_syntax.specs.declared.expr.Expr.{Expr};
ghost use Rattle.ras_syntax.specs.declared.faults.SyntaxFault.{SyntaxFault};
ghost use Rattle.ras_syntax.specs.declared.faults.SyntaxFault.TheVariants.{Unexpected, NumberTooWide, TooDeep, FloatRefused};
ghost use Rattle.ras_syntax.specs.declared.statement.Statement.{Statement};
ghost use Rattle.ras_syntax.specs.declared.statement.StatementForm.{StatementForm};
ghost use Rattle.ras_syntax.specs.declared.statement.StatementForm.TheVariants as statements;
ghost use Rattle.ras_syntax.specs.declared.statement.Word.{Word};
ghost use Rattle.ras_syntax.specs.declared.statement.Word.TheVariants as words;
ghost use Rattle.spec_grammar.specs.Tokens.{Text, Token};
ghost use Rattle.spec_grammar.specs.Grammar.{Level, IsAt, IsStatement};
ghost use Rattle.spec_grammar.specs.Verdict.{IsVerdict};
ghost use Rattle.spec_grammar.specs.Weight.{weight_of};
ghost use Rattle.ras_syntax.specs.declared.limits.TheConstants.{MAX_WEIGHT};
ghost use Rattle.law_grammar.specs.FirstWrong.{IsFirstWrong};
ghost use Rattle.law_grammar.specs.Reading.{level_read, form_read, reads, read_at, read_form, read_statement};
ghost use Rattle.law_grammar.specs.VerdictOf.{light_front, verdict_of};

/// A list of tokens is an expression of at most one tree and a statement of at most one form, and
/// so a text has at most one tree; and it has at most one verdict.
pub fn one_tree_alone()
    ensures expr { (level : Level) (tokens : List Token) (x y : Expr) → IsAt level tokens x → IsAt level tokens y → x ≡ y }
    ensures form { (tokens : List Token) (f g : StatementForm) → IsStatement tokens f → IsStatement tokens g → f ≡ g }
    ensures tree { (text : Text) (x y : Statement) → IsVerdict text (Ok x) → IsVerdict text (Ok y) → x ≡ y }
    ensures verdict { (text : Text) (r q : Result Statement SyntaxFault) → IsVerdict text r → IsVerdict text q → r ≡ q }
{}

/// Each text has a verdict, and it is the one that is computed by reading the tokens up to the
/// first that makes them too heavy.
pub fn every_text_has_a_verdict()
    ensures some { (text : Text) → (r : Result Statement SyntaxFault) × IsVerdict text r }
    ensures computed { (text : Text) → IsVerdict text (verdict_of text) }
{}

/// Reading gives a form exactly where the tokens are a statement of it.
pub fn statements_are_read()
    ensures { (tokens : List Token) (form : StatementForm) → (read_statement tokens ≡ Ok form) ↔ IsStatement tokens form }
{}

/// Reading stops exactly at the first wrong token: with those before it a statement begins, and
/// none begins with it too; where it is the end, the tokens are no statement.
pub fn the_first_wrong_token_is_found()
    ensures { (tokens rest : List Token) → (read_statement tokens ≡ Err rest) ↔ IsFirstWrong tokens rest }
{}

/// The first wrong token of a list stands at one place.
pub fn one_token_is_first_wrong()
    ensures { (tokens rest other : List Token) → IsFirstWrong tokens rest → IsFirstWrong tokens other → rest ≡ other }
{}

/// How deep a reader may go is no matter: the three productions that stand inside themselves are
/// read as their definitions say, with themselves inside.
pub fn readers_stand_inside_themselves()
    ensures { (level : Level) (tokens : List Token) → read_at level tokens ≡ level_read read_at level tokens }
{}

/// Reading goes no deeper than the tokens weigh, whether they are right or wrong; and the tokens
/// that are read of a text weigh little.
pub fn weight_bounds_the_depth_of_reading()
    ensures front { (tokens : List Token) → weight_of (light_front MAX_WEIGHT tokens).0 ≤ MAX_WEIGHT + 2 }
    ensures depth { (depth : ℕ) (level : Level) (tokens : List Token) → weight_of tokens < depth → reads depth level tokens ≡ read_at level tokens }
    ensures form { (depth : ℕ) (tokens : List Token) → weight_of tokens < depth → form_read (reads depth) tokens ≡ read_form tokens }
{}

/// What is left after an expression was read, or from its first wrong token on, is an end of the
/// list; an expression has a token.
pub fn an_end_is_left()
    ensures read { (level : Level) (tokens rest : List Token) (x : Expr) → read_at level tokens ≡ Ok (x, rest)
        → (before : List Token) × (tokens ≡ before ++ rest) × IsAt level before x }
    ensures fewer { (level : Level) (tokens rest : List Token) (x : Expr) → read_at level tokens ≡ Ok (x, rest)
        → length rest < length tokens }
    ensures wrong { (level : Level) (tokens rest : List Token) → read_at level tokens ≡ Err rest
        → (before : List Token) × (tokens ≡ before ++ rest) }
{}

/// A session word has three tokens at most, and none of them weighs.
pub fn session_words_are_short()
    ensures { (tokens : List Token) (word : Word) → IsStatement tokens (statements.Word word)
        → (length tokens ≤ 3) × (weight_of tokens ≡ 0) }
{}

/// The verdicts that are computed of worked texts are those that were found by hand.
pub fn worked_verdicts_are_computed()
    ensures empty { verdict_of (codes " -- nothing") ≡ Err (Unexpected 11) }
    ensures most_retries { verdict_of (codes "begin Retry 1000") ≡ Ok (record { form = statements.Word (words.Begin 1000); length = 16 }) }
    ensures too_many_retries { verdict_of (codes "begin retry 1001;") ≡ Err (Unexpected 12) }
    ensures own { verdict_of (codes "select 300c") ≡ Err (NumberTooWide 7) }
    ensures too_deep { verdict_of (codes "select " ++ replicate 64 40) ≡ Err (TooDeep 70) }
    ensures no_source { verdict_of (codes "select a from") ≡ Err (Unexpected 13) }
    ensures quotient { verdict_of (codes "select a / 2 from G as a") ≡ Err (FloatRefused 9) }
    ensures nine_in_braces { verdict_of (codes "select {1,2,3,4,5,6,7,8,9}") ≡ Err (Unexpected 23) }
{}
