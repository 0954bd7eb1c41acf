//! Laws of the definitions, each the contract of a function that does nothing.
ghost use Rattle.std.specs.Prelude.{◌≡◌, ℕ};
ghost use Rattle.spec_grammar.specs.Tokens.{Text, lexed};
ghost use Rattle.ras_parse.specs.Walk.{found_from, lexed_after, lexed_with};

/// The tokens of a text are what is found from place to place: at its start first, and behind each
/// token next.
pub fn texts_are_read_token_by_token()
    ensures start { (text : Text) → lexed text ≡ lexed_after text 0 }
    ensures steps { (text : Text) (at : ℕ) → lexed_after text at ≡ lexed_with text (found_from text at) }
{}
