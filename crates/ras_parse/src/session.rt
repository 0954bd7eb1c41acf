ghost use Rattle.std.specs.Prelude.{◌≡◌, ◌<◌, ◌^◌, length, IfSome, Some, Ok};
ghost use Rattle.spec_grammar.specs.Tokens.{Text, and_then};
ghost use Rattle.spec_grammar.specs.Verdict.{IsVerdict};
ghost use Rattle.ras_syntax.specs.declared.statement.Word.{Word};
ghost use Rattle.ras_parse.specs.Seen.{kind_seen, token_in, StandsIn};
ghost use Rattle.ras_parse.specs.Walk.{lexed_after};
ghost use Rattle.ras_parse.specs.SessionWords as spec;
ghost use Rattle.ras_parse.specs.SessionWords.{word_statement};

use crate::lexer::next_token;
use crate::token::{Next, Token, TokenKind};
use ras_cells::Atom;
use ras_syntax::Word;

/// The greatest number that `begin retry` takes.
const MAX_RETRIES: u32 = ras_syntax::MAX_RETRIES as u32;

/// The session word that is a token alone.
fn one_word(text: &[u8], token: &Token) -> Option<Word>
    requires { StandsIn text.now token.now }
    ensures { result ≡ spec.word_of_one (token_in text.now token.now).kind }
{
    if token.is_word(text, b"begin") {
        Some(Word::Begin { retry: 0 })
    } else if token.is_word(text, b"commit") {
        Some(Word::Commit { anyway: false })
    } else if token.is_word(text, b"abort") {
        Some(Word::Abort)
    } else {
        None
    }
}

/// The session word that two tokens are.
fn two_words(text: &[u8], first: &Token, second: &Token) -> Option<Word>
    requires first { StandsIn text.now first.now }
    requires second { StandsIn text.now second.now }
    ensures { result ≡ spec.word_of_two (token_in text.now first.now).kind (token_in text.now second.now).kind }
{
    if first.is_word(text, b"commit") && second.is_word(text, b"anyway") {
        Some(Word::Commit { anyway: true })
    } else {
        None
    }
}

/// The number that may stand after `retry`: 1 to 1000, without a suffix.
pub(crate) fn retries_of(kind: TokenKind) -> Option<u32>
    ensures { (bytes : Text) → result ≡ spec.retries_of (kind_seen bytes kind) }
{
    match kind {
        TokenKind::Number {
            value,
            atom: Atom::Wide,
        } => {
            let times = u32::try_from(value).ok()?;
            if 1 <= times && times <= MAX_RETRIES {
                Some(times)
            } else {
                None
            }
        }
        _ => None,
    }
}

/// The session word that three tokens are.
fn three_words(text: &[u8], first: &Token, second: &Token, third: &Token) -> Option<Word>
    requires first { StandsIn text.now first.now }
    requires second { StandsIn text.now second.now }
    ensures { result ≡ spec.word_of_three (token_in text.now first.now).kind (token_in text.now second.now).kind (token_in text.now third.now).kind }
{
    if first.is_word(text, b"begin") && second.is_word(text, b"retry") {
        let retry = retries_of(third.kind)?;
        Some(Word::Begin { retry })
    } else {
        None
    }
}

/// The session word of a text whose first three tokens these are.
fn word_after_three(text: &[u8], first: &Token, second: &Token, third: &Token) -> Option<Word>
    requires first { StandsIn text.now first.now }
    requires second { StandsIn text.now second.now }
    requires third { StandsIn text.now third.now }
    requires short { length text.now < 2 ^ 32 }
    ensures { result ≡ spec.word_of (and_then (token_in text.now first.now) (and_then (token_in text.now second.now)
        (and_then (token_in text.now third.now) (lexed_after text.now third.now.span.to)))) }
{
    match next_token(text, third.span.to as usize) {
        Next::End => three_words(text, first, second, third),
        Next::Token(_) | Next::Fault(_) => None,
    }
}

/// The session word of a text whose first two tokens these are.
fn word_after_two(text: &[u8], first: &Token, second: &Token) -> Option<Word>
    requires first { StandsIn text.now first.now }
    requires second { StandsIn text.now second.now }
    requires short { length text.now < 2 ^ 32 }
    ensures { result ≡ spec.word_of (and_then (token_in text.now first.now) (and_then (token_in text.now second.now)
        (lexed_after text.now second.now.span.to))) }
{
    match next_token(text, second.span.to as usize) {
        Next::End => two_words(text, first, second),
        Next::Token(third) => word_after_three(text, first, second, &third),
        Next::Fault(_) => None,
    }
}

/// The session word of a text whose first token this is.
fn word_after(text: &[u8], first: &Token) -> Option<Word>
    requires first { StandsIn text.now first.now }
    requires short { length text.now < 2 ^ 32 }
    ensures { result ≡ spec.word_of (and_then (token_in text.now first.now) (lexed_after text.now first.now.span.to)) }
{
    match next_token(text, first.span.to as usize) {
        Next::End => one_word(text, first),
        Next::Token(second) => word_after_two(text, first, &second),
        Next::Fault(_) => None,
    }
}

fn word_of(text: &[u8]) -> Option<Word>
    requires { length text.now < 2 ^ 32 }
    ensures { result ≡ spec.word_of (lexed_after text.now 0) }
{
    match next_token(text, 0) {
        Next::Token(first) => word_after(text, &first),
        Next::End | Next::Fault(_) => None,
    }
}

/// The session word that a text is, where it is one: `begin`, `begin retry` with 1 to 1000,
/// `commit`, `commit anyway` or `abort`. It reads at most four tokens and takes no memory.
pub fn session_word(text: &[u8]) -> Option<Word>
    requires { length text.now < 2 ^ 32 }
    ensures word { IfSome result (λ word. IsVerdict text.now (Ok (word_statement text.now word))) }
    ensures only { (word : Word) → IsVerdict text.now (Ok (word_statement text.now word)) → result ≡ Some word }
{
    word_of(text)
}
