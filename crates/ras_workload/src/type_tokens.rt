//! The tokens that type lines alone know.
ghost use Rattle.std.specs.Prelude.{◌≡◌, ◌<◌, ◌^◌, option_copied, if◌then◌else◌, IfSome, Some, None};
ghost use Rattle.spec_grammar.specs.Tokens as grammar;
ghost use Rattle.spec_workloads.specs.TypeLines as spec;
ghost use Rattle.ras_parse.specs.Inputs.{Accepts, TakesToken};
ghost use Rattle.ras_parse.specs.Seen.{token_in};

use crate::headings::is_same;
use ras_cells::Atom;
use ras_parse::cursor::Cursor;
use ras_parse::{Token, TokenKind};

/// Whether a name is one of the words that are reserved in type lines alone.
fn is_type_word(name: &[u8]) -> bool
    ensures { result ≡ grammar.is_one_of spec.type_words name.now }
{
    is_same(name, b"type") || is_same(name, b"tiles") || is_same(name, b"null")
}

/// Reads the next token if it is this word, and gives its bytes.
pub fn type_word<'t>(cursor: &mut Cursor<'t>, word: &[u8]) -> Option<&'t [u8]>
    ensures { TakesToken (spec.type_word word.now) cursor.old (option_copied result) cursor.new }
{
    let Some(front) = cursor.peek() else {
        return None;
    };
    let Some(name) = front.token.name(front.text) else {
        return None;
    };
    if !is_same(word, name) {
        return None;
    }
    cursor.advance();
    Some(name)
}

/// Reads the next token if it is a name and no word of type lines, and gives its bytes.
pub fn free_name<'t>(cursor: &mut Cursor<'t>) -> Option<&'t [u8]>
    ensures { TakesToken spec.free_name cursor.old (option_copied result) cursor.new }
{
    let Some(front) = cursor.peek() else {
        return None;
    };
    let Some(name) = front.token.name(front.text) else {
        return None;
    };
    if is_type_word(name) {
        return None;
    }
    cursor.advance();
    Some(name)
}

/// Whether a token is a 0 without a suffix, in one digit.
fn is_zero_digit(token: Token) -> bool
    ensures { (text : grammar.Text) → spec.zero_digit (token_in text token) ≡ (if result then Some (token_in text token) else None) }
{
    match token.kind {
        TokenKind::Number {
            value: 0,
            atom: Atom::Wide,
        } => token.span.to.saturating_sub(token.span.from) == 1,
        _ => false,
    }
}

/// Reads the next token if it is a 0 without a suffix, in one digit.
pub fn zero_digit(cursor: &mut Cursor<'_>) -> bool
    ensures { Accepts spec.zero_digit cursor.old result cursor.new }
{
    let Some(front) = cursor.peek() else {
        return false;
    };
    if !is_zero_digit(front.token) {
        return false;
    }
    cursor.advance();
    true
}

/// A number that isn't negative.
fn size_of(value: i64) -> Option<u64>
    ensures size { result ≡ spec.size_of value }
    ensures few { IfSome result (λ n. n < 2 ^ 63) }
{
    if value < 0 { None } else { Some(value as u64) }
}

/// Reads the next token if it is a number.
pub fn natural(cursor: &mut Cursor<'_>) -> Option<u64>
    ensures taken { TakesToken spec.natural cursor.old result cursor.new }
    ensures few { IfSome result (λ n. n < 2 ^ 63) }
{
    let Some(front) = cursor.peek() else {
        return None;
    };
    let Some((value, _)) = front.token.number() else {
        return None;
    };
    let Some(n) = size_of(value) else {
        return None;
    };
    cursor.advance();
    Some(n)
}
