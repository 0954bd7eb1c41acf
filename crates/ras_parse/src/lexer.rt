//! One token at a time, without memory.
ghost use Rattle.std.specs.Prelude.{◌≡◌, ◌≤◌, ◌<◌, ◌^◌, ◌+◌, length, drop, pos, slice_range, MatchOption, true, false, codes};
ghost use Rattle.ras_cells.specs.Atoms.{is_in_range};
ghost use Rattle.spec_grammar.specs.Tokens as spec;
ghost use Rattle.ras_parse.specs.Seen.{found_in, NextLiesIn};
ghost use Rattle.ras_parse.specs.Walk.{found_from, lexed_after, lexed_with};

use crate::bytes::{
    begins_name, begins_with_name, digits_len, is_digit, is_float_mark, name_len, space_len,
    value_of,
};
use crate::tables::{is_float_name, is_reserved, sign_len, suffix_of};
use crate::token::{Next, Token, TokenKind};
use ras_cells::Atom;
use ras_syntax::{Span, SyntaxFault};

fn token(kind: TokenKind, from: usize, to: usize) -> Next
    requires order { from ≤ to }
    requires short { to < 2 ^ 32 }
    ensures { result ≡ Next.Token (record { kind = kind; span = record { from = from; to = to } }) }
{
    let span = Span {
        from: from as u32,
        to: to as u32,
    };
    Next::Token(Token { kind, span })
}

/// Whether `(` is the next token of a text.
fn opens(text: &[u8]) -> bool
    ensures { result ≡ spec.begins_with (codes "(") (spec.after_space text.now) }
{
    text[space_len(text)..].starts_with(b"(")
}

/// The name or reserved word that takes these bytes of a text, or its own fault.
fn name_at(text: &[u8], from: usize, to: usize) -> Next
    requires order { from < to }
    requires within { to ≤ length text.now }
    requires short { length text.now < 2 ^ 32 }
    ensures found { found_in text.now result ≡ spec.name_at from (slice_range text.now from to) (drop to text.now) }
    ensures within { NextLiesIn text.now from result }
{
    let name = &text[from..to];
    let place = from as u32;
    if is_reserved(name) {
        token(TokenKind::Reserved, from, to)
    } else if is_float_name(name) {
        Next::Fault(SyntaxFault::FloatRefused { place })
    } else if opens(&text[to..]) {
        Next::Fault(SyntaxFault::UnknownName { place })
    } else {
        token(TokenKind::Name, from, to)
    }
}

/// The value of digits, or None where it is no number of the atom.
fn number_of(atom: Atom, digits: &[u8]) -> Option<i64>
    ensures { MatchOption result (is_in_range atom (pos (spec.value_of digits.now)) ≡ false)
        (λ value. (value ≡ pos (spec.value_of digits.now)) × (is_in_range atom value ≡ true)) }
{
    let value = value_of(digits)?;
    if atom.contains(value) {
        Some(value)
    } else {
        None
    }
}

/// The number whose digits are these bytes of a text, with its suffix, or its own fault.
fn number_at(text: &[u8], from: usize, to: usize) -> Next
    requires order { from < to }
    requires within { to ≤ length text.now }
    requires short { length text.now < 2 ^ 32 }
    ensures found { found_in text.now result ≡ spec.number_at from (slice_range text.now from to) (drop to text.now) }
    ensures within { NextLiesIn text.now from result }
{
    let place = from as u32;
    let (len, atom) = suffix_of(&text[to..]);
    let Some(value) = number_of(atom, &text[from..to]) else {
        return Next::Fault(SyntaxFault::NumberTooWide { place });
    };
    let rest = &text[to + len..];
    if is_float_mark(rest) {
        return Next::Fault(SyntaxFault::FloatRefused { place });
    }
    if begins_with_name(rest) {
        return Next::Fault(SyntaxFault::Unexpected { place });
    }
    token(TokenKind::Number { value, atom }, from, to + len)
}

/// The sign that a text goes on with at a place, or its own fault.
fn sign_at(text: &[u8], from: usize) -> Next
    requires within { from < length text.now }
    requires short { length text.now < 2 ^ 32 }
    ensures found { found_in text.now result ≡ spec.sign_at from (drop from text.now) }
    ensures within { NextLiesIn text.now from result }
{
    let rest = &text[from..];
    let place = from as u32;
    match sign_len(rest) {
        Some(len) => token(TokenKind::Sign, from, from + len),
        None if rest.starts_with(b"/") => Next::Fault(SyntaxFault::FloatRefused { place }),
        None => Next::Fault(SyntaxFault::Unexpected { place }),
    }
}

/// The token that stands at a place which is no blank and in no comment, or its own fault.
fn token_at(text: &[u8], from: usize) -> Next
    requires within { from ≤ length text.now }
    requires short { length text.now < 2 ^ 32 }
    ensures found { found_in text.now result ≡ spec.token_at from (drop from text.now) }
    ensures within { NextLiesIn text.now from result }
{
    if from >= text.len() {
        return Next::End;
    }
    let first = text[from];
    let rest = &text[from..];
    if begins_name(first) {
        name_at(text, from, from + name_len(rest))
    } else if is_digit(first) {
        number_at(text, from, from + digits_len(rest))
    } else {
        sign_at(text, from)
    }
}

/// What a text goes on with from a place on, behind blanks and comments.
pub fn next_token(text: &[u8], at: usize) -> Next
    requires within { at ≤ length text.now }
    requires short { length text.now < 2 ^ 32 }
    ensures found { found_in text.now result ≡ found_from text.now at }
    // The tokens from the place on are this one and those behind it.
    ensures steps { lexed_after text.now at ≡ lexed_with text.now (found_in text.now result) }
    ensures within { NextLiesIn text.now at result }
{
    token_at(text, at + space_len(&text[at..]))
}
