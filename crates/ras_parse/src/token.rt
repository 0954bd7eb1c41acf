ghost use Rattle.std.specs.Prelude.{◌≡◌, ◌≤◌, ◌↔◌, length, slice_range, IsTrue, option_copied};

use crate::tables::{
    ATOM_WORDS, Table, is_word, meaning_of_sign, meaning_of_word, weight_of_sign, weight_of_word,
};
use ras_cells::Atom;
use ras_syntax::{Span, SyntaxFault};

/// A token and where it stands. Its bytes are those of the text from `span.from` to `span.to`.
#[derive(Clone, Copy, Debug, PartialEq, Eq)]
pub struct Token {
    pub kind: TokenKind,
    pub span: Span,
}

impl Token {
    ghost use Rattle.spec_grammar.specs.Tokens as spec;
    ghost use Rattle.spec_grammar.specs.Weight.{weight_of_kind};
    ghost use Rattle.law_grammar.specs.Readers.{same_kind, meant};
    ghost use Rattle.law_grammar.specs.Reading.{name_of, number_of, plain_number_of, begins_atom};
    ghost use Rattle.ras_parse.specs.Tables.{table_of};
    ghost use Rattle.ras_parse.specs.Seen.{token_in, StandsIn, says, shows};

    /// The token's bytes.
    pub fn bytes<'a>(&self, text: &'a [u8]) -> &'a [u8]
        requires { StandsIn text.now self.now }
        ensures { result.now ≡ slice_range text.now self.now.span.from self.now.span.to }
    {
        &text[self.span.from as usize..self.span.to as usize]
    }

    /// Whether it is this reserved word, which is given in small letters.
    pub fn is_word(&self, text: &[u8], word: &[u8]) -> bool
        requires { StandsIn text.now self.now }
        ensures test { result ≡ says word.now (token_in text.now self.now).kind }
        ensures meaning { IsTrue result ↔ ((token_in text.now self.now).kind ≡ spec.word word.now) }
        ensures same { result ≡ same_kind (spec.word word.now) (token_in text.now self.now).kind }
    {
        match self.kind {
            TokenKind::Reserved => is_word(self.bytes(text), word),
            _ => false,
        }
    }

    /// Whether it is this sign.
    pub fn is_sign(&self, text: &[u8], sign: &[u8]) -> bool
        requires { StandsIn text.now self.now }
        ensures test { result ≡ shows sign.now (token_in text.now self.now).kind }
        ensures meaning { IsTrue result ↔ ((token_in text.now self.now).kind ≡ spec.sign sign.now) }
        ensures same { result ≡ same_kind (spec.sign sign.now) (token_in text.now self.now).kind }
    {
        match self.kind {
            TokenKind::Sign => self.bytes(text) == sign,
            _ => false,
        }
    }

    /// The bytes of a name.
    pub fn name<'a>(&self, text: &'a [u8]) -> Option<&'a [u8]>
        requires { StandsIn text.now self.now }
        ensures { option_copied result ≡ name_of (token_in text.now self.now) }
    {
        match self.kind {
            TokenKind::Name => Some(self.bytes(text)),
            _ => None,
        }
    }

    /// A number with the atom of its suffix.
    pub fn number(&self) -> Option<(i64, Atom)>
        ensures { (text : spec.Text) → result ≡ number_of (token_in text self.now) }
    {
        match self.kind {
            TokenKind::Number { value, atom } => Some((value, atom)),
            _ => None,
        }
    }

    /// A number without a suffix.
    pub fn plain_number(&self) -> Option<i64>
        ensures { (text : spec.Text) → result ≡ plain_number_of (token_in text self.now) }
    {
        match self.kind {
            TokenKind::Number {
                value,
                atom: Atom::Wide,
            } => Some(value),
            _ => None,
        }
    }

    /// What it stands for in a table.
    pub fn meaning<A: Copy>(&self, text: &[u8], table: &Table<A>) -> Option<A>
        requires { StandsIn text.now self.now }
        ensures { result ≡ meant (table_of table.now) (token_in text.now self.now) }
    {
        match self.kind {
            TokenKind::Sign => meaning_of_sign(table.signs, self.bytes(text)),
            TokenKind::Reserved => meaning_of_word(table.words, self.bytes(text)),
            _ => None,
        }
    }

    /// Whether it begins an atom.
    pub fn begins_atom(&self, text: &[u8]) -> bool
        requires { StandsIn text.now self.now }
        ensures { result ≡ begins_atom (token_in text.now self.now) }
    {
        self.meaning(text, &ATOM_WORDS).is_some() || self.is_word(text, b"unsigned")
    }

    /// How much it weighs.
    pub fn weight(&self, text: &[u8]) -> u32
        requires { StandsIn text.now self.now }
        ensures weight { result ≡ weight_of_kind (token_in text.now self.now).kind }
        ensures most { result ≤ 2 }
    {
        let bytes = self.bytes(text);
        match self.kind {
            TokenKind::Reserved => weight_of_word(bytes),
            TokenKind::Sign => weight_of_sign(bytes),
            TokenKind::Name | TokenKind::Number { .. } => 0,
        }
    }
}

/// What a token is. The bytes of the span say which name, word or sign.
#[derive(Clone, Copy, Debug, PartialEq, Eq)]
pub enum TokenKind {
    /// A name.
    Name,
    /// A reserved word, in any mix of large and small letters.
    Reserved,
    /// A number with the atom of its suffix; a number without a suffix is wide, and no suffix is.
    Number { value: i64, atom: Atom },
    /// A sign.
    Sign,
}

/// What a text goes on with, behind blanks and comments.
#[derive(Clone, Copy, Debug, PartialEq, Eq)]
pub enum Next {
    /// The text's end.
    End,
    Token(Token),
    /// A fault of the token's own.
    Fault(SyntaxFault),
}
