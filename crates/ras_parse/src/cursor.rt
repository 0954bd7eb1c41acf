//! The tokens of a text, read one by one.
ghost use Rattle.std.specs.Prelude.{◌≡◌, ◌<◌, [], ◌∷◌, drop, length, if◌then◌else◌, IsTrue, MatchOption, option_copied, Some, None, All, IfOk};
ghost use Rattle.spec_grammar.specs.Grammar as grammar;
ghost use Rattle.spec_grammar.specs.Tokens as spec;
ghost use Rattle.law_grammar.specs.Readers.{exactly, meant, before};
ghost use Rattle.law_grammar.specs.Reading as read;
ghost use Rattle.ras_parse.specs.Seen.{token_in, tokens_in, StandsIn};
ghost use Rattle.ras_parse.specs.Tables.{table_of};
ghost use Rattle.ras_parse.specs.Inputs.{left, next, first_place, first_passes, Accepts, TakesToken, Expects, ExpectsKind};

use crate::session::retries_of;
use crate::stop::Stop;
use crate::tables::Table;
use crate::token::Token;
use ras_cells::Atom;
use ras_domain::Name;
use ras_syntax::{Expr, ExprForm, Span, Spanned};
use sqlite_items::Boxed;
use std::alloc::{AllocError, Global};
use std::marker::Model;

/// The tokens of a text from the next one on.
#[derive(Drop)]
pub struct Cursor<'t> {
    text: &'t [u8],
    tokens: &'t [Token],
    /// How many tokens were read.
    at: usize,
}

/// A token of a text.
#[derive(Clone, Copy)]
pub struct Front<'t> {
    pub text: &'t [u8],
    pub token: Token,
}

impl<'t> Model for Cursor<'t> {
    ghost use Rattle.ras_parse.specs.Inputs.{Input};

    ghost Value = { Input };

    ghost use Rattle.ras_parse.specs.CursorView.{input_of, IsCursor};

    ghost view = { input_of };

    ghost invariant = { IsCursor };
}

impl<'t> Cursor<'t> {
    /// Nothing is read yet.
    pub fn new(text: &'t [u8], tokens: &'t [Token]) -> Cursor<'t>
        requires { All (StandsIn text.now) tokens.now }
        ensures { result ≡ record { tokens = tokens_in text.now tokens.now; at = 0 } }
    {
        Cursor {
            text,
            tokens,
            at: 0,
        }
    }

    /// How many tokens were read.
    pub fn at(&self) -> usize
        ensures { result ≡ self.now.at }
    {
        self.at
    }

    /// The next token.
    pub fn peek(&self) -> Option<Front<'t>>
        ensures token { MatchOption result (left self.now ≡ []) (λ f. left self.now ≡ token_in f.text.now f.token ∷ left (next self.now)) }
        ensures stands { MatchOption result (left self.now ≡ []) (λ f. StandsIn f.text.now f.token) }
    {
        if self.at < self.tokens.len() {
            Some(Front {
                text: self.text,
                token: self.tokens[self.at],
            })
        } else {
            None
        }
    }

    /// Goes behind the next token.
    pub fn advance(&mut self)
        requires { 0 < length (left self.old) }
        ensures { self.new ≡ next self.old }
    {
        self.at += 1;
    }

    /// Where the next token begins.
    pub fn place(&self) -> Option<u32>
        ensures { result ≡ first_place (left self.now) }
    {
        let front = self.peek()?;
        Some(front.token.span.from)
    }

    /// Reads the next token if it is this reserved word, which is given in small letters.
    pub fn word(&mut self, word: &[u8]) -> bool
        ensures { Accepts (exactly (spec.word word.now)) self.old result self.new }
    {
        let Some(front) = self.peek() else {
            return false;
        };
        if !front.token.is_word(front.text, word) {
            return false;
        }
        self.advance();
        true
    }

    /// Reads the next token if it is this sign.
    pub fn sign(&mut self, sign: &[u8]) -> bool
        ensures { Accepts (exactly (spec.sign sign.now)) self.old result self.new }
    {
        let Some(front) = self.peek() else {
            return false;
        };
        if !front.token.is_sign(front.text, sign) {
            return false;
        }
        self.advance();
        true
    }

    /// Reads this reserved word, which is given in small letters.
    pub fn expect_word(&mut self, word: &[u8]) -> Result<(), Stop>
        ensures { ExpectsKind (spec.word word.now) self.old result self.new }
    {
        if self.word(word) {
            Ok(())
        } else {
            Err(Stop::Unexpected)
        }
    }

    /// Reads this sign.
    pub fn expect_sign(&mut self, sign: &[u8]) -> Result<(), Stop>
        ensures { ExpectsKind (spec.sign sign.now) self.old result self.new }
    {
        if self.sign(sign) {
            Ok(())
        } else {
            Err(Stop::Unexpected)
        }
    }

    /// Reads the next token if it is a name, and gives its bytes.
    pub fn name(&mut self) -> Option<&'t [u8]>
        ensures { TakesToken read.name_of self.old (option_copied result) self.new }
    {
        let Some(front) = self.peek() else {
            return None;
        };
        let Some(name) = front.token.name(front.text) else {
            return None;
        };
        self.advance();
        Some(name)
    }

    /// Reads the next token if it is a number, and gives its atom with it.
    pub fn number(&mut self) -> Option<(i64, Atom)>
        ensures { TakesToken read.number_of self.old result self.new }
    {
        let Some(front) = self.peek() else {
            return None;
        };
        let Some(number) = front.token.number() else {
            return None;
        };
        self.advance();
        Some(number)
    }

    /// Reads the next token if it is a number without a suffix.
    pub fn plain_number(&mut self) -> Option<i64>
        ensures { TakesToken read.plain_number_of self.old result self.new }
    {
        let Some(front) = self.peek() else {
            return None;
        };
        let Some(number) = front.token.plain_number() else {
            return None;
        };
        self.advance();
        Some(number)
    }

    /// Reads the next token if it is a number that may follow `retry`.
    pub fn retries(&mut self) -> Option<u32>
        ensures { TakesToken read.times_of self.old result self.new }
    {
        let Some(front) = self.peek() else {
            return None;
        };
        let Some(times) = retries_of(front.token.kind) else {
            return None;
        };
        self.advance();
        Some(times)
    }

    /// Reads the next token if it stands in a table, and gives what it stands for.
    pub fn meaning<A: Copy>(&mut self, table: &Table<A>) -> Option<A>
        ensures { TakesToken (meant (table_of table.now)) self.old result self.new }
    {
        let Some(front) = self.peek() else {
            return None;
        };
        let Some(meaning) = front.token.meaning(front.text, table) else {
            return None;
        };
        self.advance();
        Some(meaning)
    }

    /// Whether the next token begins an atom.
    pub fn begins_atom(&self) -> bool
        ensures { result ≡ first_passes read.begins_atom (left self.now) }
    {
        match self.peek() {
            Some(front) => front.token.begins_atom(front.text),
            None => false,
        }
    }

    /// Reads a name, and gives it with its place.
    pub fn placed_name(&mut self, alloc: Global) -> Result<Spanned, Stop>
        ensures { Expects read.placed_name self.old result self.new }
    {
        let Some(front) = self.peek() else {
            return Err(Stop::Unexpected);
        };
        let Some(bytes) = front.token.name(front.text) else {
            return Err(Stop::Unexpected);
        };
        let name = Name::of(alloc, bytes)?;
        self.advance();
        Ok(Spanned {
            name,
            span: front.token.span,
        })
    }

    /// The tree of what was read since so many tokens were read.
    pub fn tree(
        &self,
        alloc: Global,
        start: usize,
        form: ExprForm,
    ) -> Result<Boxed<Expr>, AllocError>
        ensures { IfOk result (λ e. e ≡ grammar.tree (before (drop start self.now.tokens) (left self.now)) form) }
    {
        Boxed::new(
            alloc,
            Expr {
                span: self.span(start),
                form,
            },
        )
    }

    /// The span of what was read since so many tokens were read.
    pub fn span(&self, start: usize) -> Span
        ensures { result ≡ grammar.span_of (before (drop start self.now.tokens) (left self.now)) }
    {
        if start < self.at {
            Span {
                from: self.tokens[start].span.from,
                to: self.tokens[self.at - 1].span.to,
            }
        } else {
            Span { from: 0, to: 0 }
        }
    }
}
