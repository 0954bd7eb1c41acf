//! The productions that hold expressions take the reader of those as a parameter, so that each is
//! proved by itself.
ghost use Rattle.spec_grammar.specs.Grammar.{any};
ghost use Rattle.law_grammar.specs.Reading.{reads};
ghost use Rattle.ras_parse.specs.Inputs.{Reads};
ghost use Rattle.ras_parse.specs.Nests.{Nests, level_of};

use crate::cursor::Cursor;
use crate::stop::Stop;
use ras_syntax::Expr;
use sqlite_items::Boxed;
use std::alloc::Global;

/// The productions that stand inside themselves.
#[derive(Clone, Copy)]
pub enum Level {
    /// Any expression.
    Any,
    /// A negation, or what binds closer.
    Negation,
    /// A sign, or what binds closer.
    Signed,
}

/// The productions, over the reader of those that stand inside them.
#[derive(Clone, Copy)]
pub struct Grammar<F> {
    pub alloc: Global,
    /// How deep expressions may still nest.
    pub depth: usize,
    pub read: F,
}

impl<F: Fn(Global, &mut Cursor<'_>, usize, Level) -> Result<Boxed<Expr>, Stop>> Grammar<F> {
    /// An expression that stands inside another.
    pub fn nested(&self, cursor: &mut Cursor<'_>, level: Level) -> Result<Boxed<Expr>, Stop>
        requires { Nests self.now.depth (F.pre self.now.read) (F.post self.now.read) }
        ensures { Reads (reads self.now.depth (level_of level)) cursor.old result cursor.new }
    {
        (self.read)(self.alloc, cursor, self.depth, level)
    }

    /// Any expression.
    pub fn any(&self, cursor: &mut Cursor<'_>) -> Result<Boxed<Expr>, Stop>
        requires { Nests self.now.depth (F.pre self.now.read) (F.post self.now.read) }
        ensures { Reads (reads self.now.depth any) cursor.old result cursor.new }
    {
        self.nested(cursor, Level::Any)
    }

    /// Any expression, out of its box.
    pub fn plain(&self, cursor: &mut Cursor<'_>) -> Result<Expr, Stop>
        requires { Nests self.now.depth (F.pre self.now.read) (F.post self.now.read) }
        ensures { Reads (reads self.now.depth any) cursor.old result cursor.new }
    {
        let e = self.any(cursor)?;
        Ok(e.into_inner())
    }
}
