//! Whole expressions.
ghost use Rattle.spec_grammar.specs.Grammar.{any, w};
ghost use Rattle.law_grammar.specs.Reading as spec;
ghost use Rattle.law_grammar.specs.Reading.{reads};
ghost use Rattle.ras_parse.specs.Inputs.{Reads};
ghost use Rattle.ras_parse.specs.Nests.{Nests};
ghost use Rattle.ras_parse.specs.Nests.{level_of};
ghost use Rattle.ras_parse.specs.Wholes.{fold_rest, with_rest};

use crate::cursor::Cursor;
use crate::grammar::{Grammar, Level};
use crate::lists::{one, push};
use crate::stop::Stop;
use crate::tables::FOLD_OPERATORS;
use ras_domain::List;
use ras_syntax::{DomainExpr, Expr, ExprForm, FoldOp, Spanned};
use sqlite_items::Boxed;
use std::alloc::Global;

/// An expression of a level, nested less deep than a number.
pub fn expression(
    alloc: Global,
    cursor: &mut Cursor<'_>,
    depth: usize,
    level: Level,
) -> Result<Boxed<Expr>, Stop>
    ensures { Reads (reads depth (level_of level)) cursor.old result cursor.new }
{
    if depth == 0 {
        return Err(Stop::Unexpected);
    }
    Grammar {
        alloc,
        depth: depth - 1,
        read: expression,
    }
    .level(cursor, level)
}

#[tactic(auto, using(crate::proofs::Readings::reading))]
impl<F: Fn(Global, &mut Cursor<'_>, usize, Level) -> Result<Boxed<Expr>, Stop>> Grammar<F> {
    /// `name in domain values expr`
    fn marray_rest(&self, cursor: &mut Cursor<'_>) -> Result<ExprForm, Stop>
        requires { Nests self.now.depth (F.pre self.now.read) (F.post self.now.read) }
        ensures { Reads (spec.marray_rest (reads self.now.depth)) cursor.old result cursor.new }
    {
        let x = cursor.placed_name(self.alloc)?;
        cursor.expect_word(b"in")?;
        let domain = self.domain(cursor)?;
        cursor.expect_word(b"values")?;
        let e = self.any(cursor)?;
        Ok(ExprForm::Marray { x, domain, e })
    }

    /// `where expr`, or nothing.
    pub fn condition(&self, cursor: &mut Cursor<'_>) -> Result<Option<Boxed<Expr>>, Stop>
        requires { Nests self.now.depth (F.pre self.now.read) (F.post self.now.read) }
        ensures { Reads (spec.optional_after (w "where") (reads self.now.depth any)) cursor.old result cursor.new }
    {
        if !cursor.word(b"where") {
            return Ok(None);
        }
        let e = self.any(cursor)?;
        Ok(Some(e))
    }

    /// `condition using expr`
    fn fold_rest(
        &self,
        cursor: &mut Cursor<'_>,
        op: FoldOp,
        x: Spanned,
        domain: DomainExpr,
    ) -> Result<ExprForm, Stop>
        requires { Nests self.now.depth (F.pre self.now.read) (F.post self.now.read) }
        ensures { Reads (fold_rest (reads self.now.depth) op x domain) cursor.old result cursor.new }
    {
        let cond = self.condition(cursor)?;
        cursor.expect_word(b"using")?;
        let e = self.any(cursor)?;
        Ok(ExprForm::Condense {
            op,
            x,
            domain,
            cond,
            e,
        })
    }

    /// `op over name in domain condition using expr`
    fn condense_rest(&self, cursor: &mut Cursor<'_>) -> Result<ExprForm, Stop>
        requires { Nests self.now.depth (F.pre self.now.read) (F.post self.now.read) }
        ensures { Reads (spec.condense_rest (reads self.now.depth)) cursor.old result cursor.new }
    {
        let Some(op) = cursor.meaning(&FOLD_OPERATORS) else {
            return Err(Stop::Unexpected);
        };
        cursor.expect_word(b"over")?;
        let x = cursor.placed_name(self.alloc)?;
        cursor.expect_word(b"in")?;
        let domain = self.domain(cursor)?;
        self.fold_rest(cursor, op, x, domain)
    }

    /// `with expr`, once or more, behind a first expression.
    fn others(&self, cursor: &mut Cursor<'_>, first: Expr) -> Result<List<Expr>, Stop>
        requires { Nests self.now.depth (F.pre self.now.read) (F.post self.now.read) }
        ensures { Reads (with_rest (reads self.now.depth) first) cursor.old result cursor.new }
    {
        let mut all = one(self.alloc, first)?;
        cursor.expect_word(b"with")?;
        let second = self.plain(cursor)?;
        push(self.alloc, &mut all, second)?;
        while cursor.word(b"with") {
            let next = self.plain(cursor)?;
            push(self.alloc, &mut all, next)?;
        }
        Ok(all)
    }

    /// `expr with expr .. along number`
    fn concat_rest(&self, cursor: &mut Cursor<'_>) -> Result<ExprForm, Stop>
        requires { Nests self.now.depth (F.pre self.now.read) (F.post self.now.read) }
        ensures { Reads (spec.concat_rest (reads self.now.depth)) cursor.old result cursor.new }
    {
        let first = self.plain(cursor)?;
        let parts = self.others(cursor, first)?;
        cursor.expect_word(b"along")?;
        let Some(along) = cursor.plain_number() else {
            return Err(Stop::Unexpected);
        };
        Ok(ExprForm::Concat { parts, along })
    }

    /// Any expression.
    pub fn whole(&self, cursor: &mut Cursor<'_>) -> Result<Boxed<Expr>, Stop>
        requires { Nests self.now.depth (F.pre self.now.read) (F.post self.now.read) }
        ensures { Reads (spec.whole_read (reads self.now.depth)) cursor.old result cursor.new }
    {
        let start = cursor.at();
        if cursor.word(b"marray") {
            let marray = self.marray_rest(cursor)?;
            let whole = cursor.tree(self.alloc, start, marray)?;
            return Ok(whole);
        }
        if cursor.word(b"condense") {
            let condense = self.condense_rest(cursor)?;
            let whole = cursor.tree(self.alloc, start, condense)?;
            return Ok(whole);
        }
        if cursor.word(b"concat") {
            let concat = self.concat_rest(cursor)?;
            let whole = cursor.tree(self.alloc, start, concat)?;
            return Ok(whole);
        }
        self.overlaid(cursor)
    }

    /// The production of a level.
    pub fn level(&self, cursor: &mut Cursor<'_>, level: Level) -> Result<Boxed<Expr>, Stop>
        requires { Nests self.now.depth (F.pre self.now.read) (F.post self.now.read) }
        ensures { Reads (spec.level_read (reads self.now.depth) (level_of level)) cursor.old result cursor.new }
    {
        match level {
            Level::Any => self.whole(cursor),
            Level::Negation => self.negated(cursor),
            Level::Signed => self.signed(cursor),
        }
    }
}
