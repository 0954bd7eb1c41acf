//! Domains and indexes.
ghost use Rattle.spec_grammar.specs.Grammar.{any};
ghost use Rattle.law_grammar.specs.Reading as spec;
ghost use Rattle.law_grammar.specs.Reading.{reads};
ghost use Rattle.ras_parse.specs.Inputs.{Reads};
ghost use Rattle.ras_parse.specs.Nests.{Nests};

use crate::cursor::Cursor;
use crate::grammar::{Grammar, Level};
use crate::lists::{one, push};
use crate::stop::Stop;
use ras_domain::List;
use ras_syntax::{Axis, DomainExpr, Expr, ExprForm};
use sqlite_items::Boxed;
use std::alloc::Global;

#[tactic(auto, using(crate::proofs::Readings::reading))]
impl<F: Fn(Global, &mut Cursor<'_>, usize, Level) -> Result<Boxed<Expr>, Stop>> Grammar<F> {
    /// `( expr )`
    pub fn parentheses(&self, cursor: &mut Cursor<'_>) -> Result<Boxed<Expr>, Stop>
        requires { Nests self.now.depth (F.pre self.now.read) (F.post self.now.read) }
        ensures { Reads (spec.parentheses_read (reads self.now.depth)) cursor.old result cursor.new }
    {
        cursor.expect_sign(b"(")?;
        let e = self.any(cursor)?;
        cursor.expect_sign(b")")?;
        Ok(e)
    }

    /// An end of bounds: `*` or an expression.
    fn edge(&self, cursor: &mut Cursor<'_>) -> Result<Option<Expr>, Stop>
        requires { Nests self.now.depth (F.pre self.now.read) (F.post self.now.read) }
        ensures { Reads (spec.edge_read (reads self.now.depth)) cursor.old result cursor.new }
    {
        if cursor.sign(b"*") {
            return Ok(None);
        }
        let e = self.any(cursor)?;
        Ok(Some(e.into_inner()))
    }

    /// One axis of an index.
    fn axis(&self, cursor: &mut Cursor<'_>) -> Result<Axis, Stop>
        requires { Nests self.now.depth (F.pre self.now.read) (F.post self.now.read) }
        ensures { Reads (spec.axis_read (reads self.now.depth)) cursor.old result cursor.new }
    {
        if cursor.sign(b"*") {
            cursor.expect_sign(b":")?;
            let hi = self.edge(cursor)?;
            return Ok(Axis::Trim(None, hi));
        }
        let e = self.any(cursor)?;
        if !cursor.sign(b":") {
            return Ok(Axis::At(e.into_inner()));
        }
        let hi = self.edge(cursor)?;
        Ok(Axis::Trim(Some(e.into_inner()), hi))
    }

    /// The axes of an index.
    fn axes(&self, cursor: &mut Cursor<'_>) -> Result<List<Axis>, Stop>
        requires { Nests self.now.depth (F.pre self.now.read) (F.post self.now.read) }
        ensures { Reads (spec.comma_list spec.any_count (spec.axis_read (reads self.now.depth))) cursor.old result cursor.new }
    {
        let first = self.axis(cursor)?;
        let mut all = one(self.alloc, first)?;
        while cursor.sign(b",") {
            let next = self.axis(cursor)?;
            push(self.alloc, &mut all, next)?;
        }
        Ok(all)
    }

    /// `axes ]`
    pub fn index_rest(&self, cursor: &mut Cursor<'_>) -> Result<List<Axis>, Stop>
        requires { Nests self.now.depth (F.pre self.now.read) (F.post self.now.read) }
        ensures { Reads (spec.index_rest (reads self.now.depth)) cursor.old result cursor.new }
    {
        let axes = self.axes(cursor)?;
        cursor.expect_sign(b"]")?;
        Ok(axes)
    }

    /// `expr : expr`
    fn bounds(&self, cursor: &mut Cursor<'_>) -> Result<(Expr, Expr), Stop>
        requires { Nests self.now.depth (F.pre self.now.read) (F.post self.now.read) }
        ensures { Reads (spec.bounds_read (reads self.now.depth)) cursor.old result cursor.new }
    {
        let lo = self.any(cursor)?;
        cursor.expect_sign(b":")?;
        let hi = self.any(cursor)?;
        Ok((lo.into_inner(), hi.into_inner()))
    }

    /// The bounds of a domain that is written.
    fn all_bounds(&self, cursor: &mut Cursor<'_>) -> Result<List<(Expr, Expr)>, Stop>
        requires { Nests self.now.depth (F.pre self.now.read) (F.post self.now.read) }
        ensures { Reads (spec.comma_list spec.any_count (spec.bounds_read (reads self.now.depth))) cursor.old result cursor.new }
    {
        let first = self.bounds(cursor)?;
        let mut all = one(self.alloc, first)?;
        while cursor.sign(b",") {
            let next = self.bounds(cursor)?;
            push(self.alloc, &mut all, next)?;
        }
        Ok(all)
    }

    /// A domain.
    pub fn domain(&self, cursor: &mut Cursor<'_>) -> Result<DomainExpr, Stop>
        requires { Nests self.now.depth (F.pre self.now.read) (F.post self.now.read) }
        ensures { Reads (spec.domain_read (reads self.now.depth)) cursor.old result cursor.new }
    {
        let start = cursor.at();
        if cursor.sign(b"[") {
            let all = self.all_bounds(cursor)?;
            cursor.expect_sign(b"]")?;
            return Ok(DomainExpr::Literal(all));
        }
        cursor.expect_word(b"sdom")?;
        let e = self.parentheses(cursor)?;
        let whole = cursor.tree(self.alloc, start, ExprForm::Sdom(e))?;
        Ok(DomainExpr::Sdom(whole))
    }
}
