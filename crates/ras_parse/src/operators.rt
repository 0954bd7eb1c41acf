//! Operators between operands.
ghost use Rattle.std.specs.Prelude.{◌≡◌};
ghost use Rattle.law_grammar.specs.Reading as spec;
ghost use Rattle.law_grammar.specs.Reading.{reads};
ghost use Rattle.ras_parse.specs.Inputs.{Reads};
ghost use Rattle.ras_parse.specs.Nests.{Nests};

use crate::cursor::Cursor;
use crate::grammar::{Grammar, Level};
use crate::stop::Stop;
use crate::tables::{BOTHS, COMPARISONS, EITHERS, OVERLAYS, PRODUCTS, SUMS};
use ras_cells::{Op1, Op2};
use ras_syntax::{Expr, ExprForm};
use sqlite_items::Boxed;
use std::alloc::Global;

fn binary(op: Op2, a: Boxed<Expr>, b: Boxed<Expr>) -> ExprForm
    ensures { result ≡ ExprForm.Binary op a b }
{
    ExprForm::Binary { op, a, b }
}

#[tactic(auto, using(crate::proofs::Readings::reading))]
impl<F: Fn(Global, &mut Cursor<'_>, usize, Level) -> Result<Boxed<Expr>, Stop>> Grammar<F> {
    /// Products of signed operands.
    fn product(&self, cursor: &mut Cursor<'_>) -> Result<Boxed<Expr>, Stop>
        requires { Nests self.now.depth (F.pre self.now.read) (F.post self.now.read) }
        ensures { Reads (spec.product_read (reads self.now.depth)) cursor.old result cursor.new }
    {
        let start = cursor.at();
        let mut e = self.signed(cursor)?;
        while let Some(op) = cursor.meaning(&PRODUCTS) {
            let other = self.signed(cursor)?;
            e = cursor.tree(self.alloc, start, binary(op, e, other))?;
        }
        Ok(e)
    }

    /// Sums and differences of products.
    fn sum(&self, cursor: &mut Cursor<'_>) -> Result<Boxed<Expr>, Stop>
        requires { Nests self.now.depth (F.pre self.now.read) (F.post self.now.read) }
        ensures { Reads (spec.sum_read (reads self.now.depth)) cursor.old result cursor.new }
    {
        let start = cursor.at();
        let mut e = self.product(cursor)?;
        while let Some(op) = cursor.meaning(&SUMS) {
            let other = self.product(cursor)?;
            e = cursor.tree(self.alloc, start, binary(op, e, other))?;
        }
        Ok(e)
    }

    /// A comparison of sums, or a sum.
    fn compared(&self, cursor: &mut Cursor<'_>) -> Result<Boxed<Expr>, Stop>
        requires { Nests self.now.depth (F.pre self.now.read) (F.post self.now.read) }
        ensures { Reads (spec.compared_read (reads self.now.depth)) cursor.old result cursor.new }
    {
        let start = cursor.at();
        let e = self.sum(cursor)?;
        let Some(op) = cursor.meaning(&COMPARISONS) else {
            return Ok(e);
        };
        let other = self.sum(cursor)?;
        let whole = cursor.tree(self.alloc, start, binary(op, e, other))?;
        Ok(whole)
    }

    /// A negation, or a comparison.
    pub fn negated(&self, cursor: &mut Cursor<'_>) -> Result<Boxed<Expr>, Stop>
        requires { Nests self.now.depth (F.pre self.now.read) (F.post self.now.read) }
        ensures { Reads (spec.negated_read (reads self.now.depth)) cursor.old result cursor.new }
    {
        let start = cursor.at();
        if !cursor.word(b"not") {
            return self.compared(cursor);
        }
        let e = self.nested(cursor, Level::Negation)?;
        let whole = cursor.tree(self.alloc, start, ExprForm::Unary { op: Op1::Not, e })?;
        Ok(whole)
    }

    /// Operands of `and`.
    fn both(&self, cursor: &mut Cursor<'_>) -> Result<Boxed<Expr>, Stop>
        requires { Nests self.now.depth (F.pre self.now.read) (F.post self.now.read) }
        ensures { Reads (spec.both_read (reads self.now.depth)) cursor.old result cursor.new }
    {
        let start = cursor.at();
        let mut e = self.negated(cursor)?;
        while let Some(op) = cursor.meaning(&BOTHS) {
            let other = self.negated(cursor)?;
            e = cursor.tree(self.alloc, start, binary(op, e, other))?;
        }
        Ok(e)
    }

    /// Operands of `or` and `xor`.
    fn either(&self, cursor: &mut Cursor<'_>) -> Result<Boxed<Expr>, Stop>
        requires { Nests self.now.depth (F.pre self.now.read) (F.post self.now.read) }
        ensures { Reads (spec.either_read (reads self.now.depth)) cursor.old result cursor.new }
    {
        let start = cursor.at();
        let mut e = self.both(cursor)?;
        while let Some(op) = cursor.meaning(&EITHERS) {
            let other = self.both(cursor)?;
            e = cursor.tree(self.alloc, start, binary(op, e, other))?;
        }
        Ok(e)
    }

    /// Operands of `overlay`.
    pub fn overlaid(&self, cursor: &mut Cursor<'_>) -> Result<Boxed<Expr>, Stop>
        requires { Nests self.now.depth (F.pre self.now.read) (F.post self.now.read) }
        ensures { Reads (spec.overlaid_read (reads self.now.depth)) cursor.old result cursor.new }
    {
        let start = cursor.at();
        let mut e = self.either(cursor)?;
        while let Some(op) = cursor.meaning(&OVERLAYS) {
            let other = self.either(cursor)?;
            e = cursor.tree(self.alloc, start, binary(op, e, other))?;
        }
        Ok(e)
    }
}
