//! What stands by itself: numbers, names, and what is written as a call or in brackets.
ghost use Rattle.spec_grammar.specs.Grammar.{any, s, w};
ghost use Rattle.ras_cells.specs.declared.numbers.Op1.TheVariants as one;
ghost use Rattle.ras_syntax.specs.declared.expr.ExprForm.TheVariants as forms;
ghost use Rattle.law_grammar.specs.Readers.{mapped, expect};
ghost use Rattle.law_grammar.specs.Reading as spec;
ghost use Rattle.law_grammar.specs.Reading.{reads};
ghost use Rattle.ras_parse.specs.Inputs.{Reads};
ghost use Rattle.ras_parse.specs.Nests.{Nests};
ghost use Rattle.ras_parse.specs.Inputs.{Accepts};

use crate::cursor::Cursor;
use crate::grammar::{Grammar, Level};
use crate::lists::{one, push};
use crate::stop::Stop;
use crate::tables::{CALLS, CELLS_FOLDS, TRUTHS};
use ras_cells::{MAX_COMPONENTS, Op1, Op2};
use ras_domain::{List, Name};
use ras_syntax::{CellsFold, Expr, ExprForm};
use sqlite_items::Boxed;
use std::alloc::Global;

/// Reads a comma, where a list of components has room for another.
fn another(cursor: &mut Cursor<'_>, all: &List<Expr>) -> bool
    ensures { Accepts (spec.if_room spec.may_grow all.now) cursor.old result cursor.new }
{
    if all.as_slice().len() >= MAX_COMPONENTS {
        return false;
    }
    cursor.sign(b",")
}

#[tactic(auto, using(crate::proofs::Readings::reading))]
impl<F: Fn(Global, &mut Cursor<'_>, usize, Level) -> Result<Boxed<Expr>, Stop>> Grammar<F> {
    /// Expressions with commas between.
    fn exprs(&self, cursor: &mut Cursor<'_>) -> Result<List<Expr>, Stop>
        requires { Nests self.now.depth (F.pre self.now.read) (F.post self.now.read) }
        ensures { Reads (spec.exprs (reads self.now.depth)) cursor.old result cursor.new }
    {
        let first = self.plain(cursor)?;
        let mut all = one(self.alloc, first)?;
        while cursor.sign(b",") {
            let next = self.plain(cursor)?;
            push(self.alloc, &mut all, next)?;
        }
        Ok(all)
    }

    /// `[ exprs ]`
    fn offsets(&self, cursor: &mut Cursor<'_>) -> Result<List<Expr>, Stop>
        requires { Nests self.now.depth (F.pre self.now.read) (F.post self.now.read) }
        ensures { Reads (spec.between_read (s "[") (s "]") (spec.exprs (reads self.now.depth))) cursor.old result cursor.new }
    {
        cursor.expect_sign(b"[")?;
        let all = self.exprs(cursor)?;
        cursor.expect_sign(b"]")?;
        Ok(all)
    }

    /// 1 to 8 expressions with commas between.
    fn components(&self, cursor: &mut Cursor<'_>) -> Result<List<Expr>, Stop>
        requires { Nests self.now.depth (F.pre self.now.read) (F.post self.now.read) }
        ensures { Reads (spec.comma_list spec.may_grow (reads self.now.depth any)) cursor.old result cursor.new }
    {
        let first = self.plain(cursor)?;
        let mut all = one(self.alloc, first)?;
        while another(cursor, &all) {
            let next = self.plain(cursor)?;
            push(self.alloc, &mut all, next)?;
        }
        Ok(all)
    }

    /// `components }`
    fn braces_rest(&self, cursor: &mut Cursor<'_>) -> Result<ExprForm, Stop>
        requires { Nests self.now.depth (F.pre self.now.read) (F.post self.now.read) }
        ensures { Reads (spec.braces_rest (reads self.now.depth)) cursor.old result cursor.new }
    {
        let all = self.components(cursor)?;
        cursor.expect_sign(b"}")?;
        Ok(ExprForm::Build(all))
    }

    /// `expr then expr`
    fn arm_rest(&self, cursor: &mut Cursor<'_>) -> Result<(Expr, Expr), Stop>
        requires { Nests self.now.depth (F.pre self.now.read) (F.post self.now.read) }
        ensures { Reads (spec.arm_rest (reads self.now.depth)) cursor.old result cursor.new }
    {
        let c = self.any(cursor)?;
        cursor.expect_word(b"then")?;
        let e = self.any(cursor)?;
        Ok((c.into_inner(), e.into_inner()))
    }

    /// `when expr then expr`, once or more.
    fn arms(&self, cursor: &mut Cursor<'_>) -> Result<List<(Expr, Expr)>, Stop>
        requires { Nests self.now.depth (F.pre self.now.read) (F.post self.now.read) }
        ensures { Reads (spec.row_read (w "when") (spec.arm_rest (reads self.now.depth))) cursor.old result cursor.new }
    {
        cursor.expect_word(b"when")?;
        let first = self.arm_rest(cursor)?;
        let mut all = one(self.alloc, first)?;
        while cursor.word(b"when") {
            let next = self.arm_rest(cursor)?;
            push(self.alloc, &mut all, next)?;
        }
        Ok(all)
    }

    /// `arms else expr end`
    fn choice_rest(&self, cursor: &mut Cursor<'_>) -> Result<ExprForm, Stop>
        requires { Nests self.now.depth (F.pre self.now.read) (F.post self.now.read) }
        ensures { Reads (spec.choice_rest (reads self.now.depth)) cursor.old result cursor.new }
    {
        let arms = self.arms(cursor)?;
        cursor.expect_word(b"else")?;
        let other = self.any(cursor)?;
        cursor.expect_word(b"end")?;
        Ok(ExprForm::Case { arms, other })
    }

    /// `( expr , expr )`
    fn call_rest(&self, cursor: &mut Cursor<'_>, op: Op2) -> Result<ExprForm, Stop>
        requires { Nests self.now.depth (F.pre self.now.read) (F.post self.now.read) }
        ensures { Reads (spec.call_rest (reads self.now.depth) op) cursor.old result cursor.new }
    {
        cursor.expect_sign(b"(")?;
        let a = self.any(cursor)?;
        cursor.expect_sign(b",")?;
        let b = self.any(cursor)?;
        cursor.expect_sign(b")")?;
        Ok(ExprForm::Binary { op, a, b })
    }

    /// `( expr )` behind `abs`.
    fn abs_rest(&self, cursor: &mut Cursor<'_>) -> Result<ExprForm, Stop>
        requires { Nests self.now.depth (F.pre self.now.read) (F.post self.now.read) }
        ensures { Reads (mapped (λ x. forms.Unary one.Abs x) (spec.parentheses_read (reads self.now.depth))) cursor.old result cursor.new }
    {
        let e = self.parentheses(cursor)?;
        Ok(ExprForm::Unary { op: Op1::Abs, e })
    }

    /// `( expr )` behind a fold.
    fn cells_rest(&self, cursor: &mut Cursor<'_>, f: CellsFold) -> Result<ExprForm, Stop>
        requires { Nests self.now.depth (F.pre self.now.read) (F.post self.now.read) }
        ensures { Reads (mapped (λ x. forms.Cells f x) (spec.parentheses_read (reads self.now.depth))) cursor.old result cursor.new }
    {
        let e = self.parentheses(cursor)?;
        Ok(ExprForm::Cells { f, e })
    }

    /// `( expr , offsets )` behind `shift`.
    fn shift_rest(&self, cursor: &mut Cursor<'_>) -> Result<ExprForm, Stop>
        requires { Nests self.now.depth (F.pre self.now.read) (F.post self.now.read) }
        ensures { Reads (spec.shift_rest (reads self.now.depth)) cursor.old result cursor.new }
    {
        cursor.expect_sign(b"(")?;
        let e = self.any(cursor)?;
        cursor.expect_sign(b",")?;
        let offsets = self.offsets(cursor)?;
        cursor.expect_sign(b")")?;
        Ok(ExprForm::Shift { e, offsets })
    }

    /// `( expr , domain )` behind `extend`.
    fn extend_rest(&self, cursor: &mut Cursor<'_>) -> Result<ExprForm, Stop>
        requires { Nests self.now.depth (F.pre self.now.read) (F.post self.now.read) }
        ensures { Reads (spec.extend_rest (reads self.now.depth)) cursor.old result cursor.new }
    {
        cursor.expect_sign(b"(")?;
        let e = self.any(cursor)?;
        cursor.expect_sign(b",")?;
        let domain = self.domain(cursor)?;
        cursor.expect_sign(b")")?;
        Ok(ExprForm::Extend { e, domain })
    }

    /// `( expr )` behind `sdom`.
    fn sdom_rest(&self, cursor: &mut Cursor<'_>) -> Result<ExprForm, Stop>
        requires { Nests self.now.depth (F.pre self.now.read) (F.post self.now.read) }
        ensures { Reads (mapped forms.Sdom (spec.parentheses_read (reads self.now.depth))) cursor.old result cursor.new }
    {
        let e = self.parentheses(cursor)?;
        Ok(ExprForm::Sdom(e))
    }

    /// `( name )` behind `oid`.
    fn oid_rest(&self, cursor: &mut Cursor<'_>) -> Result<ExprForm, Stop>
        requires { Nests self.now.depth (F.pre self.now.read) (F.post self.now.read) }
        ensures { Reads (mapped forms.Oid (spec.between_read (s "(") (s ")") spec.named_read)) cursor.old result cursor.new }
    {
        cursor.expect_sign(b"(")?;
        let name = cursor.placed_name(self.alloc)?;
        cursor.expect_sign(b")")?;
        Ok(ExprForm::Oid(name))
    }

    /// What is written as a call.
    fn function_form(&self, cursor: &mut Cursor<'_>) -> Result<ExprForm, Stop>
        requires { Nests self.now.depth (F.pre self.now.read) (F.post self.now.read) }
        ensures { Reads (spec.function_form (reads self.now.depth)) cursor.old result cursor.new }
    {
        if let Some(op) = cursor.meaning(&CALLS) {
            return self.call_rest(cursor, op);
        }
        if cursor.word(b"abs") {
            return self.abs_rest(cursor);
        }
        if let Some(f) = cursor.meaning(&CELLS_FOLDS) {
            return self.cells_rest(cursor, f);
        }
        if cursor.word(b"shift") {
            return self.shift_rest(cursor);
        }
        if cursor.word(b"extend") {
            return self.extend_rest(cursor);
        }
        if cursor.word(b"sdom") {
            return self.sdom_rest(cursor);
        }
        cursor.expect_word(b"oid")?;
        self.oid_rest(cursor)
    }

    /// `{ components }` behind `struct`.
    fn struct_rest(&self, cursor: &mut Cursor<'_>) -> Result<ExprForm, Stop>
        requires { Nests self.now.depth (F.pre self.now.read) (F.post self.now.read) }
        ensures { Reads (expect (s "{") (spec.braces_rest (reads self.now.depth))) cursor.old result cursor.new }
    {
        cursor.expect_sign(b"{")?;
        self.braces_rest(cursor)
    }

    /// What stands by itself, but an expression in parentheses.
    pub fn primary_form(&self, cursor: &mut Cursor<'_>) -> Result<ExprForm, Stop>
        requires { Nests self.now.depth (F.pre self.now.read) (F.post self.now.read) }
        ensures { Reads (spec.primary_form (reads self.now.depth)) cursor.old result cursor.new }
    {
        if let Some((value, atom)) = cursor.number() {
            return Ok(ExprForm::Number { value, atom });
        }
        if let Some(b) = cursor.meaning(&TRUTHS) {
            return Ok(ExprForm::Bool(b));
        }
        if let Some(bytes) = cursor.name() {
            return Ok(ExprForm::Name(Name::of(self.alloc, bytes)?));
        }
        if cursor.sign(b"{") {
            return self.braces_rest(cursor);
        }
        if cursor.word(b"struct") {
            return self.struct_rest(cursor);
        }
        if cursor.word(b"case") {
            return self.choice_rest(cursor);
        }
        self.function_form(cursor)
    }
}
