//! Signs, casts and parts.
ghost use Rattle.std.specs.Prelude.{true, false, drop};
ghost use Rattle.spec_grammar.specs.Grammar.{any, s};
ghost use Rattle.law_grammar.specs.Reading as spec;
ghost use Rattle.law_grammar.specs.Reading.{reads};
ghost use Rattle.ras_parse.specs.Inputs.{Reads};
ghost use Rattle.ras_parse.specs.Nests.{Nests};
ghost use Rattle.ras_parse.specs.Parts.{component_form, form_of_part, parts_from};

use crate::cursor::Cursor;
use crate::grammar::{Grammar, Level};
use crate::stop::Stop;
use crate::tables::{ATOM_WORDS, PART_SIGNS, UNSIGNED_WORDS};
use ras_cells::{Atom, Op1};
use ras_domain::Name;
use ras_syntax::{Expr, ExprForm, Part};
use sqlite_items::Boxed;
use std::alloc::Global;

/// An atom.
#[tactic(auto, using(crate::proofs::Readings::reading))]
fn atom(cursor: &mut Cursor<'_>) -> Result<Atom, Stop>
    ensures { Reads spec.atom_read cursor.old result cursor.new }
{
    if let Some(atom) = cursor.meaning(&ATOM_WORDS) {
        return Ok(atom);
    }
    cursor.expect_word(b"unsigned")?;
    if let Some(atom) = cursor.meaning(&UNSIGNED_WORDS) {
        return Ok(atom);
    }
    Err(Stop::Unexpected)
}

/// A name or a number without a suffix, behind the point.
#[tactic(auto, using(crate::proofs::Readings::reading))]
fn component(alloc: Global, cursor: &mut Cursor<'_>, e: Boxed<Expr>) -> Result<ExprForm, Stop>
    ensures { Reads (component_form e) cursor.old result cursor.new }
{
    let part = match cursor.name() {
        Some(bytes) => Part::Named(Name::of(alloc, bytes)?),
        None => Part::Numbered(cursor.plain_number().ok_or(Stop::Unexpected)?),
    };
    Ok(ExprForm::Part { e, part })
}

#[tactic(auto, using(crate::proofs::Readings::reading))]
impl<F: Fn(Global, &mut Cursor<'_>, usize, Level) -> Result<Boxed<Expr>, Stop>> Grammar<F> {
    /// `atom ) signed`, behind a parenthesis.
    fn cast_rest(&self, cursor: &mut Cursor<'_>) -> Result<ExprForm, Stop>
        requires { Nests self.now.depth (F.pre self.now.read) (F.post self.now.read) }
        ensures { Reads (spec.cast_rest (reads self.now.depth)) cursor.old result cursor.new }
    {
        let to = atom(cursor)?;
        cursor.expect_sign(b")")?;
        let e = self.nested(cursor, Level::Signed)?;
        Ok(ExprForm::Cast { to, e })
    }

    /// An index, behind its bracket.
    fn index(&self, cursor: &mut Cursor<'_>, e: Boxed<Expr>) -> Result<ExprForm, Stop>
        requires { Nests self.now.depth (F.pre self.now.read) (F.post self.now.read) }
        ensures { Reads (form_of_part (reads self.now.depth) e true) cursor.old result cursor.new }
    {
        let axes = self.index_rest(cursor)?;
        Ok(ExprForm::Index { e, axes })
    }

    /// An index or a component, behind the sign that tells which.
    fn part(
        &self,
        cursor: &mut Cursor<'_>,
        e: Boxed<Expr>,
        is_index: bool,
    ) -> Result<ExprForm, Stop>
        requires { Nests self.now.depth (F.pre self.now.read) (F.post self.now.read) }
        ensures { Reads (form_of_part (reads self.now.depth) e is_index) cursor.old result cursor.new }
    {
        if is_index {
            self.index(cursor, e)
        } else {
            component(self.alloc, cursor, e)
        }
    }

    /// Indexes and components, of what was read since so many tokens were read.
    fn parts(
        &self,
        cursor: &mut Cursor<'_>,
        start: usize,
        of: Boxed<Expr>,
    ) -> Result<Boxed<Expr>, Stop>
        requires { Nests self.now.depth (F.pre self.now.read) (F.post self.now.read) }
        ensures { Reads (parts_from (reads self.now.depth) (drop start cursor.old.tokens) of) cursor.old result cursor.new }
    {
        let mut e = of;
        while let Some(is_index) = cursor.meaning(&PART_SIGNS) {
            let form = self.part(cursor, e, is_index)?;
            e = cursor.tree(self.alloc, start, form)?;
        }
        Ok(e)
    }

    /// `expr )`
    fn closed(&self, cursor: &mut Cursor<'_>) -> Result<Boxed<Expr>, Stop>
        requires { Nests self.now.depth (F.pre self.now.read) (F.post self.now.read) }
        ensures { Reads (spec.closed_read (s ")") (reads self.now.depth any)) cursor.old result cursor.new }
    {
        let e = self.any(cursor)?;
        cursor.expect_sign(b")")?;
        Ok(e)
    }

    /// A sign, a cast, or a part.
    pub fn signed(&self, cursor: &mut Cursor<'_>) -> Result<Boxed<Expr>, Stop>
        requires { Nests self.now.depth (F.pre self.now.read) (F.post self.now.read) }
        ensures { Reads (spec.signed_read (reads self.now.depth)) cursor.old result cursor.new }
    {
        let start = cursor.at();
        if cursor.sign(b"-") {
            let e = self.nested(cursor, Level::Signed)?;
            let negative = cursor.tree(self.alloc, start, ExprForm::Unary { op: Op1::Neg, e })?;
            return Ok(negative);
        }
        if !cursor.sign(b"(") {
            let form = self.primary_form(cursor)?;
            let part = cursor.tree(self.alloc, start, form)?;
            return self.parts(cursor, start, part);
        }
        if cursor.begins_atom() {
            let cast = self.cast_rest(cursor)?;
            let whole = cursor.tree(self.alloc, start, cast)?;
            return Ok(whole);
        }
        let inner = self.closed(cursor)?;
        self.parts(cursor, start, inner)
    }
}
