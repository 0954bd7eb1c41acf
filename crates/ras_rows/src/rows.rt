//! The rows of a checked statement, as a view shows them.
ghost use Rattle.std.specs.Prelude.{◌≡◌, ◌+◌, ◌<◌, ◌≤◌, ◌↔◌, [], filter, length, map, min, slice_get, IfOk, IsTrue, Some, option_map};
ghost use Rattle.std.specs.Option.{option_copied};
ghost use Rattle.ras_rows.specs.Arrays.{holdings_in};
ghost use Rattle.ras_rows.specs.RowsKept.{members_named, row_count, row_named};
ghost use Rattle.ras_rows.specs.Stops.{GivesOrStops};
ghost use Rattle.spec_expressions.specs.Database.{Database};
ghost use Rattle.spec_expressions.specs.Tree.{condition_of, tree_of};
ghost use Rattle.spec_shown.specs.Shown.{IsShownBy, identifiers_shown, rows_shown};
ghost use Rattle.spec_statements.specs.Limits.{limited_rows};
ghost use Rattle.spec_statements.specs.Phases.{until_rows};
ghost use Rattle.spec_statements.specs.Rows.{asked_of, combinations, is_asked};
ghost use Rattle.spec_statements.specs.Statement.{request_of, statement_tree_of};

use crate::array::ShownArray;
use crate::asked::allows;
use crate::parts::{condition, sources, whole_text};
use crate::stop::Stop;
use ras_store::View;
use ras_syntax::{Answer, Checked, CheckedSource, MAX_ROWS, ShapeFault, TypedExpr};
use std::alloc::{AllocError, Global};
use std::marker::Model;

/// The rows of a statement: all combinations of the arrays of its sources, the first source slowest.
/// It keeps the identifiers of each source's arrays, and no row. Contracts see the list of the rows,
/// each with its number, from 1.
#[derive(Drop)]
pub struct Rows<'a> {
    view: &'a View,
    sources: &'a [CheckedSource],
    oids: Vec<Vec<u64>>,
    count: u64,
}

impl<'a> Model for Rows<'a> {
    ghost use Rattle.std.specs.Prelude.{List, ℕ};
    ghost use Rattle.ras_rows.specs.Arrays.{holdings_in};
    ghost use Rattle.ras_rows.specs.RowsKept.{AreRowsKept, rows_named};
    ghost use Rattle.spec_expressions.specs.Database.{Member};

    ghost Value = { List (ℕ × List Member) };

    ghost view = { λ r. rows_named (holdings_in r.view.now) r.sources.now r.oids.items };

    ghost invariant = { λ r. AreRowsKept r.sources.now r.oids.items r.count };
}

impl<'a> Rows<'a> {
    /// The rows of a statement as a view shows them: the arrays of each source with the identifiers
    /// that the condition asks for, in all combinations. Where there are more than [`MAX_ROWS`], the
    /// answer is [`ShapeFault::TooManyRows`] for the whole text; they are counted and not listed.
    pub fn of(alloc: Global, checked: &'a Checked, view: &'a View) -> Result<Rows<'a>, Stop>
        ensures shown { GivesOrStops (λ rows. rows)
            (limited_rows (statement_tree_of checked.now) (rows_shown (request_of checked.now.form) (holdings_in view.now))) result }
        ensures databases { (database : Database) → IsShownBy (holdings_in view.now) (request_of checked.now.form) database
            → GivesOrStops (λ rows. rows) (until_rows (statement_tree_of checked.now) database) result }
    {
        let sources = sources(&checked.form);
        let condition = condition(&checked.form);
        let oids = identifiers(alloc, view, sources, condition)?;
        let count = count_of(oids.as_slice());
        if count > MAX_ROWS {
            return Err(Stop::Answer(Answer::Shape {
                row: 0,
                span: whole_text(checked),
                fault: ShapeFault::TooManyRows,
            }));
        }
        Ok(Rows {
            view,
            sources,
            oids,
            count,
        })
    }

    /// How many rows there are.
    pub fn len(&self) -> u64
        ensures { result ≡ length self.now }
    {
        self.count
    }

    /// Whether there is none.
    pub fn is_empty(&self) -> bool
        ensures { IsTrue result ↔ (self.now ≡ []) }
    {
        self.count == 0
    }

    /// The arrays of the row at a place, counted from 0, one for each source. The row's number is one
    /// more than its place. The error is want of memory, or stands for a set type that can't be
    /// declared.
    pub fn row(&self, alloc: Global, place: u64) -> Result<Vec<ShownArray<'a>>, AllocError>
        requires { place < length self.now }
        ensures { IfOk result (λ row. slice_get self.now place ≡ Some (place + 1, row.items)) }
    {
        row_at(
            alloc,
            self.view,
            self.sources,
            self.oids.as_slice(),
            self.count,
            place,
        )
    }
}

/// The arrays with these identifiers, one for each source. The error is want of memory, or stands for
/// a set type that can't be declared.
pub fn row_of<'a>(
    alloc: Global,
    view: &'a View,
    sources: &'a [CheckedSource],
    oids: &[u64],
) -> Result<Vec<ShownArray<'a>>, AllocError>
    ensures { IfOk result (λ row. row.items ≡ row_named (holdings_in view.now) sources.now oids.now) }
{
    let mut row = Vec::new(alloc);
    for (source, oid) in sources.iter().zip(oids) {
        row.push(ShownArray::of(view, source, *oid)?)?;
    }
    Ok(row)
}

/// The identifiers of the arrays that each source goes over.
fn identifiers(
    alloc: Global,
    view: &View,
    sources: &[CheckedSource],
    condition: Option<&TypedExpr>,
) -> Result<Vec<Vec<u64>>, AllocError>
    ensures { IfOk result (λ oids. map (λ o. o.items) oids.items
        ≡ map (identifiers_shown (holdings_in view.now) (asked_of (condition_of (option_map tree_of (option_copied condition.entry)))))
        sources.now) }
{
    let mut oids = Vec::new(alloc);
    for source in sources {
        oids.push(identifiers_of(alloc, view, source, condition)?)?;
    }
    Ok(oids)
}

/// The identifiers of the arrays that a source goes over: those of its collection that the condition
/// asks for.
fn identifiers_of(
    alloc: Global,
    view: &View,
    source: &CheckedSource,
    condition: Option<&TypedExpr>,
) -> Result<Vec<u64>, AllocError>
    ensures { IfOk result (λ oids. oids.items
        ≡ identifiers_shown (holdings_in view.now) (asked_of (condition_of (option_map tree_of (option_copied condition.entry))))
        source.now) }
{
    match view.members(&source.collection) {
        Some(info) => allowed(alloc, info.oids.as_slice(), source, condition),
        None => Ok(Vec::new(alloc)),
    }
}

/// Those of the identifiers that the condition asks for.
fn allowed(
    alloc: Global,
    oids: &[u64],
    source: &CheckedSource,
    condition: Option<&TypedExpr>,
) -> Result<Vec<u64>, AllocError>
    ensures { IfOk result (λ some. some.items
        ≡ filter (is_asked (asked_of (condition_of (option_map tree_of (option_copied condition.entry)))) source.now.iterator) oids.now) }
{
    let mut some = Vec::new(alloc);
    for oid in oids {
        if allows(condition, &source.iterator, *oid) {
            some.push(*oid)?;
        }
    }
    Ok(some)
}

/// How many rows there are, as far as they are no more than one above [`MAX_ROWS`].
fn count_of(oids: &[Vec<u64>]) -> u64
    ensures { result ≡ min (row_count oids.now) (MAX_ROWS + 1) }
{
    let mut count: u64 = 1;
    for of_source in oids {
        count = count
            .saturating_mul(of_source.len() as u64)
            .min(MAX_ROWS + 1);
    }
    count
}

/// The arrays of the row at a place.
fn row_at<'a>(
    alloc: Global,
    view: &'a View,
    sources: &'a [CheckedSource],
    oids: &[Vec<u64>],
    count: u64,
    place: u64,
) -> Result<Vec<ShownArray<'a>>, AllocError>
    requires each_source { length oids.now ≡ length sources.now }
    requires counted { count ≡ row_count oids.now }
    requires within { place < count }
    ensures { IfOk result (λ row.
        slice_get (combinations (members_named (holdings_in view.now) sources.now oids.now)) place ≡ Some row.items) }
{
    let mut row = Vec::new(alloc);
    // How many rows the sources from here on have, and which of them this is.
    let mut others = count;
    let mut rest = place;
    for (i, source) in sources.iter().enumerate() {
        let of_source = oids[i].as_slice();
        others /= of_source.len() as u64;
        let oid = of_source[(rest / others) as usize];
        rest %= others;
        row.push(ShownArray::of(view, source, oid)?)?;
    }
    Ok(row)
}
