//! The check of a statement. Names come first in the order of the text, then expressions, then the statement's
//! own rules.
ghost use Rattle.std.specs.Prelude.{◌≡◌};
ghost use Rattle.ras_syntax.specs.declared.statement.StatementForm.TheVariants as form;
ghost use Rattle.spec_statements.specs.CheckStatement as spec;
ghost use Rattle.ras_catalog.specs.Outcome.{IsChecked, Joins, JoinsTwo, JoinsThree};
ghost use Rattle.ras_catalog.specs.CatalogView.{catalog_over};
ghost use Rattle.ras_check.specs.Statements as steps;

use crate::joins::{Outcome, unboxed};
use crate::parts::{Target, Test, body_over, condition_over, target_over};
use ras_catalog::{
    Catalog, CheckError, bool_condition, once_each, result_body, same_iterator, whole_body,
    written_axes, written_body,
};
use ras_domain::{List, Name};
use ras_syntax::{
    Axis, CheckFault, Checked, CheckedForm, CheckedSource, Expr, SetType, SourceName, Span,
    Spanned, Statement, StatementForm, Types,
};
use std::alloc::Global;
use std::slice;

/// What a form comes to, or an error.
type Form = Result<CheckedForm, CheckError>;

/// A select whose parts are checked.
fn selected(from: List<CheckedSource>, body: Outcome, cond: Test) -> Form
    ensures { JoinsTwo (steps.selected_of from) body cond result }
{
    let body = body?;
    let cond = cond?;
    result_body(body.get())?;
    bool_condition(&cond)?;
    Ok(CheckedForm::Select {
        body: body.into_inner(),
        sources: from,
        cond: unboxed(cond),
    })
}

/// An insert whose body is checked.
fn inserted(into: Name, of: SetType, body: Outcome) -> Form
    ensures { Joins (steps.inserted_of into of) body result }
{
    let body = body?;
    whole_body(&of, body.get())?;
    Ok(CheckedForm::Insert {
        into,
        of,
        body: body.into_inner(),
    })
}

/// A delete whose condition is checked.
fn deleted(source: CheckedSource, cond: Test) -> Form
    ensures { Joins (steps.deleted_of source) cond result }
{
    let cond = cond?;
    bool_condition(&cond)?;
    Ok(CheckedForm::Delete {
        source,
        cond: unboxed(cond),
    })
}

/// An update whose parts are checked.
fn updated(source: CheckedSource, target: Span, axes: Target, body: Outcome, cond: Test) -> Form
    ensures { JoinsThree (steps.updated_of source target) axes body cond result }
{
    let axes = axes?;
    let body = body?;
    let cond = cond?;
    written_axes(target, &source.of, &axes)?;
    written_body(&axes, &source.of, body.get())?;
    bool_condition(&cond)?;
    Ok(CheckedForm::Update {
        source,
        axes,
        target,
        body: body.into_inner(),
        cond: unboxed(cond),
    })
}

/// `select body from sources where cond`
fn select(
    alloc: Global,
    catalog: &Catalog<'_>,
    body: &Expr,
    sources: &[SourceName],
    cond: &Option<Expr>,
) -> Form
    ensures { IsChecked (spec.checked_form catalog.now 0 (form.Select body.now sources.now cond.now)) result }
{
    let from = catalog.known_sources(alloc, sources)?;
    once_each(alloc, sources)?;
    let body = body_over(alloc, from.as_slice(), body);
    let cond = condition_over(alloc, from.as_slice(), cond);
    selected(from, body, cond)
}

/// `insert into into values body`
fn insert(alloc: Global, catalog: &Catalog<'_>, into: &Spanned, body: &Expr) -> Form
    ensures { IsChecked (spec.checked_form catalog.now 0 (form.Insert into.now body.now)) result }
{
    let of = catalog.known_collection(alloc, into)?;
    let into = into.name.try_clone(alloc)?;
    let none = List::new(alloc);
    let body = body_over(alloc, none.as_slice(), body);
    inserted(into, of, body)
}

/// `delete from source where cond`
fn delete(alloc: Global, catalog: &Catalog<'_>, source: &SourceName, cond: &Option<Expr>) -> Form
    ensures { IsChecked (spec.checked_form catalog.now 0 (form.Delete source.now cond.now)) result }
{
    let source = catalog.known_source(alloc, source)?;
    let cond = condition_over(alloc, slice::from_ref(&source), cond);
    deleted(source, cond)
}

/// The source of an update, whose iterator `set` names.
fn updated_source(
    alloc: Global,
    catalog: &Catalog<'_>,
    source: &SourceName,
    set: &Spanned,
) -> Result<CheckedSource, CheckError>
    ensures { IsChecked (steps.updated_source catalog.now source.now set.now) result }
{
    let source = catalog.known_source(alloc, source)?;
    same_iterator(set, &source.iterator)?;
    Ok(source)
}

/// `update source set set[axes] assign body where cond`
fn update(
    alloc: Global,
    source: Result<CheckedSource, CheckError>,
    axes: &Option<List<Axis>>,
    target: Span,
    body: &Expr,
    cond: &Option<Expr>,
) -> Form
    ensures { Joins (steps.update_over axes.now target body.now cond.now) source result }
{
    let source = source?;
    let from = slice::from_ref(&source);
    let axes = target_over(alloc, from, axes);
    let body = body_over(alloc, from, body);
    let cond = condition_over(alloc, from, cond);
    updated(source, target, axes, body, cond)
}

/// `create collection name of`
fn create(alloc: Global, catalog: &Catalog<'_>, name: &Spanned, of: &Spanned) -> Form
    ensures { IsChecked (spec.checked_form catalog.now 0 (form.Create name.now of.now)) result }
{
    let name = catalog.new_collection(alloc, name)?;
    let of = catalog.known_type(of)?;
    Ok(CheckedForm::Create { name, of })
}

/// `drop collection name`
fn dropped(alloc: Global, catalog: &Catalog<'_>, name: &Spanned) -> Form
    ensures { IsChecked (spec.checked_form catalog.now 0 (form.Drop name.now)) result }
{
    catalog.has_collection(name)?;
    let name = name.name.try_clone(alloc)?;
    Ok(CheckedForm::Drop { name })
}

/// A form of a text of this length. A session word is no data statement.
fn form_of(alloc: Global, catalog: &Catalog<'_>, form: &StatementForm, length: u32) -> Form
    ensures { IsChecked (spec.checked_form catalog.now length form.now) result }
{
    match form {
        StatementForm::Select {
            body,
            sources,
            cond,
        } => select(alloc, catalog, body, sources.as_slice(), cond),
        StatementForm::Insert { into, body } => insert(alloc, catalog, into, body),
        StatementForm::Delete { source, cond } => delete(alloc, catalog, source, cond),
        StatementForm::Update {
            source,
            set,
            axes,
            target,
            body,
            cond,
        } => {
            let source = updated_source(alloc, catalog, source, set);
            update(alloc, source, axes, *target, body, cond)
        }
        StatementForm::Create { name, of } => create(alloc, catalog, name, of),
        StatementForm::Drop { name } => dropped(alloc, catalog, name),
        StatementForm::Word(_) => Err(CheckError::Fault {
            span: Span {
                from: 0,
                to: length,
            },
            fault: CheckFault::TypeMismatch,
        }),
    }
}

/// The statement with the kinds of its expressions, over these types and these collections with the places of
/// their types among them; a name without a place is of no collection.
///
/// The error is the first fault with the part of the text that it speaks of, or want of memory.
pub fn check(
    alloc: Global,
    statement: &Statement,
    types: &Types,
    collections: &[(Name, Option<u32>)],
) -> Result<Checked, CheckError>
    ensures { IsChecked (spec.checked_statement (catalog_over types.now collections.now) statement.now) result }
{
    let catalog = Catalog::of(alloc, types, collections)?;
    let form = form_of(alloc, &catalog, &statement.form, statement.length)?;
    Ok(Checked {
        form,
        length: statement.length,
    })
}
