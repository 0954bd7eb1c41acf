//! The rules of what a statement selects, writes and tests. Each looks at a checked part by
//! reference, so that the part stays the caller's.
ghost use Rattle.std.specs.Prelude.{◌≡◌};
ghost use Rattle.spec_expressions.specs.Tree.{tree_of};
ghost use Rattle.spec_expressions.specs.Check as check;
ghost use Rattle.spec_expressions.specs.Kinds as kinds;
ghost use Rattle.spec_statements.specs.CheckStatement as spec;
ghost use Rattle.ras_kinds.specs.Seen.{is_sdom_tree};
ghost use Rattle.ras_catalog.specs.Outcome.{IsChecked, passed};

use crate::fault::CheckError;
use ras_domain::List;
use ras_kinds::{all_are_static, are_numbers, by_rules, is_scalar_bool, stores};
use ras_syntax::{CheckFault, Kind, SetType, Span, TypedAxis, TypedExpr, TypedForm};
use sqlite_items::Boxed;

/// A rule's outcome at the place of what it speaks of.
fn placed(span: Span, rule: Result<(), CheckFault>) -> Result<(), CheckError>
    ensures { IsChecked (check.placed_at span rule) result }
{
    match rule {
        Ok(()) => Ok(()),
        Err(fault) => Err(CheckError::Fault { span, fault }),
    }
}

/// Whether the expression is `sdom(e)`.
#[tactic(auto, using(crate::proofs::Passing::part_is_no_domain))]
fn is_sdom(e: &TypedExpr) -> bool
    ensures { result ≡ is_sdom_tree (tree_of e.now) }
{
    match &e.form {
        TypedForm::Sdom(_) => true,
        TypedForm::Index { e: _, axes: _ } => false,
        TypedForm::Bool(_)
        | TypedForm::Number { value: _, atom: _ }
        | TypedForm::Iterator { name: _, place: _ }
        | TypedForm::Variable(_)
        | TypedForm::Unary { op: _, e: _ }
        | TypedForm::Cast { to: _, e: _ }
        | TypedForm::Binary { op: _, a: _, b: _ }
        | TypedForm::Part { e: _, part: _ }
        | TypedForm::Case { arms: _, other: _ }
        | TypedForm::Build(_)
        | TypedForm::Marray {
            x: _,
            domain: _,
            e: _,
        }
        | TypedForm::Condense {
            op: _,
            x: _,
            domain: _,
            cond: _,
            e: _,
        }
        | TypedForm::Cells { f: _, e: _ }
        | TypedForm::Shift { e: _, offsets: _ }
        | TypedForm::Extend { e: _, domain: _ }
        | TypedForm::Concat { parts: _, along: _ }
        | TypedForm::Oid(_) => false,
    }
}

/// Whether what is of this kind has cells.
fn has_cells(kind: &Kind) -> bool
    ensures { result ≡ kinds.is_given (kinds.cell_type_in kind.now) }
{
    match kind {
        Kind::Scalar(_) | Kind::Array { cell: _, axes: _ } => true,
        Kind::Domain { axes: _ } | Kind::Point { axes: _ } => false,
    }
}

/// Whether an expression may be a result: a scalar, an array, or the domain that `sdom` gives.
fn is_result(body: &TypedExpr) -> bool
    ensures { result ≡ spec.is_result (tree_of body.now) }
{
    if has_cells(&body.kind) {
        return true;
    }
    is_sdom(body)
}

/// The body of a select may be a result, or is a mismatch of types at its own place.
pub fn result_body(body: &TypedExpr) -> Result<(), CheckError>
    ensures { IsChecked (spec.result_body body.now) (passed body.now result) }
{
    if is_result(body) {
        return Ok(());
    }
    Err(CheckError::Fault {
        span: body.span,
        fault: CheckFault::TypeMismatch,
    })
}

/// A condition is one truth value, or a mismatch of types at its own place.
pub fn bool_condition(cond: &Option<Boxed<TypedExpr>>) -> Result<(), CheckError>
    ensures { IsChecked (spec.bool_condition cond.now) (passed cond.now result) }
{
    let Some(test) = cond else {
        return Ok(());
    };
    let test = test.get();
    if is_scalar_bool(&test.kind) {
        return Ok(());
    }
    Err(CheckError::Fault {
        span: test.span,
        fault: CheckFault::TypeMismatch,
    })
}

/// Whether a kind is an array whose cells the type stores.
fn is_stored(of: &SetType, kind: &Kind) -> bool
    ensures { result ≡ spec.is_stored of.now kind.now }
{
    match kind {
        Kind::Array { cell, axes: _ } => stores(cell, &of.cell),
        Kind::Scalar(_) | Kind::Domain { axes: _ } | Kind::Point { axes: _ } => false,
    }
}

/// How many axes a kind has, none for a scalar.
fn axes_of_kind(kind: &Kind) -> u32
    ensures { result ≡ kinds.axes_of_kind kind.now }
{
    match kind {
        Kind::Scalar(_) => 0,
        Kind::Array { cell: _, axes } | Kind::Domain { axes } | Kind::Point { axes } => *axes,
    }
}

/// The body of an insert, and of an update without axes: an array that the type stores, with as
/// many axes as it has.
pub fn whole_body(of: &SetType, body: &TypedExpr) -> Result<(), CheckError>
    ensures { IsChecked (spec.whole_body of.now body.now) (passed body.now result) }
{
    let stored = is_stored(of, &body.kind);
    let axes_fit = axes_of_kind(&body.kind) as usize == of.bounds.len();
    placed(body.span, by_rules(stored, axes_fit, true, ()))
}

/// The body of an update. With axes it may have another number of axes: that it has the region's
/// domain is seen later.
pub fn written_body(
    axes: &Option<List<TypedAxis>>,
    of: &SetType,
    body: &TypedExpr,
) -> Result<(), CheckError>
    ensures { IsChecked (spec.written_body axes.now of.now body.now) (passed body.now result) }
{
    match axes {
        None => whole_body(of, body),
        Some(_) => {
            let stored = is_stored(of, &body.kind);
            placed(body.span, by_rules(stored, true, true, ()))
        }
    }
}

/// The axes of a target: as many as the type has, each a static number or a pair of them.
pub fn written_axes(
    target: Span,
    of: &SetType,
    axes: &Option<List<TypedAxis>>,
) -> Result<(), CheckError>
    ensures { IsChecked (spec.written_axes target of.now axes.now) (passed axes.now result) }
{
    let Some(axes) = axes else {
        return Ok(());
    };
    let axes = axes.as_slice();
    let numbers = are_numbers(axes);
    let axes_fit = axes.len() == of.bounds.len();
    let fixed = all_are_static(axes);
    placed(target, by_rules(numbers, axes_fit, fixed, ()))
}
