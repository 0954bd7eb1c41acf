//! The expressions of a statement, each over the statement's sources.
ghost use Rattle.std.specs.Prelude.{◌≡◌};
ghost use Rattle.spec_expressions.specs.Check.{checked_expr};
ghost use Rattle.spec_statements.specs.CheckStatement as spec;
ghost use Rattle.ras_catalog.specs.Outcome.{IsChecked};

use crate::joins::{Outcome, given};
use crate::scope::Scope;
use ras_catalog::CheckError;
use ras_domain::List;
use ras_syntax::{Axis, CheckedSource, Expr, TypedAxis, TypedExpr};
use sqlite_items::Boxed;
use std::alloc::Global;

/// A condition that was checked, if there is one.
pub(crate) type Test = Result<Option<Boxed<TypedExpr>>, CheckError>;

/// The axes of a target that were checked, if it has any.
pub(crate) type Target = Result<Option<List<TypedAxis>>, CheckError>;

/// An expression over these sources.
pub(crate) fn body_over<'a>(alloc: Global, sources: &'a [CheckedSource], body: &'a Expr) -> Outcome
    ensures { IsChecked (checked_expr body.now (spec.scope_of sources.now)) result }
{
    let mut scope = Scope::of_sources(alloc, sources)?;
    scope.walked(alloc, body)
}

/// A condition over these sources.
pub(crate) fn condition_over<'a>(
    alloc: Global,
    sources: &'a [CheckedSource],
    cond: &'a Option<Expr>,
) -> Test
    ensures { IsChecked (spec.checked_condition cond.now (spec.scope_of sources.now)) result }
{
    let Some(test) = cond else {
        return Ok(None);
    };
    let test = body_over(alloc, sources, test);
    given(test)
}

/// The axes of a target over these sources.
pub(crate) fn target_over<'a>(
    alloc: Global,
    sources: &'a [CheckedSource],
    axes: &'a Option<List<Axis>>,
) -> Target
    ensures { IsChecked (spec.checked_target axes.now (spec.scope_of sources.now)) result }
{
    let Some(axes) = axes else {
        return Ok(None);
    };
    let mut scope = Scope::of_sources(alloc, sources)?;
    let axes = scope.axes(alloc, axes.as_slice())?;
    Ok(Some(axes))
}
