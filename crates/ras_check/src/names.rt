//! Expressions that are names.
ghost use Rattle.std.specs.Prelude.{◌≡◌, IfOk};
ghost use Rattle.spec_expressions.specs.Names.{source_named, variable_axes};
ghost use Rattle.spec_expressions.specs.Check as rules;
ghost use Rattle.ras_check.specs.Walk.{checked_oid};
ghost use Rattle.ras_catalog.specs.Outcome.{IsChecked};

use crate::joins::{Outcome, typed};
use crate::scope::Scope;
use ras_catalog::CheckError;
use ras_cells::{Atom, CellType};
use ras_domain::Name;
use ras_syntax::{CheckFault, Kind, Span, Spanned, TypedForm};
use std::alloc::{AllocError, Global};

/// A copy of a name with its place.
pub(crate) fn copy_of(alloc: Global, name: &Spanned) -> Result<Spanned, AllocError>
    ensures { IfOk result (λ copy. copy ≡ name.now) }
{
    Ok(Spanned {
        name: name.name.try_clone(alloc)?,
        span: name.span,
    })
}

impl Scope<'_> {
    /// A variable, else an iterator.
    pub(crate) fn name(&self, alloc: Global, span: Span, name: &Name) -> Outcome
        ensures { IsChecked (rules.checked_name span name.now (variable_axes self.now name.now) (source_named self.now name.now)) result }
    {
        if let Some(axes) = self.variable(name) {
            let name = name.try_clone(alloc)?;
            return typed(
                alloc,
                span,
                TypedForm::Variable(name),
                Ok(Kind::Point { axes }),
            );
        }
        let Some(place) = self.source(name) else {
            return Err(CheckError::Fault {
                span,
                fault: CheckFault::NoIterator,
            });
        };
        let name = name.try_clone(alloc)?;
        let kind = ras_kinds::iterator_kind(place.source);
        typed(
            alloc,
            span,
            TypedForm::Iterator {
                name,
                place: place.at,
            },
            Ok(kind),
        )
    }

    /// The object identifier of an iterator that no variable hides.
    pub(crate) fn oid(&self, alloc: Global, span: Span, a: &Spanned) -> Outcome
        ensures { IsChecked (checked_oid a.now span self.now) result }
    {
        if self.variable(&a.name).is_some() || self.source(&a.name).is_none() {
            return Err(CheckError::Fault {
                span: a.span,
                fault: CheckFault::NoIterator,
            });
        }
        let a = copy_of(alloc, a)?;
        typed(
            alloc,
            span,
            TypedForm::Oid(a),
            Ok(Kind::Scalar(CellType::Atom(Atom::Wide))),
        )
    }

    /// The name of a new variable, which isn't in scope.
    pub(crate) fn new_name(&self, alloc: Global, x: &Spanned) -> Result<Spanned, CheckError>
        ensures { IsChecked (rules.new_name x.now self.now) result }
    {
        if self.has(&x.name) {
            return Err(CheckError::Fault {
                span: x.span,
                fault: CheckFault::DoubleName,
            });
        }
        Ok(copy_of(alloc, x)?)
    }
}
