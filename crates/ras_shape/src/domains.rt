//! Domains that are written, or taken from an array.
ghost use Rattle.std.specs.Prelude.{◌≡◌};
ghost use Rattle.std.specs.List.{list_all, zip};
ghost use Rattle.ras_domain.specs.Boxes.{is_within, lies_in};
ghost use Rattle.ras_shape.specs.Gives.{GivesAs};
ghost use Rattle.ras_shape.specs.Joins.{box_written};

use crate::cuts::{Cut, literal_axes};
use crate::form::{Form, ShapeError};
use ras_domain::Interval;
use ras_syntax::Span;
use std::alloc::Global;

/// A domain, before its bounds are looked at.
#[derive(Drop)]
pub(crate) enum Written {
    /// The cuts between the bounds, an axis each.
    Literal(Vec<Cut>),
    /// The domain of an array.
    Taken(Form),
}

/// The intervals of a domain.
pub(crate) fn axes_of(
    alloc: Global,
    span: Span,
    domain: &Written,
) -> Result<Vec<Interval>, ShapeError>
    ensures { GivesAs (λ axes. axes.items) (box_written span domain.now) result }
{
    match domain {
        Written::Literal(cuts) => literal_axes(alloc, span, cuts),
        Written::Taken(form) => Ok(Vec::from_slice(alloc, form.axes())?),
    }
}

/// Whether a box has as many intervals as another one, each within its own.
pub(crate) fn lies_within(small: &[Interval], big: &[Interval]) -> bool
    ensures { result ≡ lies_in small.now big.now }
{
    if small.len() != big.len() {
        return false;
    }
    is_each_within(small, big)
}

/// Whether each interval lies within its own.
fn is_each_within(small: &[Interval], big: &[Interval]) -> bool
    ensures { result ≡ list_all is_within (zip small.now big.now) }
{
    small
        .iter()
        .zip(big)
        .all(|(small, big)| big.lo <= small.lo && small.hi <= big.hi)
}
