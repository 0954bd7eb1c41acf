//! The shape of a checked expression, and the cuts of an index.
ghost use Rattle.std.specs.Prelude.{map};
ghost use Rattle.ras_shape.specs.Cuts.{cut_found};
ghost use Rattle.ras_shape.specs.Gives.{GivesAs, GivesShape};
ghost use Rattle.spec_expressions.specs.Check.{tree_of_axes};
ghost use Rattle.spec_expressions.specs.Tree.{tree_of};
ghost use Rattle.spec_expressions.specs.Shape.{cuts_of, shape_of};

use crate::cuts::Cut;
use crate::form::{Form, ShapeError};
use crate::look::form_of;
use crate::walk::{see, see_cuts};
use ras_domain::{Interval, Region};
use ras_syntax::{TypedAxis, TypedExpr};
use std::alloc::Global;

/// The shape of an expression over the domains of its iterators' arrays, one for each source of the
/// statement, in order. It reads no cell.
///
/// The error is the first shape fault in the order of the text, parts before the whole, with the span
/// of the part that has it, or [`ShapeError::Memory`]. A tree that no check gives may have a domain
/// that is no [`Region`], such as one with seven axes; then the error may be `Memory` too.
pub fn shape(alloc: Global, e: &TypedExpr, domains: &[Region]) -> Result<Form, ShapeError>
    ensures { GivesShape (shape_of domains.now (tree_of e.now)) result }
{
    form_of(see(alloc, e, domains))
}

/// What each axis of an index does to the axis of an array at its place, over the domains of the
/// iterators' arrays. A bound that isn't written is the array's own. Axes of the index that the array
/// hasn't are left out. Whether the cuts lie within the array is not looked at.
///
/// The error is the first shape fault of a position or a bound, or [`ShapeError::Memory`].
pub fn index_cuts(
    alloc: Global,
    index: &[TypedAxis],
    axes: &[Interval],
    domains: &[Region],
) -> Result<Vec<Cut>, ShapeError>
    ensures { GivesAs (λ cuts. map cut_found cuts.items) (cuts_of domains.now (tree_of_axes index.now) axes.now) result }
{
    see_cuts(alloc, index, axes, domains)
}
