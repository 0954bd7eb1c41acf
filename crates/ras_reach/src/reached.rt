//! What an expression reads of its arrays.
ghost use Rattle.std.specs.Prelude.{◌≡◌, [], IfOk};
ghost use Rattle.spec_expressions.specs.Reach.{reach_of};
ghost use Rattle.spec_expressions.specs.Tree.{tree_of};
ghost use Rattle.ras_reach.specs.Reached.{boxes_reached};

use crate::walk::reach_into;
use ras_domain::{Interval, Region};
use ras_syntax::TypedExpr;
use std::alloc::{AllocError, Global};

/// A box in which an array is read.
#[derive(Debug, Drop)]
pub struct ReachedBox {
    /// The place of the array's iterator among the statement's sources.
    pub place: u32,
    /// An interval for each axis. One may have no number in it; then nothing is read.
    pub axes: Vec<Interval>,
}

/// The boxes that an expression reads for the result points in the box `around`, over the domains of
/// its iterators' arrays. A scalar's box has no intervals. It looks at no cell: each point at which an
/// array is read is in one of the array's boxes.
///
/// The error is want of memory. It also stands for a bound that leaves 64 bits, which no expression
/// has where its shape has no fault and the box lies in the shape's own.
pub fn reach(
    alloc: Global,
    e: &TypedExpr,
    domains: &[Region],
    around: &[Interval],
) -> Result<Vec<ReachedBox>, AllocError>
    ensures { IfOk result (λ reached. boxes_reached reached.items ≡ reach_of domains.now [] (tree_of e.now) around.now) }
{
    let mut reached = Vec::new(alloc);
    reach_into(alloc, e, domains, &[], around, &mut reached)?;
    Ok(reached)
}
