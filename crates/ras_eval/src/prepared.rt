//! Expressions that are prepared for a row.
ghost use Rattle.std.specs.Prelude.{◌≡◌, [], IfOk};
ghost use Rattle.ras_values.specs.Nodes.{cells_of_node};
ghost use Rattle.spec_expressions.specs.Eval.{cell_at};
ghost use Rattle.spec_expressions.specs.Tree.{tree_of};
ghost use Rattle.spec_statements.specs.Rows.{environment_of};

use crate::arrays::RowArrays;
use ras_rows::domains_of;
use ras_syntax::TypedExpr;
use ras_values::{Node, prepare};
use std::alloc::{AllocError, Global};

/// The expression prepared for a row. The error is want of memory.
#[tactic(auto, using(crate::proofs::RowPrepared::prepared_for_row))]
pub(crate) fn prepared(
    alloc: Global,
    e: &TypedExpr,
    row: &RowArrays<'_, '_>,
) -> Result<Node, AllocError>
    ensures { IfOk result (λ node. cells_of_node node row.now.arrays.now [] ≡ cell_at (environment_of row.now.arrays.now) (tree_of e.now)) }
{
    let domains = domains_of(alloc, row.arrays)?;
    let node = prepare(alloc, e, row, domains.as_slice())?;
    Ok(node.into_inner())
}
