//! The public calls, over each database for which a view stands.
ghost use Rattle.std.specs.Prelude.{◌≡◌, List, Ok, Err};
ghost use Rattle.ras_eval.specs.Seen.{IsComputedAs, IsSeenOne, too_many_locks};
ghost use Rattle.ras_rows.specs.Arrays.{holdings_in};
ghost use Rattle.ras_rows.specs.Stops.{GivesOrStops};
ghost use Rattle.ras_syntax.specs.declared.statement.Statement.{Statement};
ghost use Rattle.ras_syntax.specs.declared.types.SetType.{SetType};
ghost use Rattle.spec_expressions.specs.Database.{Database};
ghost use Rattle.spec_statements.specs.Machine.{reply_of};
ghost use Rattle.spec_statements.specs.Statement.{statement_tree_of};
ghost use Rattle.spec_views.specs.Holdings.{IsSeenBy, passing_by};

use crate::evaluation::compute;
use crate::passing::rows_that_pass;
use ras_edges::Gate;
use ras_rows::Stop as EvalFault;
use ras_store::{Computed, RowSet, View};
use ras_syntax::Checked;
use std::alloc::Global;
use std::thread::Threads;

/// The rows that pass a statement's condition over a view that holds its first three lists, by their
/// numbers and the identifiers of their arrays: those of each database for which the view stands. One
/// worker serves, whatever their number. The answer is that of the statement's steps up to its condition;
/// it isn't said where one of these lists is too long.
pub fn passing_rows<Rt: Threads + Sync, G: Gate>(
    _rt: &Rt,
    alloc: Global,
    checked: &Checked,
    view: &View,
    _workers: u32,
    _gate: &G,
) -> Result<RowSet, EvalFault>
    ensures { (types : List SetType) (statement : Statement) (one other : Database)
        → IsSeenOne types statement (holdings_in view.now) checked.now 4 one
        → (passing_by (statement_tree_of checked.now) one ≡ Err (too_many_locks (statement_tree_of checked.now)) → ⊥)
        → IsSeenBy types (holdings_in view.now) statement 4 other
        → GivesOrStops (λ set. set) (passing_by (statement_tree_of checked.now) other) result }
{
    rows_that_pass(alloc, checked, view)
}

/// What a statement comes to over a view that holds all its lists, in the rows that pass: the rows of its
/// answer, or what it writes, as over each database for which the view stands. One worker serves,
/// whatever their number. The answer is the statement's; it isn't said where a list of locks is too long.
pub fn evaluate<Rt: Threads + Sync, G: Gate>(
    _rt: &Rt,
    alloc: Global,
    checked: &Checked,
    view: &View,
    rows: &RowSet,
    _workers: u32,
    _gate: &G,
) -> Result<Computed, EvalFault>
    ensures { (types : List SetType) (statement : Statement) (one other : Database)
        → IsSeenOne types statement (holdings_in view.now) checked.now 5 one
        → (reply_of types statement one ≡ too_many_locks (statement_tree_of checked.now) → ⊥)
        → IsSeenBy types (holdings_in view.now) statement 5 other
        → passing_by (statement_tree_of checked.now) other ≡ Ok rows.now
        → IsComputedAs types statement checked.now other result }
{
    compute(alloc, checked, view, rows)
}
