//! The list of a phase, over each database for which a view stands.
ghost use Rattle.std.specs.Prelude.{◌≡◌, ◌≤◌, List, Ok};
ghost use Rattle.ras_reach.specs.Asked.{IsAskedOne, IsNeeded, asked_at};
ghost use Rattle.ras_reach.specs.Needs.{GivesLocks};
ghost use Rattle.ras_rows.specs.Arrays.{holdings_in};
ghost use Rattle.ras_syntax.specs.declared.statement.Statement.{Statement};
ghost use Rattle.ras_syntax.specs.declared.types.SetType.{SetType};
ghost use Rattle.spec_expressions.specs.Database.{Database};
ghost use Rattle.spec_statements.specs.Statement.{statement_tree_of};
ghost use Rattle.spec_views.specs.Holdings.{IsSeenBy, passing_by};

use crate::first::NeedsFault;
use crate::phases::{body_needs, condition_needs, domain_needs};
use ras_domain::LockList;
use ras_store::{RowSet, View};
use ras_syntax::Checked;
use std::alloc::Global;

/// The locks of a checked statement's phase, from the second to the fourth, over a view that holds what the
/// phases before it asked for: those of each database for which the view stands. The rows are those that
/// pass, and are looked at in the fourth phase alone. Phases beyond it ask for nothing.
///
/// The answer is the statement's, where it comes before the phase or the list has more than
/// [`ras_syntax::MAX_LOCKS`] locks.
pub fn needs(
    alloc: Global,
    checked: &Checked,
    phase: u8,
    view: &View,
    rows: &RowSet,
) -> Result<LockList, NeedsFault>
    ensures asked { (types : List SetType) (statement : Statement) (one other : Database)
        → IsAskedOne types statement (holdings_in view.now) checked.now phase one
        → IsSeenBy types (holdings_in view.now) statement phase other
        → (phase ≡ 4 → passing_by (statement_tree_of checked.now) other ≡ Ok rows.now)
        → GivesLocks (asked_at phase (statement_tree_of checked.now) other) result }
    ensures needed { (types : List SetType) (statement : Statement) (one other : Database)
        → IsAskedOne types statement (holdings_in view.now) checked.now phase one
        → IsSeenBy types (holdings_in view.now) statement phase other
        → (phase ≡ 4 → passing_by (statement_tree_of checked.now) other ≡ Ok rows.now)
        → 2 ≤ phase → IsNeeded types statement phase other result }
{
    match phase {
        2 => domain_needs(alloc, checked, view),
        3 => condition_needs(alloc, checked, view),
        4 => body_needs(alloc, checked, view, rows),
        _ => Ok(LockList::new(alloc)),
    }
}
