//! The database that a setup leaves.
ghost use Rattle.std.specs.Prelude.{◌≡◌, ℕ, ◌≤◌, ◌<◌, ◌^◌, [], All, length};
ghost use Rattle.law_grammar.specs.VerdictOf.{verdict_of};
ghost use Rattle.ras_setup.specs.Runs.{FindsBase, IsBase, RunsTo};
ghost use Rattle.ras_store.specs.Store.{store_kept};
ghost use Rattle.ras_syntax.specs.declared.limits.TheConstants.{MAX_IDENTIFIER, MAX_STATEMENTS};
ghost use Rattle.spec_expressions.specs.Database.{Database};
ghost use Rattle.spec_expressions.specs.SetTypes.{AreTypes};
ghost use Rattle.spec_workloads.specs.Setup.{after_verdict, set_up};

use crate::changes::changes_of;
use crate::fault::{Stop, WorkloadRefusal, refusal};
use crate::statement::statement_of;
use ras_domain::Text;
use ras_edges::Gate;
use ras_store::Store;
use ras_syntax::Types;
use std::alloc::Global;
use std::thread::Threads;

/// Runs the statement that a text is, over the database that a store keeps.
fn run<Rt: Threads + Sync, G: Gate>(
    rt: &Rt,
    alloc: Global,
    types: &Types,
    text: &[u8],
    base: &mut Store,
    workers: u32,
    gate: &G,
) -> Result<(), Stop>
    requires { length text.now < 2 ^ 32 }
    ensures { (bound : ℕ) (database : Database) → bound ≤ MAX_IDENTIFIER → IsBase types.now bound (store_kept base.old) database
        → RunsTo types.now bound (λ k. after_verdict types.now k (verdict_of text.now) database) result (store_kept base.new) }
{
    let statement = statement_of(alloc, text)?;
    let changes = changes_of(rt, alloc, types, &statement, base, workers, gate)?;
    base.reserve_for(alloc, &changes)?;
    base.apply_prepared(changes);
    Ok(())
}

/// The store that keeps the database which the statements of a setup leave, run one after another from the empty
/// one. The error is the first of them that isn't done, or want of memory.
pub(crate) fn base_of<Rt: Threads + Sync, G: Gate>(
    rt: &Rt,
    alloc: Global,
    types: &Types,
    texts: &[Text],
    workers: u32,
    gate: &G,
) -> Result<Store, WorkloadRefusal>
    requires types { AreTypes types.now }
    requires few { length texts.now ≤ MAX_STATEMENTS }
    requires short { All (λ text. length text < 2 ^ 32) texts.now }
    ensures { FindsBase types.now (set_up types.now 1 texts.now []) result }
{
    let mut base = Store::new(alloc);
    for (place, text) in texts.iter().enumerate() {
        if let Err(stop) = run(rt, alloc, types, text.bytes(), &mut base, workers, gate) {
            return Err(refusal(place as u32 + 1, stop));
        }
    }
    Ok(base)
}
