//! The check over what is there.
ghost use Rattle.spec_expressions.specs.Database.{Database};
ghost use Rattle.spec_statements.specs.CheckStatement.{Catalog, checked_statement};
ghost use Rattle.spec_statements.specs.Machine.{checked_over, first_list};
ghost use Rattle.spec_views.specs.Holdings.{StandsFor};
ghost use Rattle.ras_catalog.specs.Outcome.{IsChecked};
ghost use Rattle.ras_rows.specs.Arrays.{holdings_in};
ghost use Rattle.ras_store.specs.Databases.{Keeps};
ghost use Rattle.ras_store.specs.Store.{store_kept};
ghost use Rattle.ras_named.specs.Places.{IsCatalogOf, named_in};

use crate::collections::Collections;
use crate::named::named;
use ras_catalog::CheckError;
use ras_check::check;
use ras_store::{Store, View};
use ras_syntax::{Checked, Statement, Types};
use std::alloc::Global;

/// The statement with the kinds of its expressions, over the collections that there are. The error is
/// the first fault with the part of the text that it speaks of, or want of memory. Only the collections
/// that the statement names are looked up.
#[tactic(auto, using(crate::proofs::ByNames::check_by_names))]
pub fn check_over<C: Collections>(
    alloc: Global,
    statement: &Statement,
    types: &Types,
    collections: &C,
) -> Result<Checked, CheckError>
    ensures { (catalog : Catalog) → IsCatalogOf types.now (C.places collections.now) (named_in statement.now.form) catalog
        → IsChecked (checked_statement catalog statement.now) result }
{
    let list = named(alloc, &statement.form, collections)?;
    check(alloc, statement, types, list.as_slice())
}

/// The same over the collections of a store.
pub fn check_in_store(
    alloc: Global,
    statement: &Statement,
    types: &Types,
    store: &Store,
) -> Result<Checked, CheckError>
    ensures { (database : Database) → Keeps types.now (store_kept store.now) database
        → IsChecked (checked_over types.now statement.now database) result }
{
    check_over(alloc, statement, types, store)
}

/// The same over the collections of a view, which has those of the statement's first list.
pub fn check_in_view(
    alloc: Global,
    statement: &Statement,
    types: &Types,
    view: &View,
) -> Result<Checked, CheckError>
    ensures { (database : Database) → StandsFor types.now (holdings_in view.now) (first_list statement.now) database
        → IsChecked (checked_over types.now statement.now database) result }
{
    check_over(alloc, statement, types, view)
}
