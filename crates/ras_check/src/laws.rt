//! What holds of the statements that the check gives. A law is the contract of a function that does nothing.
ghost use Rattle.std.specs.Prelude.{◌≡◌, IsTrue, Ok};
ghost use Rattle.ras_syntax.specs.declared.statement.Statement.{Statement};
ghost use Rattle.ras_syntax.specs.declared.typed.Checked.{Checked};
ghost use Rattle.ras_syntax.specs.Literals.{statement_numbers_fit};
ghost use Rattle.spec_statements.specs.CheckStatement.{Catalog, checked_statement};
ghost use Rattle.spec_statements.specs.Statement.{statement_tree_of};
ghost use Rattle.law_checks.specs.Statements.{IsWellTypedRequest};
ghost use Rattle.ras_catalog.specs.Outcome.{IsChecked};

/// A statement that [`check`](crate::check) gives is well typed: it names collections and types that there are,
/// and what it selects, writes or tests is of a kind that may stand there. Its numbers fit, if those of the
/// statement do.
pub fn what_the_check_gives_is_well_typed()
    ensures { (catalog : Catalog) (statement : Statement) (checked : Checked)
        → IsTrue (statement_numbers_fit statement.form)
        → IsChecked (checked_statement catalog statement) (Ok checked)
        → IsWellTypedRequest catalog (statement_tree_of checked).request }
{}
