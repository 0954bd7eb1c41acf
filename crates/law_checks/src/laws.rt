//! Laws of the check. Each is the contract of a function that does nothing.
ghost use Rattle.std.specs.Prelude.{◌≡◌, IsTrue, List, map, Ok};
ghost use Rattle.ras_syntax.specs.declared.expr.Expr.{Expr};
ghost use Rattle.ras_syntax.specs.declared.expr.Axis.{Axis};
ghost use Rattle.ras_syntax.specs.declared.statement.Statement.{Statement};
ghost use Rattle.ras_syntax.specs.declared.typed.Checked.{Checked};
ghost use Rattle.ras_syntax.specs.declared.typed.TypedExpr.{TypedExpr};
ghost use Rattle.ras_syntax.specs.declared.typed.TypedAxis.{TypedAxis};
ghost use Rattle.ras_syntax.specs.Literals.{all_fit, axis_numbers_fit, numbers_fit, statement_numbers_fit};
ghost use Rattle.spec_expressions.specs.Tree.{tree_of};
ghost use Rattle.spec_expressions.specs.Names.{Scope};
ghost use Rattle.spec_expressions.specs.Check.{checked_axes, checked_axis, checked_expr, tree_of_axes};
ghost use Rattle.spec_statements.specs.CheckStatement.{Catalog, checked_statement};
ghost use Rattle.spec_expressions.specs.WellTyped.{AreWellTypedAxes, IsWellTyped};
ghost use Rattle.spec_statements.specs.Statement.{statement_tree_of};
ghost use Rattle.law_checks.specs.Statements.{IsWellTypedRequest};

/// Each part of an expression that the check accepts has the kind that the rule of its form gives,
/// and each name in it is one that is in scope.
pub fn checked_expressions_are_well_typed()
    ensures { (e : Expr) (scope : Scope) (x : TypedExpr)
        → IsTrue (numbers_fit e) → checked_expr e scope ≡ Ok x
        → IsWellTyped scope.sources scope.variables (tree_of x) }
{}

/// The same of the positions and bounds that a target is cut by.
pub fn checked_axes_are_well_typed()
    ensures { (axes : List Axis) (scope : Scope) (xs : List TypedAxis)
        → IsTrue (all_fit (map axis_numbers_fit axes)) → checked_axes (map checked_axis axes) scope ≡ Ok xs
        → AreWellTypedAxes scope.sources scope.variables (tree_of_axes xs) }
{}

/// A statement that the check accepts names collections and types that there are, and what it
/// selects, writes or tests is well typed and of a kind that may stand there.
pub fn checked_statements_are_well_typed()
    ensures { (catalog : Catalog) (statement : Statement) (checked : Checked)
        → IsTrue (statement_numbers_fit statement.form)
        → checked_statement catalog statement ≡ Ok checked
        → IsWellTypedRequest catalog (statement_tree_of checked).request }
{}
