//! The parts of a checked statement.
ghost use Rattle.std.specs.Prelude.{◌≡◌, option_map};
ghost use Rattle.std.specs.Option.{option_copied};
ghost use Rattle.spec_expressions.specs.Tree.{condition_of, tree_of};
ghost use Rattle.spec_statements.specs.Limits.{whole_text as whole_text_of};
ghost use Rattle.spec_statements.specs.Rows.{sources_of, where_of};
ghost use Rattle.spec_statements.specs.Statement.{request_of, statement_tree_of};

use ras_syntax::{Checked, CheckedForm, CheckedSource, Span, TypedExpr};

/// The sources of a statement.
pub(crate) fn sources(form: &CheckedForm) -> &[CheckedSource]
    ensures { result.now ≡ sources_of (request_of form.now) }
{
    match form {
        CheckedForm::Select {
            body: _,
            sources,
            cond: _,
        } => sources.as_slice(),
        CheckedForm::Delete { source, cond: _ } => std::slice::from_ref(source),
        CheckedForm::Update {
            source,
            axes: _,
            target: _,
            body: _,
            cond: _,
        } => std::slice::from_ref(source),
        CheckedForm::Insert {
            into: _,
            of: _,
            body: _,
        }
        | CheckedForm::Create { name: _, of: _ }
        | CheckedForm::Drop { name: _ } => &[],
    }
}

/// The condition of a statement.
pub(crate) fn condition(form: &CheckedForm) -> Option<&TypedExpr>
    ensures { condition_of (option_map tree_of (option_copied result)) ≡ where_of (request_of form.now) }
{
    match form {
        CheckedForm::Select {
            body: _,
            sources: _,
            cond,
        }
        | CheckedForm::Delete { source: _, cond }
        | CheckedForm::Update {
            source: _,
            axes: _,
            target: _,
            body: _,
            cond,
        } => cond.as_ref(),
        CheckedForm::Insert {
            into: _,
            of: _,
            body: _,
        }
        | CheckedForm::Create { name: _, of: _ }
        | CheckedForm::Drop { name: _ } => None,
    }
}

/// The whole text of a statement.
pub(crate) fn whole_text(checked: &Checked) -> Span
    ensures { result ≡ whole_text_of (statement_tree_of checked.now) }
{
    Span {
        from: 0,
        to: checked.length,
    }
}
