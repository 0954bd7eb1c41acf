//! What the walk knows of an expression: its shape, and its value where it is static.
ghost use Rattle.std.specs.Prelude.{◌≡◌, Ok};
ghost use Rattle.ras_shape.specs.Looks.{plain_look, form_seen, is_wide_atom, is_minus, is_sum_or_product, number_look, unary_look};
ghost use Rattle.ras_shape.specs.Looks.{both_values, one_value};

use crate::form::{Form, ShapeError};
use ras_cells::{Atom, CellFault, Op1, Op2, apply1_to_number, apply2_to_numbers};

/// The value of a static expression.
pub(crate) type Static = Result<i64, CellFault>;

/// What is known of an expression without a shape fault.
#[derive(Drop)]
pub(crate) struct Look {
    pub(crate) form: Form,
    /// Whether it is static: built of literals without a suffix, bounds of domains, unary minus,
    /// `+`, `-` and `*`.
    pub(crate) fixed: bool,
    /// Its value, if it is static.
    pub(crate) value: Static,
}

/// What is known of an expression that isn't static.
pub(crate) fn plain(form: Result<Form, ShapeError>) -> Result<Look, ShapeError>
    ensures { result ≡ plain_look form }
{
    match form {
        Ok(form) => Ok(Look {
            form,
            fixed: false,
            value: Err(CellFault::Overflow),
        }),
        Err(error) => Err(error),
    }
}

/// The form alone.
pub(crate) fn form_of(look: Result<Look, ShapeError>) -> Result<Form, ShapeError>
    ensures { result ≡ form_seen look }
{
    match look {
        Ok(look) => Ok(look.form),
        Err(error) => Err(error),
    }
}

/// A value that is known.
pub(crate) fn known(value: &i64) -> Static
    ensures { result ≡ Ok value.now }
{
    Ok(*value)
}

/// A literal.
pub(crate) fn number(value: &i64, atom: Atom) -> Look
    ensures { result ≡ number_look value.now atom }
{
    Look {
        form: Form::Scalar,
        fixed: matches!(atom, Atom::Wide),
        value: Ok(*value),
    }
}

/// An operation on one operand.
pub(crate) fn unary(op: Op1, e: Result<Look, ShapeError>) -> Result<Look, ShapeError>
    ensures { result ≡ unary_look op e }
{
    match e {
        Ok(Look { form, fixed, value }) => Ok(Look {
            form,
            fixed: matches!(op, Op1::Neg) && fixed,
            value: value_of_one(op, value),
        }),
        Err(error) => Err(error),
    }
}

fn value_of_one(op: Op1, value: Static) -> Static
    ensures { result ≡ one_value op value }
{
    match value {
        Ok(x) => apply1_to_number(op, x),
        Err(fault) => Err(fault),
    }
}

/// The value of an operation on two static operands.
pub(crate) fn value_of_two(op: Op2, a: Static, b: Static) -> Static
    ensures { result ≡ both_values op a b }
{
    match (a, b) {
        (Ok(x), Ok(y)) => apply2_to_numbers(op, x, y),
        (Err(fault), _) => Err(fault),
        (Ok(_), Err(fault)) => Err(fault),
    }
}

/// Whether an operation on static operands is static.
pub(crate) fn keeps_static(op: Op2) -> bool
    ensures { result ≡ is_sum_or_product op }
{
    matches!(op, Op2::Add | Op2::Sub | Op2::Mul)
}
