//! The identifiers that a condition asks for.
ghost use Rattle.std.specs.Prelude.{◌≡◌, pos, option_map};
ghost use Rattle.std.specs.Option.{option_copied};
ghost use Rattle.std.specs.Ordering.{int_eq};
ghost use Rattle.ras_rows.specs.Asked.{is_allowed_by_equation as is_allowed_equation};
ghost use Rattle.ras_rows.specs.Asked.{is_oid_of as is_oid_tree, is_other_number as is_other_tree};
ghost use Rattle.spec_expressions.specs.Tree.{condition_of, tree_of};
ghost use Rattle.spec_statements.specs.Rows.{asked_by, asked_of, is_asked};

use ras_cells::Op2;
use ras_domain::Name;
use ras_syntax::{TypedExpr, TypedForm};

/// Whether an array with this identifier is among those that a condition asks for: each of its
/// conjuncts `oid(a) = n` or `n = oid(a)` on the iterator has this number. Conjuncts are reached
/// through `and` alone.
pub(crate) fn allows(condition: Option<&TypedExpr>, iterator: &Name, oid: u64) -> bool
    ensures { result ≡ is_asked (asked_of (condition_of (option_map tree_of (option_copied condition.entry)))) iterator.now oid }
{
    match condition {
        Some(e) => is_allowed(e, iterator, oid),
        None => true,
    }
}

/// The same of one expression.
#[tactic(auto, using(crate::proofs::Conjuncts::others))]
fn is_allowed(e: &TypedExpr, iterator: &Name, oid: u64) -> bool
    ensures { result ≡ is_asked (asked_by (tree_of e.now)) iterator.now oid }
{
    match &e.form {
        TypedForm::Binary { op, a, b } => match op {
            Op2::And => is_allowed(a.get(), iterator, oid) && is_allowed(b.get(), iterator, oid),
            Op2::Eq => is_allowed_by_equation(a.get(), b.get(), iterator, oid),
            Op2::Add
            | Op2::Sub
            | Op2::Mul
            | Op2::Div
            | Op2::Mod
            | Op2::Ne
            | Op2::Lt
            | Op2::Le
            | Op2::Gt
            | Op2::Ge
            | Op2::Or
            | Op2::Xor
            | Op2::Bit
            | Op2::Overlay => true,
        },
        TypedForm::Index { e: _, axes: _ } => true,
        TypedForm::Part { e: _, part: _ } => true,
        TypedForm::Bool(_)
        | TypedForm::Number { value: _, atom: _ }
        | TypedForm::Iterator { name: _, place: _ }
        | TypedForm::Variable(_)
        | TypedForm::Unary { op: _, e: _ }
        | TypedForm::Cast { to: _, e: _ }
        | TypedForm::Case { arms: _, other: _ }
        | TypedForm::Build(_)
        | TypedForm::Marray {
            x: _,
            domain: _,
            e: _,
        }
        | TypedForm::Condense {
            op: _,
            x: _,
            domain: _,
            cond: _,
            e: _,
        }
        | TypedForm::Cells { f: _, e: _ }
        | TypedForm::Shift { e: _, offsets: _ }
        | TypedForm::Extend { e: _, domain: _ }
        | TypedForm::Concat { parts: _, along: _ }
        | TypedForm::Sdom(_)
        | TypedForm::Oid(_) => true,
    }
}

/// Whether an equation doesn't ask for another identifier of the iterator's array.
fn is_allowed_by_equation(a: &TypedExpr, b: &TypedExpr, iterator: &Name, oid: u64) -> bool
    ensures { result ≡ is_allowed_equation iterator.now oid (tree_of a.now) (tree_of b.now) }
{
    let first = is_oid_of(a, iterator) && is_other_number(b, oid);
    let second = is_oid_of(b, iterator) && is_other_number(a, oid);
    !first && !second
}

/// Whether the expression is the identifier of the iterator's array.
fn is_oid_of(e: &TypedExpr, iterator: &Name) -> bool
    ensures { result ≡ is_oid_tree iterator.now (tree_of e.now) }
{
    match &e.form {
        TypedForm::Oid(a) => a.name == *iterator,
        TypedForm::Index { e: _, axes: _ } => false,
        TypedForm::Part { e: _, part: _ } => false,
        TypedForm::Bool(_)
        | TypedForm::Number { value: _, atom: _ }
        | TypedForm::Iterator { name: _, place: _ }
        | TypedForm::Variable(_)
        | TypedForm::Unary { op: _, e: _ }
        | TypedForm::Cast { to: _, e: _ }
        | TypedForm::Binary { op: _, a: _, b: _ }
        | TypedForm::Case { arms: _, other: _ }
        | TypedForm::Build(_)
        | TypedForm::Marray {
            x: _,
            domain: _,
            e: _,
        }
        | TypedForm::Condense {
            op: _,
            x: _,
            domain: _,
            cond: _,
            e: _,
        }
        | TypedForm::Cells { f: _, e: _ }
        | TypedForm::Shift { e: _, offsets: _ }
        | TypedForm::Extend { e: _, domain: _ }
        | TypedForm::Concat { parts: _, along: _ }
        | TypedForm::Sdom(_) => false,
    }
}

/// Whether the expression is a number other than this identifier.
fn is_other_number(e: &TypedExpr, oid: u64) -> bool
    ensures { result ≡ is_other_tree oid (tree_of e.now) }
{
    match &e.form {
        TypedForm::Number { value, atom: _ } => !is_number(value, oid),
        TypedForm::Index { e: _, axes: _ } => false,
        TypedForm::Part { e: _, part: _ } => false,
        TypedForm::Bool(_)
        | TypedForm::Iterator { name: _, place: _ }
        | TypedForm::Variable(_)
        | TypedForm::Unary { op: _, e: _ }
        | TypedForm::Cast { to: _, e: _ }
        | TypedForm::Binary { op: _, a: _, b: _ }
        | TypedForm::Case { arms: _, other: _ }
        | TypedForm::Build(_)
        | TypedForm::Marray {
            x: _,
            domain: _,
            e: _,
        }
        | TypedForm::Condense {
            op: _,
            x: _,
            domain: _,
            cond: _,
            e: _,
        }
        | TypedForm::Cells { f: _, e: _ }
        | TypedForm::Shift { e: _, offsets: _ }
        | TypedForm::Extend { e: _, domain: _ }
        | TypedForm::Concat { parts: _, along: _ }
        | TypedForm::Sdom(_)
        | TypedForm::Oid(_) => false,
    }
}

/// Whether a number is this identifier.
fn is_number(value: &i64, oid: u64) -> bool
    ensures { result ≡ int_eq value.now (pos oid) }
{
    i128::from(*value) == i128::from(oid)
}
