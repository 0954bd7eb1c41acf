//! Checked domains, and the kinds of forms that go over one.
ghost use Rattle.std.specs.Prelude.{◌≡◌, ◌<◌, ◌^◌, length, true};
ghost use Rattle.std.specs.List.{list_all};
ghost use Rattle.spec_expressions.specs.Kinds.{array_cell, axes_of_kind as axes_in, fold_type as fold_type_of, on_scalar, scalar_cell};
ghost use Rattle.spec_expressions.specs.Check as spec;
ghost use Rattle.spec_expressions.specs.Check.{kind_of};

use crate::cell_types::{copy_of_type, fold_type};
use crate::operators::{is_scalar_bool, is_scalar_number};
use crate::rules::by_rules;
use crate::trees::is_static;
use ras_cells::CellType;
use ras_domain::{List, MAX_AXES};
use ras_syntax::{CheckFault, FoldOp, Kind, Span, TypedDomain, TypedExpr};
use sqlite_items::Boxed;
use std::marker::Model;

/// A domain that was checked, with its number of axes. What a written domain breaks of its own is a
/// fault of the expression that it stands in, so it is kept: whether its bounds are numbers, and
/// whether they are static.
#[derive(Drop)]
pub struct CheckedDomain {
    domain: TypedDomain,
    axes: u32,
    has_numbers: bool,
    is_fixed: bool,
}

impl Model for CheckedDomain {
    ghost use Rattle.spec_expressions.specs.Check.{CheckedDomain as DomainSeen};
    ghost use Rattle.ras_syntax.specs.contracts.typed.TypedDomain as typed;
    ghost use Rattle.std.specs.Coded.{codes};

    ghost Value = { DomainSeen };

    ghost coded = { Prim.hlevel (codes, typed.the_row.coded) };

    ghost use Rattle.ras_kinds.specs.Domains.{domain_seen};

    ghost view = { λ d. domain_seen d.domain d.axes d.has_numbers d.is_fixed };
}

impl CheckedDomain {
    /// How many axes it has.
    pub fn axes(&self) -> u32
        ensures { result ≡ self.now.axes }
    {
        self.axes
    }

    /// The domain itself.
    pub fn into_domain(self) -> TypedDomain
        ensures { result ≡ self.domain }
    {
        let CheckedDomain {
            domain,
            axes: _,
            has_numbers: _,
            is_fixed: _,
        } = self;
        domain
    }

    /// Whether it has no more axes than an array may have.
    fn has_few_axes(&self) -> bool
        ensures { result ≡ spec.has_few_axes self.now }
    {
        self.axes as usize <= MAX_AXES
    }

    /// An array of such cells on the domain.
    fn array_over(&self, axes_fit: bool, cell: Option<CellType>) -> Result<Kind, CheckFault>
        ensures { result ≡ spec.array_over self.now axes_fit cell }
    {
        match cell {
            None => Err(CheckFault::TypeMismatch),
            Some(cell) => by_rules(
                self.has_numbers,
                self.has_few_axes() && axes_fit,
                self.is_fixed,
                Kind::Array {
                    cell,
                    axes: self.axes,
                },
            ),
        }
    }

    /// A scalar that is made over the domain.
    fn scalar_over(&self, cell: Option<CellType>) -> Result<Kind, CheckFault>
        ensures { result ≡ spec.scalar_over self.now cell }
    {
        match cell {
            None => Err(CheckFault::TypeMismatch),
            Some(cell) => by_rules(
                self.has_numbers,
                self.has_few_axes(),
                self.is_fixed,
                Kind::Scalar(cell),
            ),
        }
    }
}

/// Whether both bounds are numbers.
fn has_number_bounds(ends: &(TypedExpr, TypedExpr)) -> bool
    ensures { result ≡ spec.has_number_bounds ends.now }
{
    is_scalar_number(&ends.0.kind) && is_scalar_number(&ends.1.kind)
}

/// Whether both bounds are static.
fn has_static_bounds(ends: &(TypedExpr, TypedExpr)) -> bool
    ensures { result ≡ spec.has_static_bounds ends.now }
{
    is_static(&ends.0) && is_static(&ends.1)
}

/// Whether all bounds are numbers.
fn have_number_bounds(pairs: &[(TypedExpr, TypedExpr)]) -> bool
    ensures { result ≡ list_all spec.has_number_bounds pairs.now }
{
    pairs.iter().all(has_number_bounds)
}

/// Whether all bounds are static.
fn have_static_bounds(pairs: &[(TypedExpr, TypedExpr)]) -> bool
    ensures { result ≡ list_all spec.has_static_bounds pairs.now }
{
    pairs.iter().all(has_static_bounds)
}

/// The domain with these lower and upper bounds, one pair an axis.
pub fn literal_domain(pairs: List<(TypedExpr, TypedExpr)>) -> CheckedDomain
    requires { length pairs < 2 ^ 32 }
    ensures { result ≡ spec.literal_domain pairs }
{
    let axes = pairs.as_slice().len() as u32;
    let has_numbers = have_number_bounds(pairs.as_slice());
    let is_fixed = have_static_bounds(pairs.as_slice());
    CheckedDomain {
        domain: TypedDomain::Literal(pairs),
        axes,
        has_numbers,
        is_fixed,
    }
}

/// The domain `sdom(e)`, which is an expression with its own place: of what is no domain it is a
/// mismatch there.
pub fn like_domain(e: Boxed<TypedExpr>) -> Result<CheckedDomain, (Span, CheckFault)>
    ensures { result ≡ spec.like_domain e (kind_of e) }
{
    match e.get().kind {
        Kind::Domain { axes } => Ok(CheckedDomain {
            domain: TypedDomain::Sdom(e),
            axes,
            has_numbers: true,
            is_fixed: true,
        }),
        _ => Err((e.get().span, CheckFault::TypeMismatch)),
    }
}

/// The cell type of a scalar.
fn own_scalar_cell(kind: &Kind) -> Option<CellType>
    ensures { result ≡ scalar_cell kind.now }
{
    match kind {
        Kind::Scalar(cell) => Some(copy_of_type(cell)),
        _ => None,
    }
}

/// The cell type of an array.
fn own_array_cell(kind: &Kind) -> Option<CellType>
    ensures { result ≡ array_cell kind.now }
{
    match kind {
        Kind::Array { cell, axes: _ } => Some(copy_of_type(cell)),
        _ => None,
    }
}

/// The kind of an `marray` over the domain with such a body, a scalar.
pub fn marray_kind(domain: &CheckedDomain, e: &Kind) -> Result<Kind, CheckFault>
    ensures { result ≡ spec.array_over domain.now true (scalar_cell e.now) }
{
    domain.array_over(true, own_scalar_cell(e))
}

/// Whether the condition is missing, or one truth value.
fn is_test(condition: &Option<Boxed<TypedExpr>>) -> bool
    ensures { result ≡ spec.is_test condition.now }
{
    match condition {
        Some(c) => is_scalar_bool(&c.get().kind),
        None => true,
    }
}

/// The type that a fold of a scalar gives.
fn folded_type(op: FoldOp, e: &Kind) -> Option<CellType>
    ensures { result ≡ on_scalar (fold_type_of op) e.now }
{
    match e {
        Kind::Scalar(cell) => fold_type(op, cell),
        _ => None,
    }
}

/// The kind of a `condense` over the domain with such a condition and such a body, a scalar.
pub fn condense_kind(
    op: FoldOp,
    domain: &CheckedDomain,
    condition: &Option<Boxed<TypedExpr>>,
    e: &Kind,
) -> Result<Kind, CheckFault>
    ensures { result ≡ spec.condense_kind op domain.now condition.now e.now }
{
    if !is_test(condition) {
        return Err(CheckFault::TypeMismatch);
    }
    domain.scalar_over(folded_type(op, e))
}

/// The number of axes of an array, a domain or a point, and 0 of a scalar.
fn axes_of_kind(kind: &Kind) -> u32
    ensures { result ≡ axes_in kind.now }
{
    match kind {
        Kind::Scalar(_) => 0,
        Kind::Array { cell: _, axes } | Kind::Domain { axes } | Kind::Point { axes } => *axes,
    }
}

/// The kind of an array that is extended to the domain, which has as many axes.
pub fn extend_kind(e: &Kind, domain: &CheckedDomain) -> Result<Kind, CheckFault>
    ensures { result ≡ spec.extend_kind e.now domain.now }
{
    domain.array_over(domain.axes == axes_of_kind(e), own_array_cell(e))
}
