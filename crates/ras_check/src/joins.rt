//! What an expression is, made of what its parts are. Each function takes the outcomes of the parts and applies the
//! rule of its form; the first error of the parts, in the order of the text, comes before the rule's own.
ghost use Rattle.std.specs.Prelude.{◌≡◌, ◌∷◌, [], ◌++◌, map, Ok, Some, true};
ghost use Rattle.ras_cells.specs.declared.cell.CellType.TheVariants as types;
ghost use Rattle.ras_syntax.specs.declared.typed.Kind.TheVariants as kind;
ghost use Rattle.ras_syntax.specs.declared.typed.TypedForm.TheVariants as typed;
ghost use Rattle.ras_syntax.specs.declared.typed.TypedAxis.TheVariants as taxis;
ghost use Rattle.spec_expressions.specs.Tree.{tree_of};
ghost use Rattle.spec_expressions.specs.Kinds as kinds;
ghost use Rattle.spec_expressions.specs.Check as rules;
ghost use Rattle.spec_expressions.specs.Check.{kind_of, kinds_of, tree_of_axes, typed_of};
ghost use Rattle.ras_check.specs.Walk.{checked_component};
ghost use Rattle.ras_catalog.specs.Outcome.{IsChecked, Joins, JoinsTwo, JoinsThree, JoinsFour, read_of_part};

use ras_catalog::CheckError;
use ras_cells::{Atom, CellType, MAX_COMPONENTS, Op1, Op2};
use ras_domain::List;
use ras_kinds::{CheckedDomain, RuleFault};
use ras_syntax::{
    CellsFold, CheckFault, CheckedSource, FoldOp, Kind, Part, Span, Spanned, TypedAxis, TypedExpr,
    TypedForm,
};
use sqlite_items::Boxed;
use std::alloc::Global;

/// An expression with its kind, or an error.
pub(crate) type Outcome = Result<Boxed<TypedExpr>, CheckError>;

/// The expression of this span and form, where its rule gives a kind.
pub(crate) fn typed(
    alloc: Global,
    span: Span,
    form: TypedForm,
    rule: Result<Kind, CheckFault>,
) -> Outcome
    ensures { IsChecked (typed_of span form rule) result }
{
    match rule {
        Ok(kind) => Ok(Boxed::new(alloc, TypedExpr { span, kind, form })?),
        Err(fault) => Err(CheckError::Fault { span, fault }),
    }
}

/// A number that is written.
pub(crate) fn number(alloc: Global, span: Span, value: &i64, atom: Atom) -> Outcome
    ensures { IsChecked (typed_of span (typed.Number value.now atom) (Ok (kind.Scalar (types.Atom atom)))) result }
{
    let form = TypedForm::Number {
        value: *value,
        atom,
    };
    typed(alloc, span, form, Ok(Kind::Scalar(CellType::Atom(atom))))
}

/// An operator of one operand.
pub(crate) fn unary(alloc: Global, span: Span, op: Op1, e: Outcome) -> Outcome
    ensures { Joins (λ x. typed_of span (typed.Unary op x) (kinds.unary_kind op (kind_of x))) e result }
{
    let e = e?;
    let rule = ras_kinds::unary_kind(op, &e.get().kind);
    typed(alloc, span, TypedForm::Unary { op, e }, rule)
}

/// A cast.
pub(crate) fn cast(alloc: Global, span: Span, to: Atom, e: Outcome) -> Outcome
    ensures { Joins (λ x. typed_of span (typed.Cast to x) (kinds.cast_kind to (kind_of x))) e result }
{
    let e = e?;
    let rule = ras_kinds::cast_kind(to, &e.get().kind);
    typed(alloc, span, TypedForm::Cast { to, e }, rule)
}

/// An operator of two operands.
pub(crate) fn binary(alloc: Global, span: Span, op: Op2, a: Outcome, b: Outcome) -> Outcome
    ensures { JoinsTwo (λ x y. typed_of span (typed.Binary op x y) (kinds.binary_kind op (kind_of x) (kind_of y))) a b result }
{
    let a = a?;
    let b = b?;
    let rule = ras_kinds::binary_kind(op, &a.get().kind, &b.get().kind);
    typed(alloc, span, TypedForm::Binary { op, a, b }, rule)
}

/// An index.
pub(crate) fn index(
    alloc: Global,
    span: Span,
    e: Outcome,
    axes: Result<List<TypedAxis>, CheckError>,
) -> Outcome
    ensures { JoinsTwo (λ x xs. typed_of span (typed.Index x xs) (rules.index_kind (tree_of x) (tree_of_axes xs))) e axes result }
{
    let e = e?;
    let axes = axes?;
    let rule = ras_kinds::index_kind(e.get(), axes.as_slice());
    typed(alloc, span, TypedForm::Index { e, axes }, rule)
}

/// A component, or a bound of an interval.
pub(crate) fn component(
    alloc: Global,
    span: Span,
    sources: &[CheckedSource],
    e: Outcome,
    part: &Part,
) -> Outcome
    ensures { Joins (checked_component sources.now part.now span) e result }
{
    let e = e?;
    match ras_kinds::part_kind(alloc, sources, e.get(), part) {
        Ok((kind, part)) => typed(alloc, span, TypedForm::Part { e, part }, Ok(kind)),
        Err(RuleFault::Fault(fault)) => Err(CheckError::Fault { span, fault }),
        Err(RuleFault::Memory) => Err(CheckError::Memory),
    }
}

/// A case.
pub(crate) fn case(
    alloc: Global,
    span: Span,
    arms: Result<List<(TypedExpr, TypedExpr)>, CheckError>,
    other: Outcome,
) -> Outcome
    ensures { JoinsTwo
        (λ xs x. typed_of span (typed.Case xs x)
        (rules.choice_kind (map (λ arm. kind_of arm.0) xs) (map (λ arm. kind_of arm.1) xs ++ kind_of x ∷ [])))
        arms other result }
{
    let arms = arms?;
    let other = other?;
    let rule = ras_kinds::choice_kind(arms.as_slice(), other.get());
    typed(alloc, span, TypedForm::Case { arms, other }, rule)
}

/// A composite cell of its components. No cell has more than [`MAX_COMPONENTS`], and no text has such an
/// expression, so more of them have no kind that fits into memory.
pub(crate) fn build(
    alloc: Global,
    span: Span,
    parts: Result<List<TypedExpr>, CheckError>,
) -> Outcome
    ensures { Joins (λ xs. typed_of span (typed.Build xs) (kinds.composite_kind (kinds_of xs))) parts result }
{
    let parts = parts?;
    if parts.as_slice().len() > MAX_COMPONENTS {
        return Err(CheckError::Memory);
    }
    let rule = ras_kinds::composite_kind(parts.as_slice());
    typed(alloc, span, TypedForm::Build(parts), rule)
}

/// An array made over a domain.
pub(crate) fn marray(
    alloc: Global,
    span: Span,
    domain: Result<CheckedDomain, CheckError>,
    e: Outcome,
    x: Result<Spanned, CheckError>,
) -> Outcome
    ensures { JoinsThree
        (λ on inner new. typed_of span (typed.Marray new on.domain inner)
        (rules.array_over on true (kinds.scalar_cell (kind_of inner))))
        domain e x result }
{
    let domain = domain?;
    let e = e?;
    let x = x?;
    let rule = ras_kinds::marray_kind(&domain, &e.get().kind);
    let domain = domain.into_domain();
    typed(alloc, span, TypedForm::Marray { x, domain, e }, rule)
}

/// A scalar made over a domain.
pub(crate) fn condense(
    alloc: Global,
    span: Span,
    op: FoldOp,
    domain: Result<CheckedDomain, CheckError>,
    cond: Result<Option<Boxed<TypedExpr>>, CheckError>,
    e: Outcome,
    x: Result<Spanned, CheckError>,
) -> Outcome
    ensures { JoinsFour
        (λ on test inner new. typed_of span (typed.Condense op new on.domain test inner)
        (rules.condense_kind op on test (kind_of inner)))
        domain cond e x result }
{
    let domain = domain?;
    let cond = cond?;
    let e = e?;
    let x = x?;
    let rule = ras_kinds::condense_kind(op, &domain, &cond, &e.get().kind);
    let domain = domain.into_domain();
    typed(
        alloc,
        span,
        TypedForm::Condense {
            op,
            x,
            domain,
            cond,
            e,
        },
        rule,
    )
}

/// A fold over all cells.
pub(crate) fn cells(alloc: Global, span: Span, f: CellsFold, e: Outcome) -> Outcome
    ensures { Joins (λ x. typed_of span (typed.Cells f x) (kinds.folded_kind f (kind_of x))) e result }
{
    let e = e?;
    let rule = ras_kinds::folded_kind(f, &e.get().kind);
    typed(alloc, span, TypedForm::Cells { f, e }, rule)
}

/// A shift.
pub(crate) fn shift(
    alloc: Global,
    span: Span,
    e: Outcome,
    offsets: Result<List<TypedExpr>, CheckError>,
) -> Outcome
    ensures { JoinsTwo (λ x xs. typed_of span (typed.Shift x xs) (rules.shift_kind (kind_of x) xs)) e offsets result }
{
    let e = e?;
    let offsets = offsets?;
    let rule = ras_kinds::shift_kind(&e.get().kind, offsets.as_slice());
    typed(alloc, span, TypedForm::Shift { e, offsets }, rule)
}

/// An extension to a domain.
pub(crate) fn extend(
    alloc: Global,
    span: Span,
    e: Outcome,
    domain: Result<CheckedDomain, CheckError>,
) -> Outcome
    ensures { JoinsTwo (λ x on. typed_of span (typed.Extend x on.domain) (rules.extend_kind (kind_of x) on)) e domain result }
{
    let e = e?;
    let domain = domain?;
    let rule = ras_kinds::extend_kind(&e.get().kind, &domain);
    let domain = domain.into_domain();
    typed(alloc, span, TypedForm::Extend { e, domain }, rule)
}

/// A concatenation.
pub(crate) fn concat(
    alloc: Global,
    span: Span,
    parts: Result<List<TypedExpr>, CheckError>,
    along: &i64,
) -> Outcome
    ensures { Joins (λ xs. typed_of span (typed.Concat xs along.now) (rules.concat_kind along.now (kinds_of xs))) parts result }
{
    let parts = parts?;
    let rule = ras_kinds::concat_kind(along, parts.as_slice());
    typed(
        alloc,
        span,
        TypedForm::Concat {
            parts,
            along: *along,
        },
        rule,
    )
}

/// The domain of an array.
pub(crate) fn sdom(alloc: Global, span: Span, e: Outcome) -> Outcome
    ensures { Joins (λ x. typed_of span (typed.Sdom x) (rules.sdom_kind (kind_of x))) e result }
{
    let e = e?;
    let rule = ras_kinds::sdom_kind(&e.get().kind);
    typed(alloc, span, TypedForm::Sdom(e), rule)
}

/// A domain whose bounds are written. One with more axes than can be counted doesn't fit into memory.
pub(crate) fn literal(
    pairs: Result<List<(TypedExpr, TypedExpr)>, CheckError>,
) -> Result<CheckedDomain, CheckError>
    ensures { Joins (λ xs. Ok (rules.literal_domain xs)) pairs result }
{
    let pairs = pairs?;
    if u32::try_from(pairs.as_slice().len()).is_err() {
        return Err(CheckError::Memory);
    }
    Ok(ras_kinds::literal_domain(pairs))
}

/// The domain of an expression.
pub(crate) fn like(e: Outcome) -> Result<CheckedDomain, CheckError>
    ensures { Joins (λ x. rules.like_domain x (kind_of x)) e result }
{
    let e = e?;
    match ras_kinds::like_domain(e) {
        Ok(domain) => Ok(domain),
        Err((span, fault)) => Err(CheckError::Fault { span, fault }),
    }
}

/// How many axes a domain has.
pub(crate) fn axes_in(domain: &Result<CheckedDomain, CheckError>) -> Result<u32, CheckError>
    ensures { result ≡ read_of_part (λ on. on.axes) domain.now }
{
    match domain {
        Ok(domain) => Ok(domain.axes()),
        Err(error) => Err(*error),
    }
}

/// A position on an axis.
pub(crate) fn position(e: Outcome) -> Result<TypedAxis, CheckError>
    ensures { Joins (λ x. Ok (taxis.At x)) e result }
{
    let e = e?;
    Ok(TypedAxis::At(e.into_inner()))
}

/// An expression that may be missing.
pub(crate) fn given(e: Outcome) -> Result<Option<Boxed<TypedExpr>>, CheckError>
    ensures { Joins (λ x. Ok (Some x)) e result }
{
    let e = e?;
    Ok(Some(e))
}

/// What is in the box.
pub(crate) fn unboxed(e: Option<Boxed<TypedExpr>>) -> Option<TypedExpr>
    ensures { result ≡ e }
{
    match e {
        None => None,
        Some(e) => Some(e.into_inner()),
    }
}

/// The bounds of an axis.
pub(crate) fn trim(
    a: Result<Option<Boxed<TypedExpr>>, CheckError>,
    b: Result<Option<Boxed<TypedExpr>>, CheckError>,
) -> Result<TypedAxis, CheckError>
    ensures { JoinsTwo (λ x y. Ok (taxis.Trim x y)) a b result }
{
    let a = a?;
    let b = b?;
    Ok(TypedAxis::Trim(unboxed(a), unboxed(b)))
}

/// Two expressions.
pub(crate) fn both(a: Outcome, b: Outcome) -> Result<(TypedExpr, TypedExpr), CheckError>
    ensures { JoinsTwo (λ x y. Ok (x, y)) a b result }
{
    let a = a?;
    let b = b?;
    Ok((a.into_inner(), b.into_inner()))
}
