use crate::expr::{CellsFold, FoldOp, Part};
use crate::span::{Span, Spanned};
use crate::types::SetType;
use ras_cells::{Atom, CellType, Op1, Op2};
use ras_domain::{List, Name};
use sqlite_items::Boxed;

/// What an expression stands for.
#[derive(Debug, PartialEq, Eq, Drop)]
pub enum Kind {
    /// One cell.
    Scalar(CellType),
    /// An array.
    Array { cell: CellType, axes: u32 },
    /// A domain.
    Domain { axes: u32 },
    /// A point, which a variable stands for.
    Point { axes: u32 },
}

/// An expression that was checked, with its kind.
#[cycle(typed_expressions)]
#[derive(Drop)]
pub struct TypedExpr {
    pub span: Span,
    pub kind: Kind,
    pub form: TypedForm,
}

/// The forms of checked expressions: those of [`crate::ExprForm`], with names told apart and
/// components by their numbers.
#[cycle(typed_expressions)]
#[derive(Drop)]
pub enum TypedForm {
    Bool(bool),
    Number {
        value: i64,
        atom: Atom,
    },
    /// An iterator, with its place among the statement's sources, counted from 0.
    Iterator {
        name: Name,
        place: u32,
    },
    /// A variable of an `marray` or a `condense`.
    Variable(Name),
    Unary {
        op: Op1,
        e: Boxed<TypedExpr>,
    },
    Cast {
        to: Atom,
        e: Boxed<TypedExpr>,
    },
    Binary {
        op: Op2,
        a: Boxed<TypedExpr>,
        b: Boxed<TypedExpr>,
    },
    Index {
        e: Boxed<TypedExpr>,
        axes: List<TypedAxis>,
    },
    /// The part has a number, except in `sdom(e)[k].lo` and `sdom(e)[k].hi`.
    Part {
        e: Boxed<TypedExpr>,
        part: Part,
    },
    Case {
        arms: List<(TypedExpr, TypedExpr)>,
        other: Boxed<TypedExpr>,
    },
    Build(List<TypedExpr>),
    Marray {
        x: Spanned,
        domain: TypedDomain,
        e: Boxed<TypedExpr>,
    },
    Condense {
        op: FoldOp,
        x: Spanned,
        domain: TypedDomain,
        cond: Option<Boxed<TypedExpr>>,
        e: Boxed<TypedExpr>,
    },
    Cells {
        f: CellsFold,
        e: Boxed<TypedExpr>,
    },
    Shift {
        e: Boxed<TypedExpr>,
        offsets: List<TypedExpr>,
    },
    Extend {
        e: Boxed<TypedExpr>,
        domain: TypedDomain,
    },
    Concat {
        parts: List<TypedExpr>,
        along: i64,
    },
    Sdom(Boxed<TypedExpr>),
    Oid(Spanned),
}

/// A domain that was checked.
#[cycle(typed_expressions)]
#[derive(Drop)]
pub enum TypedDomain {
    Literal(List<(TypedExpr, TypedExpr)>),
    /// The whole expression `sdom(e)`.
    Sdom(Boxed<TypedExpr>),
}

/// One axis of a checked index.
#[cycle(typed_expressions)]
#[derive(Drop)]
pub enum TypedAxis {
    At(TypedExpr),
    Trim(Option<TypedExpr>, Option<TypedExpr>),
}

/// A source with its type. The iterator has the collection's name where the statement has no `as`.
#[derive(Debug, Drop)]
pub struct CheckedSource {
    pub collection: Name,
    pub iterator: Name,
    pub of: SetType,
}

/// A data statement that was checked.
#[derive(Drop)]
pub struct Checked {
    pub form: CheckedForm,
    /// The length of its text in bytes.
    pub length: u32,
}

/// The forms of checked statements.
#[derive(Drop)]
pub enum CheckedForm {
    Select {
        body: TypedExpr,
        sources: List<CheckedSource>,
        cond: Option<TypedExpr>,
    },
    Insert {
        into: Name,
        of: SetType,
        body: TypedExpr,
    },
    Delete {
        source: CheckedSource,
        cond: Option<TypedExpr>,
    },
    Update {
        source: CheckedSource,
        axes: Option<List<TypedAxis>>,
        target: Span,
        body: TypedExpr,
        cond: Option<TypedExpr>,
    },
    /// The type by its place among the workload's types.
    Create {
        name: Name,
        of: u32,
    },
    Drop {
        name: Name,
    },
}
