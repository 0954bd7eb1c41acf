use crate::span::{Span, Spanned};
use ras_cells::{Atom, Op1, Op2};
use ras_domain::{List, Name};
use sqlite_items::Boxed;

/// An expression as it is written. Parentheses leave no trace but in spans.
#[cycle(expressions)]
#[derive(Drop)]
pub struct Expr {
    pub span: Span,
    pub form: ExprForm,
}

/// The forms of expressions.
#[cycle(expressions)]
#[derive(Drop)]
pub enum ExprForm {
    /// `true` or `false`.
    Bool(bool),
    /// A number with the atom that its suffix names, [`Atom::Wide`] where it has none.
    Number {
        value: i64,
        atom: Atom,
    },
    /// An iterator or a variable.
    Name(Name),
    Unary {
        op: Op1,
        e: Boxed<Expr>,
    },
    /// `(atom) e`
    Cast {
        to: Atom,
        e: Boxed<Expr>,
    },
    Binary {
        op: Op2,
        a: Boxed<Expr>,
        b: Boxed<Expr>,
    },
    /// `e[axes]`
    Index {
        e: Boxed<Expr>,
        axes: List<Axis>,
    },
    /// `e.part`
    Part {
        e: Boxed<Expr>,
        part: Part,
    },
    /// `case when c then e .. else other end`, each arm being a condition and a value.
    Case {
        arms: List<(Expr, Expr)>,
        other: Boxed<Expr>,
    },
    /// `{e, ..}`
    Build(List<Expr>),
    /// `marray x in domain values e`
    Marray {
        x: Spanned,
        domain: DomainExpr,
        e: Boxed<Expr>,
    },
    /// `condense op over x in domain where cond using e`
    Condense {
        op: FoldOp,
        x: Spanned,
        domain: DomainExpr,
        cond: Option<Boxed<Expr>>,
        e: Boxed<Expr>,
    },
    /// `f_cells(e)`
    Cells {
        f: CellsFold,
        e: Boxed<Expr>,
    },
    /// `shift(e, [offsets])`
    Shift {
        e: Boxed<Expr>,
        offsets: List<Expr>,
    },
    /// `extend(e, domain)`
    Extend {
        e: Boxed<Expr>,
        domain: DomainExpr,
    },
    /// `concat e with e .. along n`
    Concat {
        parts: List<Expr>,
        along: i64,
    },
    /// `sdom(e)`
    Sdom(Boxed<Expr>),
    /// `oid(a)`
    Oid(Spanned),
}

/// A domain: bounds that are written, or the domain of an expression.
#[cycle(expressions)]
#[derive(Drop)]
pub enum DomainExpr {
    /// `[lo:hi, ..]`
    Literal(List<(Expr, Expr)>),
    /// `sdom(e)`: the whole expression, of the form [`ExprForm::Sdom`], so that its place is kept.
    Sdom(Boxed<Expr>),
}

/// One axis of an index.
#[cycle(expressions)]
#[derive(Drop)]
pub enum Axis {
    /// A position, which removes the axis.
    At(Expr),
    /// Bounds, which keep it. None stands for `*`, the array's own bound.
    Trim(Option<Expr>, Option<Expr>),
}

/// A component, by its name or by its number from 0.
#[derive(Debug, Drop)]
pub enum Part {
    Named(Name),
    Numbered(i64),
}

/// What a `condense` does with the values at its points.
#[derive(Clone, Copy, Debug, PartialEq, Eq)]
pub enum FoldOp {
    Plus,
    Times,
    Min,
    Max,
    And,
    Or,
}

/// A fold over all cells of an array.
#[derive(Clone, Copy, Debug, PartialEq, Eq)]
pub enum CellsFold {
    /// `add_cells`
    Add,
    /// `min_cells`
    Min,
    /// `max_cells`
    Max,
    /// `count_cells`: how many are true.
    Count,
    /// `some_cells`
    AnyTrue,
    /// `all_cells`
    AllTrue,
}
