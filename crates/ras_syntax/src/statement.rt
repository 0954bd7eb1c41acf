use crate::expr::{Axis, Expr};
use crate::span::{Span, Spanned};
use ras_domain::List;

/// A statement as it is written.
#[derive(Drop)]
pub struct Statement {
    pub form: StatementForm,
    /// The length of its text in bytes.
    pub length: u32,
}

/// The forms of statements.
#[derive(Drop)]
pub enum StatementForm {
    /// `select body from sources where cond`
    Select {
        body: Expr,
        sources: List<SourceName>,
        cond: Option<Expr>,
    },
    /// `insert into into values body`
    Insert {
        into: Spanned,
        body: Expr,
    },
    /// `delete from source where cond`
    Delete {
        source: SourceName,
        cond: Option<Expr>,
    },
    /// `update source set set[axes] assign body where cond`
    Update {
        source: SourceName,
        /// The name after `set`.
        set: Spanned,
        axes: Option<List<Axis>>,
        /// The name after `set` with its axes.
        target: Span,
        body: Expr,
        cond: Option<Expr>,
    },
    /// `create collection name of`
    Create {
        name: Spanned,
        of: Spanned,
    },
    /// `drop collection name`
    Drop {
        name: Spanned,
    },
    /// A session word.
    Word(Word),
}

/// A collection that a statement goes over, and the iterator that `as` names; without `as` the
/// iterator has the collection's name.
#[derive(Debug, Drop)]
pub struct SourceName {
    pub collection: Spanned,
    pub iterator: Option<Spanned>,
}

/// A session word.
#[derive(Clone, Copy, Debug, PartialEq, Eq)]
pub enum Word {
    /// `begin`, or `begin retry n`; 0 stands for a plain `begin`.
    Begin { retry: u32 },
    /// `commit`, or `commit anyway`.
    Commit { anyway: bool },
    /// `abort`
    Abort,
}
