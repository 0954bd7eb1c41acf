//! What a workload says and what a statement answers, as trees and lists.
#![tactic(auto)]

mod answer;
mod cell_list;
mod event;
mod expr;
mod faults;
mod limits;
mod row_list;
mod span;
mod statement;
#[cfg(test)]
mod tests;
mod typed;
mod types;
pub mod worked_limits;

pub use answer::{Answer, RowValue};
pub use cell_list::CellList;
pub use event::Event;
pub use expr::{Axis, CellsFold, DomainExpr, Expr, ExprForm, FoldOp, Part};
pub use faults::{CheckFault, ShapeFault, SyntaxFault};
pub use limits::{
    MAX_FIRST_IDENTIFIER, MAX_IDENTIFIER, MAX_LOCKS, MAX_REPLY_CELLS, MAX_RETRIES, MAX_ROWS,
    MAX_SESSIONS, MAX_STATEMENTS, MAX_STORED_NUMBERS, MAX_TILES, MAX_TYPES, MAX_WEIGHT,
};
pub use row_list::RowList;
pub use span::{Span, Spanned};
pub use statement::{SourceName, Statement, StatementForm, Word};
pub use typed::{
    Checked, CheckedForm, CheckedSource, Kind, TypedAxis, TypedDomain, TypedExpr, TypedForm,
};
pub use types::{Script, SetType, Types};
