//! What the check says of statements.
use ras_domain::List;
use ras_syntax::{CheckFault, Span, SyntaxFault};

/// What the check says of a statement.
#[derive(Clone, Copy, Debug, PartialEq, Eq)]
pub enum StatementCheck {
    /// Nothing is wrong with it. So it is with each session word.
    Fine,
    /// The text is no statement.
    Syntax(SyntaxFault),
    /// The statement has no type; the span is the part of the text that the fault speaks of.
    Fault { span: Span, fault: CheckFault },
}

/// What the check says of each statement of each session, in the order of a workload's scripts.
#[derive(Debug, Drop)]
pub struct Checks {
    pub sessions: List<List<StatementCheck>>,
}
