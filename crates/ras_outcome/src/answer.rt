use ras_syntax::SyntaxFault;

/// What a session is told of one statement.
#[derive(Clone, Copy, Debug, PartialEq, Eq)]
pub enum SessionAnswer {
    /// The answer stands in the history, in the event that answered or refused the statement.
    Recorded,
    /// There was not enough memory.
    Memory,
    /// The text is no statement.
    Syntax(SyntaxFault),
    /// A transaction began.
    Begun,
    /// The transaction was the commit of this number, counted from 1.
    Committed { n: u32 },
    /// The transaction was aborted, because of the statement of this number, counted from 1.
    Aborted { statement: u32 },
    /// A word that ends a transaction, where none was open.
    NoTransaction,
    /// A word that begins a transaction, where one was open.
    InTransaction,
}
