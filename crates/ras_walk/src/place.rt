use ras_outcome::SessionAnswer;
use ras_syntax::{SyntaxFault, Word};

/// What comes next in a script.
#[derive(Clone, Copy, Debug, PartialEq, Eq)]
pub enum Item {
    /// Nothing: the script is through.
    End,
    /// A text that is no statement.
    Fault(SyntaxFault),
    /// A session word.
    Word(Word),
    /// A data statement.
    Data,
}

/// A transaction that a word began.
#[derive(Clone, Copy, Debug, PartialEq, Eq)]
pub struct Opened {
    /// Its number, counted from 1.
    pub t: u32,
    /// The number of the statement that began it, counted from 1.
    pub from: u32,
    /// How often it may be tried again.
    pub attempts: u32,
    /// The number of its first bad statement, if it has one.
    pub bad: Option<u32>,
}

/// How the statement of a transaction of its own was closed.
#[derive(Clone, Copy, Debug, PartialEq, Eq)]
pub enum Closed {
    /// By an answer that is no fault.
    Success,
    /// By a fault, or by a refusal.
    Failure,
    /// It was given up.
    GivenUp,
}

/// Where a session is.
#[derive(Clone, Copy, Debug, PartialEq, Eq)]
pub enum Place {
    /// No transaction lives. After going back to a `begin`, this many attempts are left in place of those
    /// that are written there.
    Free { attempts: Option<u32> },
    /// A `begin` found no memory.
    Lost,
    /// In a transaction that a word began. Its next statement was granted locks, or not.
    Inside { opened: Opened, granted: bool },
    /// The same, which has to abort, since a statement of it was refused and it may be tried again.
    Leaving { opened: Opened },
    /// In a data statement's own transaction. It was granted locks, or not.
    Own { t: u32, granted: bool },
    /// The same, whose statement is closed.
    Ending { t: u32, closed: Closed },
}

/// What an event tells a session's walk.
#[derive(Clone, Copy, Debug, PartialEq, Eq)]
pub enum Happened {
    /// A transaction of this number began.
    Begun { t: u32 },
    /// The statement was granted the locks of a phase.
    Granted,
    /// The statement was refused.
    Refused,
    /// The statement was answered, by no fault or by one.
    Answered { good: bool },
    /// The statement was given up.
    GaveUp,
    /// The transaction was the commit of this number.
    Committed { n: u32 },
    /// The transaction was aborted.
    Aborted,
}

/// A step of a walk: the answer of its line, if it has one, and what comes then.
#[derive(Clone, Copy, Debug, PartialEq, Eq)]
pub struct Step {
    pub answer: Option<SessionAnswer>,
    /// The number of the next statement, counted from 1.
    pub next: u32,
    pub place: Place,
}
