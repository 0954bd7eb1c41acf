use ras_domain::LockList;
use ras_store::{Changes, Piece};
use ras_syntax::Answer;

/// What a session asks for next. Statements, sessions and transactions are named by their numbers, counted
/// from 1.
#[derive(Drop)]
pub enum Request {
    /// That a transaction begins at a statement of a session.
    Begin {
        session: u32,
        statement: u32,
    },
    /// The locks of a list, which a statement of a transaction needs in a phase.
    Ask {
        t: u32,
        statement: u32,
        phase: u8,
        list: LockList,
    },
    /// That a statement of a transaction is answered.
    Finish {
        t: u32,
        statement: u32,
        answer: Answer,
    },
    /// That a statement of a transaction is given up.
    GiveUp {
        t: u32,
        statement: u32,
    },
    /// That a transaction commits, with the changes that it made.
    Commit {
        t: u32,
        changes: Changes,
    },
    /// That a transaction aborts.
    Abort {
        t: u32,
    },
    /// Nothing: an answer line was added without the core.
    Local,
    /// Nothing more: the script is through, and no transaction of the session lives.
    Ended,
}

/// What the core gave for a request.
#[derive(Drop)]
pub enum CoreReply {
    /// The number of the transaction that began.
    Begun(u32),
    /// All locks of the list, with what the committed database has under their names.
    Granted(Piece),
    /// No lock of the list, since one of them conflicts with another transaction's.
    Refused,
    /// The statement was answered.
    Finished,
    /// The number of the commit.
    Committed(u32),
    /// The transaction was aborted.
    Aborted,
    /// There was not enough memory.
    Memory,
    /// There was nothing to give.
    Nothing,
}
