use crate::answer::Answer;
use ras_domain::{LockList, LockName, Mode};

/// One step of a transaction. Transactions, sessions, statements and commits are numbered from 1.
#[derive(Debug, Drop)]
pub enum Event {
    /// Transaction `t` began at this statement of this session.
    Begun {
        t: u32,
        session: u32,
        statement: u32,
    },
    /// It got all locks that its statement asked for in a phase.
    Granted {
        t: u32,
        statement: u32,
        phase: u8,
        list: LockList,
    },
    /// It got none of them: `lock` is the first of the list that conflicts, and `holder` the least
    /// transaction that holds a conflicting one.
    Refused {
        t: u32,
        statement: u32,
        phase: u8,
        lock: LockName,
        mode: Mode,
        holder: u32,
    },
    /// Its statement was answered.
    Answered {
        t: u32,
        statement: u32,
        answer: Answer,
    },
    /// Its statement was given up for want of memory.
    GaveUp {
        t: u32,
        statement: u32,
    },
    /// It was the commit of this number.
    Committed {
        t: u32,
        number: u32,
    },
    /// It was aborted.
    Aborted {
        t: u32,
    },
}
