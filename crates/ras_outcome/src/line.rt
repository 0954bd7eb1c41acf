use crate::answer::SessionAnswer;
use std::marker::Model;

/// A line of a session. Contracts see it as the line of the definitions.
#[derive(Debug, Drop)]
pub struct AnswerLine {
    /// The number of the statement in its session's script, counted from 1.
    pub statement: u32,
    /// The number of the transaction that it was part of, counted from 1, or 0 for none.
    pub transaction: u32,
    /// What the session is told.
    pub answer: SessionAnswer,
}

impl Model for AnswerLine {
    ghost use Rattle.spec_sessions.specs.Walk.{Line};
    ghost use Rattle.ras_outcome.specs.Replies.{line_reply_of};

    ghost Value = { Line };

    ghost view = { λ l. record { statement = l.statement; transaction = l.transaction; reply = line_reply_of l.answer } };
}
