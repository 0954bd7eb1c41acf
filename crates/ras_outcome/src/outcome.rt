use crate::line::AnswerLine;
use ras_domain::List;
use ras_syntax::Event;
use std::marker::Model;

/// What a run gave. Contracts see it as the outcome of the definitions.
#[derive(Debug, Drop)]
pub struct Outcome {
    /// The lines of each session, in the order of the sessions and of their statements.
    pub answers: List<List<AnswerLine>>,
    /// The events, the oldest first.
    pub history: List<Event>,
}

impl Model for Outcome {
    ghost use Rattle.spec_sessions.specs.Outcomes.{OutcomeValue};

    ghost Value = { OutcomeValue };

    ghost view = { λ o. record { lines = o.answers; history = o.history } };
}
