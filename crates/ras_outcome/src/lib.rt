//! What a run gives: the answer lines of each session, and the history of events.
#![tactic(auto)]

mod answer;
mod line;
mod outcome;

pub use answer::SessionAnswer;
pub use line::AnswerLine;
pub use outcome::Outcome;
