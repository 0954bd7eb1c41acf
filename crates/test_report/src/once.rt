//! Whether a history may be reported.
ghost use Rattle.std.specs.Prelude.{◌≡◌, ℕ, [], true, false, filter};
ghost use Rattle.ras_report.specs.Once.{AreAnsweredOnce};
ghost use Rattle.spec_sessions.specs.Report.{answers_statement};

use ras_outcome::Outcome;
use ras_syntax::Event;

/// Whether an outcome may be reported.
pub fn may_be_reported(outcome: &Outcome) -> bool
    ensures { result ≡ true → AreAnsweredOnce outcome.now.history }
{
    are_answered_once(outcome.history.as_slice())
}

/// Whether no statement of a transaction is answered or refused by two of the events.
fn are_answered_once(history: &[Event]) -> bool
    ensures { result ≡ true → AreAnsweredOnce history.now }
{
    let mut from = history.len();
    while from > 0 {
        from -= 1;
        if is_told_by_any(&history[from], &history[from + 1..]) {
            return false;
        }
    }
    true
}

/// Whether the statement that an event answers or refuses is one of later events too.
fn is_told_by_any(event: &Event, later: &[Event]) -> bool
    ensures { result ≡ false → (t k : ℕ) → answers_statement t k event.now ≡ true → filter (answers_statement t k) later.now ≡ [] }
{
    match event {
        Event::Answered { t, statement, .. } => is_told(later, *t, *statement),
        Event::Refused { t, statement, .. } => is_told(later, *t, *statement),
        _ => false,
    }
}

fn is_told(events: &[Event], of: u32, at: u32) -> bool
    ensures { result ≡ false → filter (answers_statement of at) events.now ≡ [] }
{
    for event in events {
        if is_told_by(event, of, at) {
            return true;
        }
    }
    false
}

fn is_told_by(event: &Event, of: u32, at: u32) -> bool
    ensures { result ≡ answers_statement of at event.now }
{
    match event {
        Event::Answered { t, statement, .. } => *t == of && *statement == at,
        Event::Refused { t, statement, .. } => *t == of && *statement == at,
        _ => false,
    }
}
