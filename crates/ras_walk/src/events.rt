//! What comes of an event, by the place.
ghost use Rattle.std.specs.Prelude.{◌≡◌, ◌<◌, false, if◌then◌else◌};
ghost use Rattle.ras_outcome.specs.Replies.{line_reply_of};
ghost use Rattle.spec_sessions.specs.Walk as spec;
ghost use Rattle.ras_walk.specs.Places.{after_of, closed_seen, event_of, item_seen, opened_seen, session_place_of};

use crate::place::{Closed, Happened, Item, Opened, Place, Step};
use ras_outcome::SessionAnswer;
use ras_syntax::Word;

/// A step with a line, behind the statement.
pub(crate) fn told(k: u32, answer: SessionAnswer, place: Place) -> Option<Step>
    requires { k < u32.MAX }
    ensures { after_of result ≡ spec.told k (line_reply_of answer) (session_place_of place) }
{
    Some(Step {
        answer: Some(answer),
        next: k + 1,
        place,
    })
}

/// A step without a line.
fn goes_to(next: u32, place: Place) -> Option<Step>
    ensures { after_of result ≡ spec.goes_to next (session_place_of place) }
{
    Some(Step {
        answer: None,
        next,
        place,
    })
}

/// The transaction with a bad statement more.
pub(crate) fn with_bad(opened: Opened, k: u32) -> Opened
    ensures { opened_seen result ≡ spec.with_bad (opened_seen opened) k }
{
    let bad = match opened.bad {
        Some(first) => first,
        None => k,
    };
    Opened {
        t: opened.t,
        from: opened.from,
        attempts: opened.attempts,
        bad: Some(bad),
    }
}

/// No transaction lives, and none is tried again.
pub(crate) const FREE: Place = Place::Free { attempts: None };

/// A transaction begins: at a `begin`, or as a data statement's own one.
fn begun(k: u32, item: Item, attempts: Option<u32>, t: u32) -> Option<Step>
    requires { k < u32.MAX }
    ensures { after_of result ≡ spec.at_begun k (item_seen item) attempts t }
{
    match item {
        Item::Word(Word::Begin { retry }) => {
            let opened = Opened {
                t,
                from: k,
                attempts: attempts.unwrap_or(retry),
                bad: None,
            };
            let place = Place::Inside {
                opened,
                granted: false,
            };
            told(k, SessionAnswer::Begun, place)
        }
        Item::Data => goes_to(k, Place::Own { t, granted: false }),
        Item::End | Item::Fault(_) | Item::Word(_) => None,
    }
}

/// No transaction lives.
fn in_free(k: u32, item: Item, attempts: Option<u32>, event: Happened) -> Option<Step>
    requires { k < u32.MAX }
    ensures { after_of result ≡ spec.in_free k (item_seen item) attempts (event_of event) }
{
    match event {
        Happened::Begun { t } => begun(k, item, attempts, t),
        _ => None,
    }
}

/// Whether a transaction commits where it is told to.
fn is_due_commit(anyway: bool, bad: Option<u32>) -> bool
    ensures { result ≡ spec.is_due_commit anyway bad }
{
    anyway || bad.is_none()
}

/// The transaction that a word began commits.
fn committed(k: u32, item: Item, opened: Opened, n: u32) -> Option<Step>
    requires { k < u32.MAX }
    ensures { after_of result ≡ spec.at_committed k (item_seen item) (opened_seen opened) n }
{
    match item {
        Item::Word(Word::Commit { anyway }) if is_due_commit(anyway, opened.bad) => {
            told(k, SessionAnswer::Committed { n }, FREE)
        }
        _ => None,
    }
}

/// What is told where a commit aborts.
fn answer_of_abort(anyway: bool, bad: Option<u32>) -> SessionAnswer
    ensures { line_reply_of result ≡ spec.reply_of_abort anyway bad }
{
    match bad {
        Some(statement) if !anyway => SessionAnswer::Aborted { statement },
        _ => SessionAnswer::Memory,
    }
}

/// The transaction that a word began aborts: at its commit, at `abort`, or at the script's end.
fn aborted(k: u32, item: Item, opened: Opened) -> Option<Step>
    requires { k < u32.MAX }
    ensures { after_of result ≡ spec.at_aborted k (item_seen item) (opened_seen opened) }
{
    match item {
        Item::Word(Word::Commit { anyway }) => {
            told(k, answer_of_abort(anyway, opened.bad), FREE)
        }
        Item::Word(Word::Abort) => told(k, SessionAnswer::Aborted { statement: k }, FREE),
        Item::End => told(k, SessionAnswer::Aborted { statement: k }, FREE),
        Item::Fault(_) | Item::Word(_) | Item::Data => None,
    }
}

/// The session goes on behind the statement, which is bad.
fn told_bad(k: u32, answer: SessionAnswer, opened: Opened) -> Option<Step>
    requires { k < u32.MAX }
    ensures { after_of result ≡ spec.told k (line_reply_of answer) (spec.inside (spec.with_bad (opened_seen opened) k) false) }
{
    let place = Place::Inside {
        opened: with_bad(opened, k),
        granted: false,
    };
    told(k, answer, place)
}

/// The statement is refused: the transaction is tried again, or goes on without it.
fn refused(k: u32, opened: Opened) -> Option<Step>
    requires { k < u32.MAX }
    ensures { after_of result ≡ spec.refused_with k (opened_seen opened).attempts (opened_seen opened) }
{
    if opened.attempts == 0 {
        return told_bad(k, SessionAnswer::Recorded, opened);
    }
    let opened = with_bad(opened, k);
    Some(Step {
        answer: Some(SessionAnswer::Recorded),
        next: k,
        place: Place::Leaving { opened },
    })
}

/// The statement is answered.
fn answered(k: u32, opened: Opened, good: bool) -> Option<Step>
    requires { k < u32.MAX }
    ensures { after_of result ≡ spec.told k spec.recorded (spec.inside (if good then opened_seen opened else spec.with_bad (opened_seen opened) k) false) }
{
    if good {
        let place = Place::Inside {
            opened,
            granted: false,
        };
        told(k, SessionAnswer::Recorded, place)
    } else {
        told_bad(k, SessionAnswer::Recorded, opened)
    }
}

/// A data statement in a transaction that a word began.
fn at_data(k: u32, opened: Opened, granted: bool, event: Happened) -> Option<Step>
    requires { k < u32.MAX }
    ensures { after_of result ≡ spec.at_data k (opened_seen opened) granted (event_of event) }
{
    match event {
        Happened::Granted => {
            let place = Place::Inside {
                opened,
                granted: true,
            };
            goes_to(k, place)
        }
        Happened::Answered { good } => answered(k, opened, good),
        Happened::Refused => refused(k, opened),
        Happened::GaveUp if granted => told_bad(k, SessionAnswer::Memory, opened),
        _ => None,
    }
}

/// In a transaction that a word began.
fn in_inside(k: u32, item: Item, opened: Opened, granted: bool, event: Happened) -> Option<Step>
    requires { k < u32.MAX }
    ensures { after_of result ≡ spec.in_inside k (item_seen item) (opened_seen opened) granted (event_of event) }
{
    match event {
        Happened::Committed { n } => committed(k, item, opened, n),
        Happened::Aborted => aborted(k, item, opened),
        _ => match item {
            Item::Data => at_data(k, opened, granted, event),
            Item::End | Item::Fault(_) | Item::Word(_) => None,
        },
    }
}

/// Back to the `begin`, with one attempt fewer.
fn in_leaving(opened: Opened, event: Happened) -> Option<Step>
    ensures { after_of result ≡ spec.in_leaving (opened_seen opened) (event_of event) }
{
    match event {
        Happened::Aborted => {
            let attempts = Some(opened.attempts.saturating_sub(1));
            goes_to(opened.from, Place::Free { attempts })
        }
        _ => None,
    }
}

/// In a data statement's own transaction.
fn in_own(k: u32, t: u32, granted: bool, event: Happened) -> Option<Step>
    requires { k < u32.MAX }
    ensures { after_of result ≡ spec.in_own k t granted (event_of event) }
{
    match event {
        Happened::Granted => goes_to(k, Place::Own { t, granted: true }),
        Happened::Answered { good } => {
            let closed = if good {
                Closed::Success
            } else {
                Closed::Failure
            };
            goes_to(k, Place::Ending { t, closed })
        }
        Happened::Refused => goes_to(
            k,
            Place::Ending {
                t,
                closed: Closed::Failure,
            },
        ),
        Happened::GaveUp if granted => goes_to(
            k,
            Place::Ending {
                t,
                closed: Closed::GivenUp,
            },
        ),
        Happened::Aborted if !granted => told(k, SessionAnswer::Memory, FREE),
        _ => None,
    }
}

/// The end of a data statement's own transaction, whose line comes with it.
fn in_ending(k: u32, closed: Closed, event: Happened) -> Option<Step>
    requires { k < u32.MAX }
    ensures { after_of result ≡ spec.in_ending k (closed_seen closed) (event_of event) }
{
    match (closed, event) {
        (Closed::Success, Happened::Committed { n: _ }) => told(k, SessionAnswer::Recorded, FREE),
        (Closed::Success, Happened::Aborted) => told(k, SessionAnswer::Memory, FREE),
        (Closed::Failure, Happened::Aborted) => told(k, SessionAnswer::Recorded, FREE),
        (Closed::GivenUp, Happened::Aborted) => told(k, SessionAnswer::Memory, FREE),
        _ => None,
    }
}

/// What comes of an event at a statement and a place, none where there is no such step.
pub fn after_event(k: u32, item: Item, place: Place, event: Happened) -> Option<Step>
    requires { k < u32.MAX }
    ensures { after_of result ≡ spec.after_event k (item_seen item) (session_place_of place) (event_of event) }
{
    match place {
        Place::Free { attempts } => in_free(k, item, attempts, event),
        Place::Lost => None,
        Place::Inside { opened, granted } => in_inside(k, item, opened, granted, event),
        Place::Leaving { opened } => in_leaving(opened, event),
        Place::Own { t, granted } => in_own(k, t, granted, event),
        Place::Ending { t: _, closed } => in_ending(k, closed, event),
    }
}
