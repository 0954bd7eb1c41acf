//! Which events a line needs.
ghost use Rattle.std.specs.Prelude.{◌≡◌, ◌<◌, length, find, slice_get, None, Some, MatchOption};
ghost use Rattle.ras_report.specs.Once.{AreAnsweredOnce};
ghost use Rattle.spec_sessions.specs.Report.{answers_statement, begins, session_in, session_name};

use ras_syntax::{Event, Script};

/// The event that answers or refuses a statement of a transaction. Looking begins at the place `at`
/// and goes on from the front where nothing is found behind it; the place of what is found is kept
/// there. The lines of a session come in the order of their events, so all looks of a session
/// together go through the history about once.
pub(crate) fn find_answer<'a>(
    history: &'a [Event],
    at: &mut usize,
    t: u32,
    statement: u32,
) -> Option<&'a Event>
    requires once { AreAnsweredOnce history.now }
    ensures { MatchOption result (find (answers_statement t statement) history.now ≡ None)
        (λ event. find (answers_statement t statement) history.now ≡ Some event.now) }
{
    let from = (*at).min(history.len());
    match place_of_answer(&history[from..], t, statement) {
        Some(place) => {
            *at = from + place;
            Some(&history[from + place])
        }
        None => match place_of_answer(&history[..from], t, statement) {
            Some(place) => {
                *at = place;
                Some(&history[place])
            }
            None => None,
        },
    }
}

/// The place of the first of these events that answers or refuses a statement of a transaction.
fn place_of_answer(events: &[Event], t: u32, statement: u32) -> Option<usize>
    ensures { MatchOption result (find (answers_statement t statement) events.now ≡ None)
        (λ place. (place < length events.now) × (find (answers_statement t statement) events.now ≡ slice_get events.now place)) }
{
    for place in 0..events.len() {
        if is_answer_of(&events[place], t, statement) {
            return Some(place);
        }
    }
    None
}

fn is_answer_of(event: &Event, of: u32, at: u32) -> bool
    ensures { result ≡ answers_statement of at event.now }
{
    match event {
        Event::Answered { t, statement, .. } => *t == of && *statement == at,
        Event::Refused { t, statement, .. } => *t == of && *statement == at,
        _ => false,
    }
}

/// The name of the session in which a transaction first began, and no byte where there is none.
pub(crate) fn session_of<'a>(scripts: &'a [Script], history: &[Event], t: u32) -> &'a [u8]
    ensures { result.now ≡ session_name scripts.now history.now t }
{
    let session = number_of_session(history, t) as usize;
    if session == 0 {
        return b"";
    }
    if session > scripts.len() {
        return b"";
    }
    scripts[session - 1].name.bytes()
}

/// The number of that session, counted from 1, and 0 where there is none.
fn number_of_session(history: &[Event], t: u32) -> u32
    ensures { result ≡ session_in (find (begins t) history.now) }
{
    for event in history {
        if begins_here(event, t) {
            return session_begun(event);
        }
    }
    0
}

fn begins_here(event: &Event, of: u32) -> bool
    ensures { result ≡ begins of event.now }
{
    match event {
        Event::Begun { t, .. } => *t == of,
        _ => false,
    }
}

fn session_begun(event: &Event) -> u32
    ensures { result ≡ session_in (Some event.now) }
{
    match event {
        Event::Begun { session, .. } => *session,
        _ => 0,
    }
}
