//! Lines that come without an event, by the place.
ghost use Rattle.std.specs.Prelude.{◌≡◌, ◌<◌};
ghost use Rattle.ras_outcome.specs.Replies.{line_reply_of};
ghost use Rattle.spec_sessions.specs.Walk as spec;
ghost use Rattle.ras_walk.specs.Places.{after_of, item_seen, opened_seen, session_place_of};

use crate::events::{FREE, told, with_bad};
use crate::place::{Item, Opened, Place, Step};
use ras_outcome::SessionAnswer;
use ras_syntax::{SyntaxFault, Word};

/// A text that is no statement is told with its fault, or for want of memory without it.
fn unread(fault: SyntaxFault, wanting: bool) -> SessionAnswer
    ensures { line_reply_of result ≡ spec.unread_reply fault wanting }
{
    if wanting {
        SessionAnswer::Memory
    } else {
        SessionAnswer::Syntax(fault)
    }
}

/// No transaction lives.
fn in_free(k: u32, item: Item, wanting: bool) -> Option<Step>
    requires { k < u32.MAX }
    ensures { after_of result ≡ spec.quiet_free k (item_seen item) wanting }
{
    match item {
        Item::Fault(fault) => told(k, unread(fault, wanting), FREE),
        Item::Word(Word::Begin { retry: _ }) if wanting => {
            told(k, SessionAnswer::Memory, Place::Lost)
        }
        Item::Word(Word::Commit { anyway: _ }) if !wanting => {
            told(k, SessionAnswer::NoTransaction, FREE)
        }
        Item::Word(Word::Abort) if !wanting => told(k, SessionAnswer::NoTransaction, FREE),
        Item::Data if wanting => told(k, SessionAnswer::Memory, FREE),
        _ => None,
    }
}

/// A transaction couldn't begin: until it would have ended.
fn in_lost(k: u32, item: Item, wanting: bool) -> Option<Step>
    requires { k < u32.MAX }
    ensures { after_of result ≡ spec.quiet_lost k (item_seen item) wanting }
{
    if !wanting {
        return None;
    }
    match item {
        Item::End => None,
        Item::Word(Word::Commit { anyway: _ }) => told(k, SessionAnswer::Memory, FREE),
        Item::Word(Word::Abort) => told(k, SessionAnswer::Memory, FREE),
        Item::Word(Word::Begin { retry: _ }) => told(k, SessionAnswer::Memory, Place::Lost),
        Item::Fault(_) => told(k, SessionAnswer::Memory, Place::Lost),
        Item::Data => told(k, SessionAnswer::Memory, Place::Lost),
    }
}

/// In a transaction that a word began.
fn in_inside(k: u32, item: Item, opened: Opened, granted: bool, wanting: bool) -> Option<Step>
    requires { k < u32.MAX }
    ensures { after_of result ≡ spec.quiet_inside k (item_seen item) (opened_seen opened) granted wanting }
{
    let bad = Place::Inside {
        opened: with_bad(opened, k),
        granted: false,
    };
    let same = Place::Inside {
        opened,
        granted: false,
    };
    match item {
        Item::Fault(fault) => told(k, unread(fault, wanting), bad),
        Item::Word(Word::Begin { retry: _ }) if !wanting => {
            told(k, SessionAnswer::InTransaction, same)
        }
        Item::Data if wanting && !granted => told(k, SessionAnswer::Memory, bad),
        _ => None,
    }
}

/// What comes of a line without an event, for want of memory or not; none where there is no such step.
pub fn after_line(k: u32, item: Item, place: Place, wanting: bool) -> Option<Step>
    requires { k < u32.MAX }
    ensures { after_of result ≡ spec.after_quiet k (item_seen item) (session_place_of place) wanting }
{
    match place {
        Place::Free { attempts: _ } => in_free(k, item, wanting),
        Place::Lost => in_lost(k, item, wanting),
        Place::Inside { opened, granted } => in_inside(k, item, opened, granted, wanting),
        Place::Leaving { opened: _ } => None,
        Place::Own { t: _, granted: _ } => None,
        Place::Ending { t: _, closed: _ } => None,
    }
}
