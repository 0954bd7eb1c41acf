//! A law of the definitions, the contract of a function that does nothing.
ghost use Rattle.std.specs.Prelude.{◌≡◌, ℕ};
ghost use Rattle.ras_syntax.specs.declared.event.Event.{Event};
ghost use Rattle.spec_sessions.specs.Walk.{ScriptItem, SessionPlace, after_event};
ghost use Rattle.ras_walk.specs.Places.{event_of, told_of_event};

/// What comes of an event at a place is what comes of any other that tells the same.
pub fn walks_ask_what_events_tell()
    ensures { (k : ℕ) (item : ScriptItem) (place : SessionPlace) (event : Event)
        → after_event k item place event ≡ after_event k item place (event_of (told_of_event event)) }
{}
