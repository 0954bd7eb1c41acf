//! How events are written.
ghost use Rattle.std.specs.Prelude.{codes, decimal, [], ◌∷◌, flat_map};
ghost use Rattle.std.specs.List.{concat};
ghost use Rattle.ras_edges.specs.Sink.{Writes};
ghost use Rattle.ras_syntax.specs.declared.event.Event.TheVariants.{Begun, Granted, Refused};
ghost use Rattle.spec_sessions.specs.Report.{event_line};

use crate::locks::{write_lock, write_locks};
use ras_domain::{LockList, LockName, Mode};
use ras_edges::{Failed, Piece, Sink, write_pieces, write_whole};
use ras_syntax::Event;

/// A line for each event.
pub(crate) fn write_events<K: Sink>(sink: &mut K, events: &[Event]) -> Result<(), Failed>
    ensures { Writes K.taken K.faults sink.old sink.new result (flat_map event_line events.now) }
{
    for event in events {
        write_event(sink, event)?;
    }
    Ok(())
}

fn write_event<K: Sink>(sink: &mut K, event: &Event) -> Result<(), Failed>
    ensures { Writes K.taken K.faults sink.old sink.new result (event_line event.now) }
{
    match event {
        Event::Begun {
            t,
            session,
            statement,
        } => write_begun(sink, *t, *session, *statement),
        Event::Granted {
            t,
            statement,
            phase,
            list,
        } => write_granted(sink, *t, *statement, *phase, list),
        Event::Refused {
            t,
            statement,
            phase,
            lock,
            mode,
            holder,
        } => write_refused(sink, (*t, *statement, *phase), lock, *mode, *holder),
        Event::Answered { t, statement, .. } => write_two(sink, b"answered ", *t, *statement),
        Event::GaveUp { t, statement } => write_two(sink, b"gave up ", *t, *statement),
        Event::Committed { t, number } => write_two(sink, b"committed ", *t, *number),
        Event::Aborted { t } => write_aborted(sink, *t),
    }
}

/// That a transaction began, as `begun 1 session 2 statement 3`.
fn write_begun<K: Sink>(sink: &mut K, t: u32, session: u32, statement: u32) -> Result<(), Failed>
    ensures { Writes K.taken K.faults sink.old sink.new result (event_line (Begun t session statement)) }
{
    write_pieces(
        sink,
        &[
            Piece::Text(b"begun "),
            Piece::Count(u64::from(t)),
            Piece::Text(b" session "),
            Piece::Count(u64::from(session)),
            Piece::Text(b" statement "),
            Piece::Count(u64::from(statement)),
            Piece::Text(b"\n"),
        ],
    )
}

/// The locks of a phase, as `granted 1 1 phase 2: S domain G 1`.
fn write_granted<K: Sink>(
    sink: &mut K,
    t: u32,
    statement: u32,
    phase: u8,
    list: &LockList,
) -> Result<(), Failed>
    ensures { Writes K.taken K.faults sink.old sink.new result (event_line (Granted t statement phase list.now)) }
{
    write_place(sink, b"granted ", (t, statement, phase), b": ")?;
    write_locks(sink, list)?;
    write_whole(sink, b"\n")
}

/// The lock that was refused, as `refused 2 1 phase 2 S domain G 1 holder 1`.
fn write_refused<K: Sink>(
    sink: &mut K,
    place: (u32, u32, u8),
    lock: &LockName,
    mode: Mode,
    holder: u32,
) -> Result<(), Failed>
    ensures { Writes K.taken K.faults sink.old sink.new result (event_line (Refused place.0 place.1 place.2 lock.now mode holder)) }
{
    write_place(sink, b"refused ", place, b" ")?;
    write_lock(sink, b"", lock, mode)?;
    write_pieces(
        sink,
        &[
            Piece::Text(b" holder "),
            Piece::Count(u64::from(holder)),
            Piece::Text(b"\n"),
        ],
    )
}

/// A mark, a transaction, its statement and a phase of it, and a mark.
fn write_place<K: Sink>(
    sink: &mut K,
    mark: &'static [u8],
    place: (u32, u32, u8),
    end: &'static [u8],
) -> Result<(), Failed>
    ensures { Writes K.taken K.faults sink.old sink.new result (concat (mark.now ∷ decimal place.0 ∷ codes " " ∷ decimal place.1
        ∷ codes " phase " ∷ decimal place.2 ∷ end.now ∷ [])) }
{
    let (t, statement, phase) = place;
    write_pieces(
        sink,
        &[
            Piece::Text(mark),
            Piece::Count(u64::from(t)),
            Piece::Text(b" "),
            Piece::Count(u64::from(statement)),
            Piece::Text(b" phase "),
            Piece::Count(u64::from(phase)),
            Piece::Text(end),
        ],
    )
}

/// A mark and two numbers.
fn write_two<K: Sink>(sink: &mut K, mark: &[u8], t: u32, number: u32) -> Result<(), Failed>
    ensures { Writes K.taken K.faults sink.old sink.new result (concat (mark.now ∷ decimal t ∷ codes " " ∷ decimal number ∷ codes "\n" ∷ [])) }
{
    write_pieces(
        sink,
        &[
            Piece::Text(mark),
            Piece::Count(u64::from(t)),
            Piece::Text(b" "),
            Piece::Count(u64::from(number)),
            Piece::Text(b"\n"),
        ],
    )
}

fn write_aborted<K: Sink>(sink: &mut K, t: u32) -> Result<(), Failed>
    ensures { Writes K.taken K.faults sink.old sink.new result (concat (codes "aborted " ∷ decimal t ∷ codes "\n" ∷ [])) }
{
    write_pieces(
        sink,
        &[
            Piece::Text(b"aborted "),
            Piece::Count(u64::from(t)),
            Piece::Text(b"\n"),
        ],
    )
}
