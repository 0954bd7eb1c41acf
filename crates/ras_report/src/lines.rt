//! How the lines of sessions are written.
ghost use Rattle.std.specs.Prelude.{codes, decimal, [], ◌∷◌, ◌++◌, flat_map, Some};
ghost use Rattle.std.specs.List.{concat};
ghost use Rattle.ras_edges.specs.Sink.{Writes};
ghost use Rattle.ras_report.specs.Once.{AreAnsweredOnce};
ghost use Rattle.spec_sessions.specs.Report.{event_answer_text, line_reply_text, line_text, name_text_of, session_name, session_text};

use crate::answers::write_answer;
use crate::faults::write_syntax_fault;
use crate::find::{find_answer, session_of};
use crate::locks::write_lock_name;
use ras_domain::LockName;
use ras_edges::{Failed, Piece, Sink, write_pieces, write_whole};
use ras_outcome::{AnswerLine, SessionAnswer};
use ras_syntax::{Event, Script};

/// A session's heading and its lines.
pub(crate) fn write_session<K: Sink>(
    sink: &mut K,
    scripts: &[Script],
    history: &[Event],
    script: &Script,
    lines: &[AnswerLine],
) -> Result<(), Failed>
    requires once { AreAnsweredOnce history.now }
    ensures { Writes K.taken K.faults sink.old sink.new result (session_text scripts.now history.now script.now lines.now) }
{
    write_pieces(
        sink,
        &[
            Piece::Text(b"#session "),
            Piece::Text(script.name.bytes()),
            Piece::Text(b"\n"),
        ],
    )?;
    write_lines(sink, scripts, history, lines)
}

fn write_lines<K: Sink>(
    sink: &mut K,
    scripts: &[Script],
    history: &[Event],
    lines: &[AnswerLine],
) -> Result<(), Failed>
    requires once { AreAnsweredOnce history.now }
    ensures { Writes K.taken K.faults sink.old sink.new result (flat_map (line_text scripts.now history.now) lines.now) }
{
    let mut at = 0;
    for line in lines {
        write_line(sink, scripts, history, line, &mut at)?;
    }
    Ok(())
}

/// One line. `at` is the place in the history from which its event is looked for.
fn write_line<K: Sink>(
    sink: &mut K,
    scripts: &[Script],
    history: &[Event],
    line: &AnswerLine,
    at: &mut usize,
) -> Result<(), Failed>
    requires once { AreAnsweredOnce history.now }
    ensures { Writes K.taken K.faults sink.old sink.new result (line_text scripts.now history.now line.now) }
{
    write_pieces(
        sink,
        &[
            Piece::Count(u64::from(line.statement)),
            Piece::Text(b" "),
            Piece::Count(u64::from(line.transaction)),
            Piece::Text(b" "),
        ],
    )?;
    write_line_answer(sink, scripts, history, line, at)?;
    write_whole(sink, b"\n")
}

fn write_line_answer<K: Sink>(
    sink: &mut K,
    scripts: &[Script],
    history: &[Event],
    line: &AnswerLine,
    at: &mut usize,
) -> Result<(), Failed>
    requires once { AreAnsweredOnce history.now }
    ensures { Writes K.taken K.faults sink.old sink.new result (line_reply_text scripts.now history.now line.now line.now.reply) }
{
    match line.answer {
        SessionAnswer::Recorded => {
            match find_answer(history, at, line.transaction, line.statement) {
                Some(event) => write_event_answer(sink, scripts, history, event),
                None => Ok(()),
            }
        }
        SessionAnswer::Memory => write_whole(sink, b"memory"),
        SessionAnswer::Syntax(fault) => write_syntax_fault(sink, fault),
        SessionAnswer::Begun => write_whole(sink, b"begun"),
        SessionAnswer::Committed { n } => write_numbered(sink, b"committed ", n),
        SessionAnswer::Aborted { statement } => write_numbered(sink, b"aborted ", statement),
        SessionAnswer::NoTransaction => write_whole(sink, b"no transaction"),
        SessionAnswer::InTransaction => write_whole(sink, b"in transaction"),
    }
}

fn write_numbered<K: Sink>(sink: &mut K, mark: &[u8], n: u32) -> Result<(), Failed>
    ensures { Writes K.taken K.faults sink.old sink.new result (mark.now ++ decimal n) }
{
    write_pieces(sink, &[Piece::Text(mark), Piece::Count(u64::from(n))])
}

/// The answer that an event tells: that of a statement, or that a lock was refused.
fn write_event_answer<K: Sink>(
    sink: &mut K,
    scripts: &[Script],
    history: &[Event],
    event: &Event,
) -> Result<(), Failed>
    ensures { Writes K.taken K.faults sink.old sink.new result (event_answer_text scripts.now history.now (Some event.now)) }
{
    match event {
        Event::Answered { answer, .. } => write_answer(sink, answer),
        Event::Refused { lock, holder, .. } => {
            write_locked(sink, lock, *holder, session_of(scripts, history, *holder))
        }
        _ => Ok(()),
    }
}

/// That a lock was refused, its holder and the holder's session, as `locked collection G holder 1 of A`.
fn write_locked<K: Sink>(
    sink: &mut K,
    lock: &LockName,
    holder: u32,
    session: &[u8],
) -> Result<(), Failed>
    ensures { Writes K.taken K.faults sink.old sink.new result (concat (codes "locked " ∷ name_text_of lock.now
        ∷ codes " holder " ∷ decimal holder ∷ codes " of " ∷ session.now ∷ [])) }
{
    write_whole(sink, b"locked ")?;
    write_lock_name(sink, lock)?;
    write_pieces(
        sink,
        &[
            Piece::Text(b" holder "),
            Piece::Count(u64::from(holder)),
            Piece::Text(b" of "),
            Piece::Text(session),
        ],
    )
}
