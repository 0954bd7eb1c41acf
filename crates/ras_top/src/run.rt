//! The calls that the program makes.
ghost use Rattle.std.specs.Prelude.{◌≡◌, ◌≢◌, map, string_bytes, IsSome, IfSome, Err};
ghost use Rattle.ras_edges.specs.Sink.{Wrote, Stopped, IsFlushed};
ghost use Rattle.ras_settings.specs.declared.settings.WordsFault.{WordsFault};
ghost use Rattle.ras_top.specs.Call.{call_of, IsAnswered};
ghost use Rattle.ras_top.specs.Commands.{AskFor};
ghost use Rattle.ras_top.specs.Said.{cut_short, no_memory, status_of, text_of};

use crate::answer::{Answer, send};
use crate::judge::judge;
use ras_edges::{Gate, Sink, Source};
use std::alloc::Global;
use std::sync::Wait;
use std::thread::Threads;

/// The status of a call whose text could not be written whole.
const CUT_SHORT: u8 = 4;

/// One run of the program that waits for nobody: it reads the source, writes one text to the sink
/// and flushes it, and answers the status.
///
/// - 0: what the words ask for was done, and this is its text: the report of the source's workload,
///   run by the schedule; or the check of its statements.
/// - 1: one line that says why the source's bytes are no workload, or `refused too long`, they are more
///   than [`crate::MOST_BYTES`].
/// - 2: one line that says what is wrong with the words; nothing was read.
/// - 3: `refused read`, a read failed.
/// - 4: a write or the flush failed; the sink took a front of the text.
/// - 5: `refused memory`, want of memory, which may come at any time before the writing starts.
///
/// The words don't hold the program's name. None would mean that they want threads; it isn't
/// answered so far.
pub fn rasq_quiet<R: Threads + Sync, S: Source, K: Sink>(
    rt: &R,
    alloc: Global,
    words: &[String],
    source: &mut S,
    sink: &mut K,
) -> Option<u8>
    ensures always { IsSome result }
    ensures answered { IfSome result (IsAnswered (call_of S.left S.faults K.taken K.flushed K.faults
        (map string_bytes words.now) source.old source.new sink.old sink.new)) }
    ensures unread { (fault : WordsFault) → AskFor (map string_bytes words.now) (Err fault) → source.new ≡ source.old }
{
    let answer = judge(rt, alloc, words, source);
    match send(sink, &answer) {
        Ok(()) => Some(answer.status()),
        Err(_) => Some(CUT_SHORT),
    }
}

/// Refuses for want of memory, where there wasn't enough even to collect the words. It writes the
/// refusal to the sink, flushes it, and answers its status, 5, or 4 where a write or the flush
/// failed.
pub fn refuse_memory<K: Sink>(sink: &mut K) -> u8
    ensures whole { result ≢ cut_short → (result ≡ status_of no_memory)
        × Wrote K.taken K.faults sink.old sink.new (text_of no_memory) × IsFlushed (K.taken sink.new) (K.flushed sink.new) }
    ensures cut { result ≡ cut_short → Stopped K.taken K.faults sink.old sink.new (text_of no_memory) }
{
    let answer = Answer::NoMemory;
    match send(sink, &answer) {
        Ok(()) => answer.status(),
        Err(_) => CUT_SHORT,
    }
}

/// One run of the program. It answers what [`rasq_quiet`] answers. The gate is for runs on threads,
/// which there are none of so far.
pub fn rasq_main<R: Threads + Sync + Wait, S: Source, K: Sink, G: Gate>(
    rt: &R,
    alloc: Global,
    words: &[String],
    source: &mut S,
    sink: &mut K,
    _gate: &G,
) -> u8
    ensures answered { IsAnswered (call_of S.left S.faults K.taken K.flushed K.faults
        (map string_bytes words.now) source.old source.new sink.old sink.new) result }
    ensures unread { (fault : WordsFault) → AskFor (map string_bytes words.now) (Err fault) → source.new ≡ source.old }
{
    match rasq_quiet(rt, alloc, words, source, sink) {
        Some(status) => status,
        None => unreachable!(),
    }
}
