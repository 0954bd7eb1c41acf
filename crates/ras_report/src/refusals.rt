//! How the lines are written that refuse a workload.
ghost use Rattle.ras_edges.specs.Sink.{Writes};
ghost use Rattle.spec_statements.specs.Reply.{reply_of_answer};
ghost use Rattle.spec_workloads.specs.Answers.{at_line, reply_text};

use crate::faults::{write_cell_fault, write_check_fault, write_shape_fault};
use ras_edges::{Failed, Piece, Sink, write_pieces, write_whole};
use ras_syntax::Answer;

/// What was wrong, and in which line of the text, counted from 1, as `refused heading line 3` and a line feed.
pub fn write_refused_line<K: Sink>(sink: &mut K, what: &[u8], line: u64) -> Result<(), Failed>
    ensures { Writes K.taken K.faults sink.old sink.new result (at_line what.now line) }
{
    write_pieces(
        sink,
        &[
            Piece::Text(b"refused "),
            Piece::Text(what),
            Piece::Text(b" line "),
            Piece::Count(line),
            Piece::Text(b"\n"),
        ],
    )
}

/// The answer of a statement of a setup that isn't as it has to be: rows by the word `value` alone,
/// and other answers as a report has them.
pub fn write_setup_answer<K: Sink>(sink: &mut K, answer: &Answer) -> Result<(), Failed>
    ensures { Writes K.taken K.faults sink.old sink.new result (reply_text (reply_of_answer answer.now)) }
{
    match answer {
        Answer::Value(_) => write_whole(sink, b"value"),
        Answer::Done(n) => write_pieces(sink, &[Piece::Text(b"done "), Piece::Count(*n)]),
        Answer::Fault { row, point, fault } => {
            write_cell_fault(sink, *row, point.as_slice(), *fault)
        }
        Answer::Shape { row, span, fault } => write_shape_fault(sink, *row, *span, *fault),
        Answer::Check { span, fault } => write_check_fault(sink, *span, *fault),
    }
}
