//! How answers of data statements are written.
ghost use Rattle.std.specs.Prelude.{codes, decimal, [], ◌∷◌, ◌++◌, flat_map, length};
ghost use Rattle.std.specs.List.{concat};
ghost use Rattle.ras_edges.specs.Sink.{Writes};
ghost use Rattle.spec_sessions.specs.Report.{reply_text_of, row_text_of};
ghost use Rattle.spec_statements.specs.Reply.{reply_of_answer, row_reply_of};

use crate::faults::{write_cell_fault, write_check_fault, write_shape_fault};
use crate::values::write_rows;
use ras_edges::{Failed, Piece, Sink, write_pieces};
use ras_syntax::{Answer, RowList};

/// An answer without its last line feed: `value` and how many rows there are, with a line for each,
/// `done` and a number, or a fault.
pub fn write_answer<K: Sink>(sink: &mut K, answer: &Answer) -> Result<(), Failed>
    ensures { Writes K.taken K.faults sink.old sink.new result (reply_text_of (reply_of_answer answer.now)) }
{
    match answer {
        Answer::Value(rows) => write_value(sink, rows),
        Answer::Done(n) => write_pieces(sink, &[Piece::Text(b"done "), Piece::Count(*n)]),
        Answer::Fault { row, point, fault } => {
            write_cell_fault(sink, *row, point.as_slice(), *fault)
        }
        Answer::Shape { row, span, fault } => write_shape_fault(sink, *row, *span, *fault),
        Answer::Check { span, fault } => write_check_fault(sink, *span, *fault),
    }
}

fn write_value<K: Sink>(sink: &mut K, rows: &RowList) -> Result<(), Failed>
    ensures { Writes K.taken K.faults sink.old sink.new result (concat (codes "value " ∷ decimal (length rows.now)
        ∷ flat_map (λ row. codes "\nrow " ++ row_text_of (row_reply_of row)) rows.now ∷ [])) }
{
    write_pieces(
        sink,
        &[Piece::Text(b"value "), Piece::Count(rows.len() as u64)],
    )?;
    write_rows(sink, rows)
}
