//! The lines that refuse words.
ghost use Rattle.ras_edges.specs.Sink.{Writes};
ghost use Rattle.ras_top.specs.Said.{words_refusal};

use ras_edges::{Failed, Piece, Sink, write_pieces, write_whole};
use ras_settings::WordsFault;

/// What is wrong with the words, as `refused schedule at 1` and a line feed.
pub fn write_words_refusal<K: Sink>(sink: &mut K, fault: WordsFault) -> Result<(), Failed>
    ensures { Writes K.taken K.faults sink.old sink.new result (words_refusal fault) }
{
    match fault {
        WordsFault::Refused => write_whole(sink, b"refused words\n"),
        WordsFault::UnknownCommand => write_whole(sink, b"refused command\n"),
        WordsFault::OptionNotOfCommand => write_whole(sink, b"refused option\n"),
        WordsFault::BadSchedule { place } => write_pieces(
            sink,
            &[
                Piece::Text(b"refused schedule at "),
                Piece::Count(u64::from(place)),
                Piece::Text(b"\n"),
            ],
        ),
        WordsFault::Memory => write_whole(sink, b"refused memory\n"),
    }
}
