ghost use Rattle.std.specs.Prelude.{flat_map};
ghost use Rattle.ras_edges.specs.Sink.{Writes};
ghost use Rattle.ras_edges.specs.Piece.{piece_text};

use crate::sink::{Sink, write_whole};
use crate::source::Failed;
use itoa::Buffer;

/// A part of a text that is written without memory.
#[derive(Clone, Copy, Debug)]
pub enum Piece<'a> {
    /// Bytes as they are.
    Text(&'a [u8]),
    /// A number in decimal digits, with a minus sign below 0.
    Number(&'a i64),
    /// A number in decimal digits.
    Count(u64),
}

/// Writes the pieces one after another.
pub fn write_pieces<K: Sink>(sink: &mut K, pieces: &[Piece<'_>]) -> Result<(), Failed>
    ensures { Writes K.taken K.faults sink.old sink.new result (flat_map piece_text pieces.now) }
{
    for piece in pieces {
        write_piece(sink, piece)?;
    }
    Ok(())
}

fn write_piece<K: Sink>(sink: &mut K, piece: &Piece<'_>) -> Result<(), Failed>
    ensures { Writes K.taken K.faults sink.old sink.new result (piece_text piece.now) }
{
    let mut digits = Buffer::new();
    match piece {
        Piece::Text(bytes) => write_whole(sink, bytes),
        Piece::Number(n) => write_whole(sink, digits.format(**n).as_bytes()),
        Piece::Count(n) => write_whole(sink, digits.format(*n).as_bytes()),
    }
}
