//! How locks are written.
ghost use Rattle.std.specs.Prelude.{◌≡◌, ◌==◌, ◌++◌, [], if◌then◌else◌, codes};
ghost use Rattle.std.specs.List.{join_by};
ghost use Rattle.ras_edges.specs.Sink.{Writes};
ghost use Rattle.spec_sessions.specs.Report.{lock_text_of, mode_text_of, name_text_of};

use crate::points::write_point;
use ras_domain::{LockList, LockName, Mode};
use ras_edges::{Failed, Piece, Sink, write_pieces};

/// The locks of a phase with a comma and a space between them, as `S collection G, X domain G 1`.
pub fn write_locks<K: Sink>(sink: &mut K, list: &LockList) -> Result<(), Failed>
    ensures { Writes K.taken K.faults sink.old sink.new result (join_by lock_text_of (codes ", ") list.now) }
{
    for place in 0..list.len() {
        let (lock, mode) = list.get(place);
        write_lock(sink, comma_before(place), lock, mode)?;
    }
    Ok(())
}

/// A mark, and then a lock with its mode, as `S domain G 1`.
pub(crate) fn write_lock<K: Sink>(
    sink: &mut K,
    mark: &[u8],
    lock: &LockName,
    mode: Mode,
) -> Result<(), Failed>
    ensures { Writes K.taken K.faults sink.old sink.new result (mark.now ++ lock_text_of (lock.now, mode)) }
{
    write_pieces(
        sink,
        &[
            Piece::Text(mark),
            Piece::Text(word_of_mode(mode)),
            Piece::Text(b" "),
        ],
    )?;
    write_lock_name(sink, lock)
}

/// What a lock is on, as `tile G 1 [0,1]`.
pub(crate) fn write_lock_name<K: Sink>(sink: &mut K, lock: &LockName) -> Result<(), Failed>
    ensures { Writes K.taken K.faults sink.old sink.new result (name_text_of lock.now) }
{
    match lock {
        LockName::Collection(name) => write_pieces(
            sink,
            &[Piece::Text(b"collection "), Piece::Text(name.bytes())],
        ),
        LockName::Domain(name, id) => write_pieces(
            sink,
            &[
                Piece::Text(b"domain "),
                Piece::Text(name.bytes()),
                Piece::Text(b" "),
                Piece::Count(*id),
            ],
        ),
        LockName::Tile(name, id, place) => {
            write_pieces(
                sink,
                &[
                    Piece::Text(b"tile "),
                    Piece::Text(name.bytes()),
                    Piece::Text(b" "),
                    Piece::Count(*id),
                    Piece::Text(b" "),
                ],
            )?;
            write_point(sink, place.as_slice())
        }
    }
}

/// What stands before a lock of a list: nothing before the first, and else a comma and a space.
fn comma_before(place: usize) -> &'static [u8]
    ensures { result.now ≡ (if place == 0 then [] else codes ", ") }
{
    if place == 0 { b"" } else { b", " }
}

fn word_of_mode(mode: Mode) -> &'static [u8]
    ensures { result.now ≡ mode_text_of mode }
{
    match mode {
        Mode::Shared => b"S",
        Mode::Exclusive => b"X",
    }
}
