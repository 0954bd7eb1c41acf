//! How points and boxes are written.
ghost use Rattle.std.specs.Prelude.{◌++◌, codes, flat_map};
ghost use Rattle.std.specs.Fmt.{signed_decimal};
ghost use Rattle.std.specs.List.{join_by};
ghost use Rattle.ras_edges.specs.Sink.{Writes};
ghost use Rattle.spec_sessions.specs.Report.{axis_text_of, box_text_of};
ghost use Rattle.spec_workloads.specs.Answers.{point_text_of};

use ras_domain::Interval;
use ras_edges::{Failed, Piece, Sink, write_pieces, write_whole};

/// A point, as `[3,0]`.
pub(crate) fn write_point<K: Sink>(sink: &mut K, point: &[i64]) -> Result<(), Failed>
    ensures { Writes K.taken K.faults sink.old sink.new result (point_text_of point.now) }
{
    write_whole(sink, b"[")?;
    write_numbers(sink, point)?;
    write_whole(sink, b"]")
}

/// Numbers with a comma between them.
pub(crate) fn write_numbers<K: Sink>(sink: &mut K, numbers: &[i64]) -> Result<(), Failed>
    ensures { Writes K.taken K.faults sink.old sink.new result (join_by signed_decimal (codes ",") numbers.now) }
{
    let [first, others @ ..] = numbers else {
        return Ok(());
    };
    write_pieces(sink, &[Piece::Number(first)])?;
    write_more_numbers(sink, others)
}

/// Each number behind a comma.
fn write_more_numbers<K: Sink>(sink: &mut K, numbers: &[i64]) -> Result<(), Failed>
    ensures { Writes K.taken K.faults sink.old sink.new result (flat_map (λ n. codes "," ++ signed_decimal n) numbers.now) }
{
    for n in numbers {
        write_pieces(sink, &[Piece::Text(b","), Piece::Number(n)])?;
    }
    Ok(())
}

/// A box, as `[0:3,1:2]`.
pub(crate) fn write_box<K: Sink>(sink: &mut K, axes: &[Interval]) -> Result<(), Failed>
    ensures { Writes K.taken K.faults sink.old sink.new result (box_text_of axes.now) }
{
    write_whole(sink, b"[")?;
    write_axes(sink, axes)?;
    write_whole(sink, b"]")
}

fn write_axes<K: Sink>(sink: &mut K, axes: &[Interval]) -> Result<(), Failed>
    ensures { Writes K.taken K.faults sink.old sink.new result (join_by axis_text_of (codes ",") axes.now) }
{
    let [first, others @ ..] = axes else {
        return Ok(());
    };
    write_axis(sink, b"", first)?;
    write_more_axes(sink, others)
}

/// Each interval behind a comma.
fn write_more_axes<K: Sink>(sink: &mut K, axes: &[Interval]) -> Result<(), Failed>
    ensures { Writes K.taken K.faults sink.old sink.new result (flat_map (λ axis. codes "," ++ axis_text_of axis) axes.now) }
{
    for axis in axes {
        write_axis(sink, b",", axis)?;
    }
    Ok(())
}

/// A mark, and then an interval, as `0:3`.
fn write_axis<K: Sink>(sink: &mut K, mark: &'static [u8], axis: &Interval) -> Result<(), Failed>
    ensures { Writes K.taken K.faults sink.old sink.new result (mark.now ++ axis_text_of axis.now) }
{
    write_pieces(
        sink,
        &[
            Piece::Text(mark),
            Piece::Number(&axis.lo),
            Piece::Text(b":"),
            Piece::Number(&axis.hi),
        ],
    )
}
