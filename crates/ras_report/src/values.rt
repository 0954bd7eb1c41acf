//! How the rows of a select are written.
ghost use Rattle.std.specs.Prelude.{◌++◌, codes, flat_map};
ghost use Rattle.ras_edges.specs.Sink.{Writes};
ghost use Rattle.spec_sessions.specs.Report.{cell_text_of, numbers_text_of, row_text_of};
ghost use Rattle.spec_statements.specs.Reply.{row_reply_of};

use crate::points::{write_box, write_numbers};
use ras_cells::Cell;
use ras_edges::{Failed, Sink, write_whole};
use ras_syntax::{CellList, RowList, RowValue};

/// Each row on a line of its own, behind what stands before.
pub(crate) fn write_rows<K: Sink>(sink: &mut K, rows: &RowList) -> Result<(), Failed>
    ensures { Writes K.taken K.faults sink.old sink.new result
        (flat_map (λ row. codes "\nrow " ++ row_text_of (row_reply_of row)) rows.now) }
{
    for place in 0..rows.len() {
        write_row(sink, rows.get(place))?;
    }
    Ok(())
}

/// The line of a row: a cell, a domain, or a box and its cells.
fn write_row<K: Sink>(sink: &mut K, row: &RowValue) -> Result<(), Failed>
    ensures { Writes K.taken K.faults sink.old sink.new result (codes "\nrow " ++ row_text_of (row_reply_of row.now)) }
{
    match row {
        RowValue::Scalar(cell) => write_cell(sink, b"\nrow ", cell),
        RowValue::Domain(region) => {
            write_whole(sink, b"\nrow sdom ")?;
            write_box(sink, region.axes())
        }
        RowValue::Array(region, cells) => {
            write_whole(sink, b"\nrow ")?;
            write_box(sink, region.axes())?;
            write_cells(sink, cells)
        }
    }
}

/// Each cell behind a space.
fn write_cells<K: Sink>(sink: &mut K, cells: &CellList) -> Result<(), Failed>
    ensures { Writes K.taken K.faults sink.old sink.new result (flat_map (λ cell. codes " " ++ cell_text_of cell) cells.now.cells) }
{
    for place in 0..cells.len() {
        write_cell(sink, b" ", &cells.get(place))?;
    }
    Ok(())
}

/// A mark, and then a cell: null, its one number, or its numbers in braces.
fn write_cell<K: Sink>(sink: &mut K, mark: &[u8], cell: &Cell) -> Result<(), Failed>
    ensures { Writes K.taken K.faults sink.old sink.new result (mark.now ++ cell_text_of cell.now) }
{
    write_whole(sink, mark)?;
    match cell {
        Cell::Null => write_whole(sink, b"null"),
        Cell::Value(numbers) => write_components(sink, numbers.as_slice()),
    }
}

fn write_components<K: Sink>(sink: &mut K, numbers: &[i64]) -> Result<(), Failed>
    ensures { Writes K.taken K.faults sink.old sink.new result (numbers_text_of numbers.now) }
{
    if numbers.len() == 1 {
        return write_numbers(sink, numbers);
    }
    write_whole(sink, b"{")?;
    write_numbers(sink, numbers)?;
    write_whole(sink, b"}")
}
