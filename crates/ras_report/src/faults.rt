//! How faults are written.
ghost use Rattle.std.specs.Prelude.{◌≡◌};
ghost use Rattle.ras_edges.specs.Sink.{Writes};
ghost use Rattle.spec_workloads.specs.Answers.{at_place, cell_fault_word, check_fault_word, check_text_of, fault_text_of, shape_fault_word, shape_text_of, syntax_text};

use crate::points::write_point;
use ras_cells::CellFault;
use ras_edges::{Failed, Piece, Sink, write_pieces};
use ras_syntax::{CheckFault, ShapeFault, Span, SyntaxFault};

/// Why a text is no statement, and the byte offset, as `syntax unexpected at 13`.
pub fn write_syntax_fault<K: Sink>(sink: &mut K, fault: SyntaxFault) -> Result<(), Failed>
    ensures { Writes K.taken K.faults sink.old sink.new result (syntax_text fault) }
{
    match fault {
        SyntaxFault::Unexpected { place } => write_at(sink, b"unexpected", place),
        SyntaxFault::NumberTooWide { place } => write_at(sink, b"number_too_wide", place),
        SyntaxFault::TooDeep { place } => write_at(sink, b"too_deep", place),
        SyntaxFault::UnknownName { place } => write_at(sink, b"unknown_name", place),
        SyntaxFault::FloatRefused { place } => write_at(sink, b"float_refused", place),
    }
}

fn write_at<K: Sink>(sink: &mut K, kind: &[u8], place: u32) -> Result<(), Failed>
    ensures { Writes K.taken K.faults sink.old sink.new result (at_place kind.now place) }
{
    write_pieces(
        sink,
        &[
            Piece::Text(b"syntax "),
            Piece::Text(kind),
            Piece::Text(b" at "),
            Piece::Count(u64::from(place)),
        ],
    )
}

/// Why a statement has no type, and the part of its text, as `check no_type span 7:9`.
pub fn write_check_fault<K: Sink>(sink: &mut K, span: Span, fault: CheckFault) -> Result<(), Failed>
    ensures { Writes K.taken K.faults sink.old sink.new result (check_text_of span fault) }
{
    write_pieces(
        sink,
        &[
            Piece::Text(b"check "),
            Piece::Text(word_of_check_fault(fault)),
            Piece::Text(b" span "),
            Piece::Count(u64::from(span.from)),
            Piece::Text(b":"),
            Piece::Count(u64::from(span.to)),
        ],
    )
}

/// Why the value of a row has no shape, or the statement is too large, and the part of its text, as
/// `shape outside row 1 span 7:9`.
pub fn write_shape_fault<K: Sink>(
    sink: &mut K,
    row: u64,
    span: Span,
    fault: ShapeFault,
) -> Result<(), Failed>
    ensures { Writes K.taken K.faults sink.old sink.new result (shape_text_of row span fault) }
{
    write_pieces(
        sink,
        &[
            Piece::Text(b"shape "),
            Piece::Text(word_of_shape_fault(fault)),
            Piece::Text(b" row "),
            Piece::Count(row),
            Piece::Text(b" span "),
            Piece::Count(u64::from(span.from)),
            Piece::Text(b":"),
            Piece::Count(u64::from(span.to)),
        ],
    )
}

/// Why a cell of a row's value can't be computed, and the point of the cell, as
/// `fault overflow row 1 at [3,0]`.
pub fn write_cell_fault<K: Sink>(
    sink: &mut K,
    row: u64,
    point: &[i64],
    fault: CellFault,
) -> Result<(), Failed>
    ensures { Writes K.taken K.faults sink.old sink.new result (fault_text_of row point.now fault) }
{
    write_pieces(
        sink,
        &[
            Piece::Text(b"fault "),
            Piece::Text(word_of_cell_fault(fault)),
            Piece::Text(b" row "),
            Piece::Count(row),
            Piece::Text(b" at "),
        ],
    )?;
    write_point(sink, point)
}

fn word_of_check_fault(fault: CheckFault) -> &'static [u8]
    ensures { result.now ≡ check_fault_word fault }
{
    match fault {
        CheckFault::NoCollection => b"no_collection",
        CheckFault::CollectionExists => b"collection_exists",
        CheckFault::NoType => b"no_type",
        CheckFault::NoIterator => b"no_iterator",
        CheckFault::DoubleName => b"double_name",
        CheckFault::NoComponent => b"no_component",
        CheckFault::TypeMismatch => b"type_mismatch",
        CheckFault::DimensionMismatch => b"dimension_mismatch",
        CheckFault::VariableDomain => b"variable_domain",
    }
}

fn word_of_shape_fault(fault: ShapeFault) -> &'static [u8]
    ensures { result.now ≡ shape_fault_word fault }
{
    match fault {
        ShapeFault::Outside => b"outside",
        ShapeFault::DomainsDiffer => b"domains_differ",
        ShapeFault::ExtentsDiffer => b"extents_differ",
        ShapeFault::EmptyDomain => b"empty_domain",
        ShapeFault::BoundOut => b"bound_out",
        ShapeFault::ArrayTooLarge => b"array_too_large",
        ShapeFault::ReplyTooLarge => b"reply_too_large",
        ShapeFault::TooManyTiles => b"too_many_tiles",
        ShapeFault::TooManyRows => b"too_many_rows",
        ShapeFault::TooManyLocks => b"too_many_locks",
    }
}

fn word_of_cell_fault(fault: CellFault) -> &'static [u8]
    ensures { result.now ≡ cell_fault_word fault }
{
    match fault {
        CellFault::Overflow => b"overflow",
        CellFault::DivideByZero => b"divide_by_zero",
        CellFault::CastRange => b"cast_range",
        CellFault::IndexOut => b"index_out",
        CellFault::NullStore => b"null_store",
    }
}
