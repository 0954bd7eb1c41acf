//! The text of each fault.
use ras_cells::CellFault;
use ras_edges::MemorySink;
use ras_report::{write_cell_fault, write_check_fault, write_shape_fault, write_syntax_fault};
use ras_syntax::{CheckFault, ShapeFault, Span, SyntaxFault};
use std::alloc::Allocator;
use std::test::Fail;

/// Room for each text.
const ROOM: usize = 128;

const SPAN: Span = Span {
    from: 7,
    to: 4_294_967_295,
};

const SYNTAX: [(SyntaxFault, &str); 5] = [
    (
        SyntaxFault::Unexpected { place: 0 },
        "syntax unexpected at 0",
    ),
    (
        SyntaxFault::NumberTooWide { place: 9 },
        "syntax number_too_wide at 9",
    ),
    (SyntaxFault::TooDeep { place: 10 }, "syntax too_deep at 10"),
    (
        SyntaxFault::UnknownName {
            place: 4_294_967_295,
        },
        "syntax unknown_name at 4294967295",
    ),
    (
        SyntaxFault::FloatRefused { place: 100 },
        "syntax float_refused at 100",
    ),
];

const CHECK: [(CheckFault, &str); 9] = [
    (CheckFault::NoCollection, "no_collection"),
    (CheckFault::CollectionExists, "collection_exists"),
    (CheckFault::NoType, "no_type"),
    (CheckFault::NoIterator, "no_iterator"),
    (CheckFault::DoubleName, "double_name"),
    (CheckFault::NoComponent, "no_component"),
    (CheckFault::TypeMismatch, "type_mismatch"),
    (CheckFault::DimensionMismatch, "dimension_mismatch"),
    (CheckFault::VariableDomain, "variable_domain"),
];

const SHAPE: [(ShapeFault, &str); 10] = [
    (ShapeFault::Outside, "outside"),
    (ShapeFault::DomainsDiffer, "domains_differ"),
    (ShapeFault::ExtentsDiffer, "extents_differ"),
    (ShapeFault::EmptyDomain, "empty_domain"),
    (ShapeFault::BoundOut, "bound_out"),
    (ShapeFault::ArrayTooLarge, "array_too_large"),
    (ShapeFault::ReplyTooLarge, "reply_too_large"),
    (ShapeFault::TooManyTiles, "too_many_tiles"),
    (ShapeFault::TooManyRows, "too_many_rows"),
    (ShapeFault::TooManyLocks, "too_many_locks"),
];

const CELL: [(CellFault, &[i64], &str); 5] = [
    (CellFault::Overflow, &[], "fault overflow row 3 at []"),
    (
        CellFault::DivideByZero,
        &[0],
        "fault divide_by_zero row 3 at [0]",
    ),
    (
        CellFault::CastRange,
        &[-1, 2],
        "fault cast_range row 3 at [-1,2]",
    ),
    (
        CellFault::IndexOut,
        &[2_147_483_647, -2_147_483_648, 0],
        "fault index_out row 3 at [2147483647,-2147483648,0]",
    ),
    (
        CellFault::NullStore,
        &[1, 2, 3, 4, 5, 6],
        "fault null_store row 3 at [1,2,3,4,5,6]",
    ),
];

#[test]
fn syntax_faults_have_their_texts(rt: HostRuntime) -> Result<(), Fail> {
    for (fault, want) in SYNTAX {
        let mut sink = MemorySink::with_room(rt.alloc(), ROOM)?;
        assert_eq!(rt; write_syntax_fault(&mut sink, fault), Ok(()));
        assert_eq!(rt; sink.bytes(), want.as_bytes());
    }
    Ok(())
}

#[test]
fn check_faults_have_their_texts(rt: HostRuntime) -> Result<(), Fail> {
    for (fault, word) in CHECK {
        let want = format!(in rt.alloc(); "check {word} span 7:4294967295")?;
        let mut sink = MemorySink::with_room(rt.alloc(), ROOM)?;
        assert_eq!(rt; write_check_fault(&mut sink, SPAN, fault), Ok(()));
        assert_eq!(rt; sink.bytes(), want.as_bytes());
    }
    Ok(())
}

#[test]
fn shape_faults_have_their_texts(rt: HostRuntime) -> Result<(), Fail> {
    for (fault, word) in SHAPE {
        let want = format!(in rt.alloc(); "shape {word} row 65536 span 7:4294967295")?;
        let mut sink = MemorySink::with_room(rt.alloc(), ROOM)?;
        assert_eq!(rt; write_shape_fault(&mut sink, 65_536, SPAN, fault), Ok(()));
        assert_eq!(rt; sink.bytes(), want.as_bytes());
    }
    Ok(())
}

#[test]
fn cell_faults_have_their_texts(rt: HostRuntime) -> Result<(), Fail> {
    for (fault, point, want) in CELL {
        let mut sink = MemorySink::with_room(rt.alloc(), ROOM)?;
        assert_eq!(rt; write_cell_fault(&mut sink, 3, point, fault), Ok(()));
        assert_eq!(rt; sink.bytes(), want.as_bytes());
    }
    Ok(())
}
