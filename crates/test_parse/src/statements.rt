use ras_parse::{ParseFault, parse_statement};
use ras_syntax::{ExprForm, Span, StatementForm, SyntaxFault};
use std::alloc::AllocError;
use std::process::Abort;
use std::test::Fail;

const MIB: usize = 1_048_576;

type Told = Result<Span, ParseFault>;

/// The span of the body, or of the collection's name where there is no body.
fn main_span(form: &StatementForm) -> Span {
    match form {
        StatementForm::Select { body, .. } => body.span,
        StatementForm::Insert { body, .. } => body.span,
        StatementForm::Update { body, .. } => body.span,
        StatementForm::Delete { source, .. } => source.collection.span,
        StatementForm::Create { name, .. } => name.span,
        StatementForm::Drop { name } => name.span,
        StatementForm::Word(_) => span(0, 0),
    }
}

fn told(rt: &(impl Abort + AllocGlobal), text: &[u8]) -> Told {
    assert!(rt; text.len() < 4_294_967_296);
    let statement = parse_statement(rt.alloc(), text)?;
    Ok(main_span(&statement.form))
}

/// The spans of both operands of a select's body.
fn spans_of_operands(form: &StatementForm) -> Option<(Span, Span)> {
    let StatementForm::Select { body, .. } = form else {
        return None;
    };
    let ExprForm::Binary { a, b, .. } = &body.form else {
        return None;
    };
    Some((a.get().span, b.get().span))
}

fn operands(
    rt: &(impl Abort + AllocGlobal),
    text: &[u8],
) -> Result<Option<(Span, Span)>, ParseFault> {
    assert!(rt; text.len() < 4_294_967_296);
    let statement = parse_statement(rt.alloc(), text)?;
    Ok(spans_of_operands(&statement.form))
}

fn span(from: u32, to: u32) -> Span {
    Span { from, to }
}

fn unexpected(place: u32) -> Told {
    Err(ParseFault::Fault(SyntaxFault::Unexpected { place }))
}

fn too_deep(place: u32) -> Told {
    Err(ParseFault::Fault(SyntaxFault::TooDeep { place }))
}

fn too_wide(place: u32) -> Told {
    Err(ParseFault::Fault(SyntaxFault::NumberTooWide { place }))
}

fn float(place: u32) -> Told {
    Err(ParseFault::Fault(SyntaxFault::FloatRefused { place }))
}

fn unknown(place: u32) -> Told {
    Err(ParseFault::Fault(SyntaxFault::UnknownName { place }))
}

#[test]
fn each_form_is_read(rt: HostRuntime) {
    let table = [
        ("select 1", Ok(span(7, 8))),
        ("select a[*:1,2:*,3,*:*][0][1:2].r.0", Ok(span(7, 35))),
        (
            "select case when a.1 < 2 then (octet) 1 else -2 end from A as a, B where not true",
            Ok(span(7, 51)),
        ),
        (
            "select concat shift(a,[1,-1]) with extend(b,[0:1,2:3]) with extend(c,sdom(a)) along 1",
            Ok(span(7, 85)),
        ),
        (
            "select condense + over x in sdom(a) where a[x] > 1 using a[x]",
            Ok(span(7, 61)),
        ),
        ("select struct {1} and not oid(a) or true", Ok(span(7, 40))),
        (
            "-- all\r\nSELECT\tMin_Cells (A. r [0]) -- of one\nFrom G AS A",
            Ok(span(15, 35)),
        ),
        (
            "insert into G values marray p in [0:15] values mod(p[0],256)",
            Ok(span(21, 60)),
        ),
        (
            "DELETE\tfrom G as a where some_cells(a.1)",
            Ok(span(12, 13)),
        ),
        (
            "update G as a set a[0,1:*] assign {1, a.r} where oid(a) = 2",
            Ok(span(34, 42)),
        ),
        (
            "update G set G assign struct {0, {true, false}}",
            Ok(span(22, 47)),
        ),
        ("create collection G Grey", Ok(span(18, 19))),
        ("drop collection G", Ok(span(16, 17))),
        ("begin Retry 1000", Ok(span(0, 0))),
        ("Commit -- at once\n ANYWAY", Ok(span(0, 0))),
        ("abort", Ok(span(0, 0))),
    ];
    for (text, want) in table {
        assert_eq!(rt; told(&rt, text.as_bytes()), want, "{text}");
    }
}

#[test]
fn the_first_fault_is_told(rt: HostRuntime) {
    let table = [
        ("", unexpected(0)),
        (" -- nothing", unexpected(11)),
        ("select a from", unexpected(13)),
        ("select a as b from G", unexpected(9)),
        ("select a.min from R as a", unexpected(9)),
        ("select a.1c from R as a", unexpected(9)),
        ("select {1,2,3,4,5,6,7,8,9}", unexpected(23)),
        ("select 1 < 2 < 3", unexpected(13)),
        ("select 1 + condense", unexpected(11)),
        ("select concat a with b with c along 0c", unexpected(36)),
        ("begin retry 1001;", unexpected(12)),
        ("begin retry 0", unexpected(12)),
        ("begin retry 5s", unexpected(12)),
        ("abort abort", unexpected(6)),
        // The fault of a later token's own isn't told.
        ("select from 300c", unexpected(7)),
        ("select 300c from", too_wide(7)),
        ("select 9223372036854775808", too_wide(7)),
        ("select a / 2 from G as a", float(9)),
        ("select avg_cells(a) from G as a", float(7)),
        ("drop collection G /", float(18)),
        ("select foo(1)", unknown(7)),
    ];
    for (text, want) in table {
        assert_eq!(rt; told(&rt, text.as_bytes()), want, "{text}");
    }
}

#[test]
fn chains_group_to_the_left(rt: HostRuntime) {
    let table = [
        ("select 1-2-3", (span(7, 10), span(11, 12))),
        // Parentheses belong to the span of what stands round them.
        ("select 1-(2-3)", (span(7, 8), span(10, 13))),
        ("select 1+2*3", (span(7, 8), span(9, 12))),
        ("select a xor b or c", (span(7, 14), span(18, 19))),
    ];
    for (text, want) in table {
        assert_eq!(rt; operands(&rt, text.as_bytes()), Ok(Some(want)), "{text}");
    }
}

/// A front, so many times a piece, and a back.
fn joined(
    rt: &impl AllocGlobal,
    front: &[u8],
    piece: &[u8],
    times: usize,
    back: &[u8],
) -> Result<Vec<u8>, AllocError> {
    let mut text = Vec::from_slice(rt.alloc(), front)?;
    for _ in 0..times {
        text.extend_from_slice(piece)?;
    }
    text.extend_from_slice(back)?;
    Ok(text)
}

#[test]
fn nesting_is_bounded(rt: HostRuntime) -> Result<(), Fail> {
    for (pairs, want) in [(63, Ok(span(70, 71))), (64, too_deep(70))] {
        let front = joined(&rt, b"select ", b"(", pairs, b"1")?;
        let text = joined(&rt, &front, b")", pairs, b"")?;
        assert_eq!(rt; told(&rt, &text), want, "{pairs}");
    }
    // Where the 128th token that weighs is wrong, that is told.
    let table: [(&[u8], Told); 3] = [
        (b"a", Ok(span(7, 516))),
        (b"not", too_deep(515)),
        (b"=", unexpected(515)),
    ];
    for (back, want) in table {
        let text = joined(&rt, b"select ", b"not ", 127, back)?;
        assert_eq!(rt; told(&rt, &text), want, "{back:?}");
    }
    // As deep as there may be, and cut off there.
    let table: [(&[u8], usize, Told); 3] = [
        (b"case when ", 127, unexpected(1277)),
        (b"- ", 127, unexpected(261)),
        (b"a[", 63, unexpected(133)),
    ];
    for (piece, times, want) in table {
        let text = joined(&rt, b"select ", piece, times, b"")?;
        assert_eq!(rt; told(&rt, &text), want, "{piece:?}");
    }
    Ok(())
}

#[test]
fn statements_of_a_mebibyte_are_read(rt: HostRuntime) -> Result<(), Fail> {
    let table: [(&[u8], &[u8], usize, Told); 5] = [
        (b"select ", b"(", MIB, too_deep(70)),
        (b"select a from a", b",a", MIB / 2, Ok(span(7, 8))),
        (b"select ", b"9", MIB, too_wide(7)),
        (b"select ", b"a", MIB, Ok(span(7, 1_048_583))),
        (b"select 1", b"--", MIB / 2, Ok(span(7, 8))),
    ];
    for (front, piece, times, want) in table {
        let text = joined(&rt, front, piece, times, b"")?;
        assert_eq!(rt; told(&rt, &text), want, "{piece:?}");
    }
    Ok(())
}
