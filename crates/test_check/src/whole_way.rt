//! The whole way from a text to a typed statement, as the README of `ras_check` shows it, and statements with many
//! sources.
use crate::accepted::kind_in;
use crate::told::{checked, types_of};
use ras_check::{CheckError, check};
use ras_domain::Name;
use ras_parse::parse_statement;
use ras_syntax::{CheckFault, Span};
use std::alloc::{AllocError, Global};
use std::test::Fail;

#[test]
fn a_text_becomes_a_typed_statement(rt: HostRuntime) -> Result<(), Fail> {
    let alloc = rt.alloc();
    let types = types_of(alloc)?;
    let collections = [(Name::of(alloc, b"G")?, Some(0))];
    let text = b"select a + 1 from G as a where some_cells(a > 2)";
    let statement = parse_statement(alloc, text)?;
    let checked = check(alloc, &statement, &types, &collections)?;
    // An array of wide numbers with two axes.
    let kind = kind_in(alloc, &checked.form)?;
    assert_eq!(rt; kind.as_str(), "Array { cell: Atom(Wide), axes: 2 }");
    Ok(())
}

/// `select a from G as a, G as b0000, ..` with ten thousand sources after the first, and this at the end.
fn many_sources(alloc: Global, end: &[u8]) -> Result<Vec<u8>, AllocError> {
    let mut text = Vec::from_slice(alloc, b"select a from G as a")?;
    for number in 0..10_000u32 {
        text.extend_from_slice(b", G as b")?;
        text.push(b'0' + (number / 1000 % 10) as u8)?;
        text.push(b'0' + (number / 100 % 10) as u8)?;
        text.push(b'0' + (number / 10 % 10) as u8)?;
        text.push(b'0' + (number % 10) as u8)?;
    }
    text.extend_from_slice(end)?;
    Ok(text)
}

#[test]
fn ten_thousand_sources_are_accepted(rt: HostRuntime) -> Result<(), Fail> {
    let text = many_sources(rt.alloc(), b"")?;
    assert_eq!(rt; checked(&rt, &text).err(), None);
    Ok(())
}

#[test]
fn the_last_of_ten_thousand_sources_is_missing(rt: HostRuntime) -> Result<(), Fail> {
    let text = many_sources(rt.alloc(), b", H")?;
    // 20 bytes, 12 for each source, and 2 before the name.
    let span = Span {
        from: 120_022,
        to: 120_023,
    };
    let wanted = CheckError::Fault {
        span,
        fault: CheckFault::NoCollection,
    };
    assert_eq!(rt; checked(&rt, &text).err(), Some(wanted));
    Ok(())
}
