//! Reports worked out by hand, what a sink without room for all takes of them, and that calls which
//! need memory succeed.
use crate::cases::{Case, EACH, EMPTY, LOOSE, MET, ROWS, TRIM};
use crate::made::{outcome_of, scripts_of};
use crate::once::may_be_reported;
use ras_edges::{Failed, MemorySink};
use ras_report::write_report;
use std::alloc::{AllocError, Allocator, Global};
use std::test::Fail;

/// All cases.
const CASES: [&Case; 6] = [&EMPTY, &TRIM, &MET, &EACH, &ROWS, &LOOSE];

/// Room for each of the reports.
const ROOM: usize = 4096;

/// What a sink with so much room takes of a case's report, and whether it took all.
fn reported(
    alloc: Global,
    case: &Case,
    room: usize,
) -> Result<(MemorySink, Result<(), Failed>), Fail> {
    let (names, lines, events, _) = *case;
    let scripts = scripts_of(alloc, names)?;
    let outcome = outcome_of(alloc, lines, events)?;
    let mut sink = MemorySink::with_room(alloc, room)?;
    if may_be_reported(&outcome) {
        let result = write_report(scripts.as_slice(), &outcome, &mut sink);
        return Ok((sink, result));
    }
    Err(Fail::from(AllocError))
}

#[test]
fn reports_are_as_worked_out(rt: HostRuntime) -> Result<(), Fail> {
    for case in CASES {
        let (sink, result) = reported(rt.alloc(), case, ROOM)?;
        assert_eq!(rt; result, Ok(()));
        assert_eq!(rt; sink.bytes(), case.3.as_bytes());
    }
    Ok(())
}

#[test]
fn a_sink_without_room_takes_a_front(rt: HostRuntime) -> Result<(), Fail> {
    for case in CASES {
        let whole = case.3.as_bytes();
        for room in [0, 1, 14, 15, 30, whole.len() / 2, whole.len() - 1] {
            if room < whole.len() {
                let (sink, result) = reported(rt.alloc(), case, room)?;
                assert_eq!(rt; result, Err(Failed));
                assert_eq!(rt; sink.bytes(), &whole[..room]);
            }
        }
    }
    Ok(())
}
