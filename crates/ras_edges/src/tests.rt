//! Values worked out by hand, and what no clause says: what reaches standard output, what comes
//! from standard input, and that calls which need memory succeed.
use crate::{
    Failed, FailingSink, FailingSource, Gate, GatePlace, GatheringSink, HoldingGate, MemorySink,
    MemorySource, OpenGate, Piece, Sink, Source, StdSink, StdSource, write_pieces, write_whole,
};
use std::alloc::{Allocator, Global};
use std::io::{BufRead, Cursor, Error, ErrorKind, Input, Lines, Read, Result as IoResult, Write};
use std::process::Abort;
use std::test::Fail;

/// A read into a buffer of so many bytes, and what it gives.
type Reading<'a> = (usize, Result<&'a [u8], Failed>);

/// Makes the reads one after another, and compares what each gives.
fn check_readings<S: Source>(rt: &impl Abort, source: &mut S, readings: &[Reading<'_>]) {
    let mut into = [0u8; 64];
    for (i, (room, want)) in readings.iter().enumerate() {
        assert!(rt; *room <= 64);
        let got = match source.read(&mut into[..*room]) {
            Ok(n) => Ok(&into[..n]),
            Err(failed) => Err(failed),
        };
        assert_eq!(rt; got, *want, "at reading {i}");
    }
}

#[test]
fn a_memory_source_gives_its_bytes_by_steps(rt: HostRuntime) -> Result<(), Fail> {
    let cases: [(&[u8], usize, &[Reading<'_>]); 5] = [
        (
            b"abcdefg",
            3,
            &[
                (64, Ok(b"abc")),
                (64, Ok(b"def")),
                (64, Ok(b"g")),
                (64, Ok(b"")),
                (64, Ok(b"")),
            ],
        ),
        (
            b"abcdefg",
            3,
            &[
                (2, Ok(b"ab")),
                (1, Ok(b"c")),
                (64, Ok(b"def")),
                (64, Ok(b"g")),
            ],
        ),
        (
            b"abcdefg",
            16,
            &[
                (0, Ok(b"")),
                (64, Ok(b"abcdefg")),
                (0, Ok(b"")),
                (64, Ok(b"")),
            ],
        ),
        (
            b"abc",
            1,
            &[
                (3, Ok(b"a")),
                (0, Ok(b"")),
                (3, Ok(b"b")),
                (3, Ok(b"c")),
                (3, Ok(b"")),
            ],
        ),
        (b"", 4, &[(8, Ok(b"")), (0, Ok(b""))]),
    ];
    for (bytes, step, readings) in cases {
        assert!(rt; 0 < step);
        let mut source = MemorySource::new(bytes.to_vec(rt.alloc())?, step);
        check_readings(&rt, &mut source, readings);
    }
    Ok(())
}

#[test]
fn a_failing_source_fails_at_the_reads_listed(rt: HostRuntime) -> Result<(), Fail> {
    let cases: [(&[u8], usize, &[u32], &[Reading<'_>]); 4] = [
        (
            b"the first read, the second one, and the rest",
            16,
            &[3],
            &[
                (64, Ok(b"the first read, ")),
                (64, Ok(b"the second one, ")),
                (64, Err(Failed)),
                (64, Ok(b"and the rest")),
                (64, Ok(b"")),
            ],
        ),
        (
            b"ab",
            1,
            &[2, 1, 4],
            &[
                (8, Err(Failed)),
                (8, Err(Failed)),
                (8, Ok(b"a")),
                (8, Err(Failed)),
                (8, Ok(b"b")),
            ],
        ),
        (b"ab", 2, &[0], &[(8, Ok(b"ab")), (8, Ok(b""))]),
        (
            b"",
            2,
            &[2],
            &[(8, Ok(b"")), (8, Err(Failed)), (8, Ok(b""))],
        ),
    ];
    for (bytes, step, failing, readings) in cases {
        assert!(rt; 0 < step);
        let failing = failing.to_vec(rt.alloc())?;
        let mut source = FailingSource::new(bytes.to_vec(rt.alloc())?, step, failing);
        check_readings(&rt, &mut source, readings);
    }
    Ok(())
}

/// A call of a sink, and what it answers.
#[derive(Clone, Copy)]
enum Call<'a> {
    Write(&'a [u8], Result<usize, Failed>),
    Flush(Result<(), Failed>),
}

/// Makes the calls one after another, and compares what each answers.
fn check_calls<K: Sink>(rt: &impl Abort, sink: &mut K, calls: &[Call<'_>]) {
    for (i, call) in calls.iter().enumerate() {
        match *call {
            Call::Write(piece, want) => assert_eq!(rt; sink.write(piece), want, "at call {i}"),
            Call::Flush(want) => assert_eq!(rt; sink.flush(), want, "at call {i}"),
        }
    }
}

#[test]
fn a_memory_sink_takes_what_fits(rt: HostRuntime) -> Result<(), Fail> {
    let cases: [(usize, &[Call<'_>], &[u8]); 3] = [
        (
            5,
            &[
                Call::Write(b"abc", Ok(3)),
                Call::Write(b"", Ok(0)),
                Call::Write(b"defg", Ok(2)),
                Call::Write(b"fg", Err(Failed)),
                Call::Write(b"", Ok(0)),
                Call::Flush(Ok(())),
            ],
            b"abcde",
        ),
        (
            3,
            &[
                Call::Flush(Ok(())),
                Call::Write(b"abc", Ok(3)),
                Call::Write(b"d", Err(Failed)),
            ],
            b"abc",
        ),
        (
            0,
            &[
                Call::Write(b"", Ok(0)),
                Call::Write(b"a", Err(Failed)),
                Call::Flush(Ok(())),
            ],
            b"",
        ),
    ];
    for (room, calls, want) in cases {
        let mut sink = MemorySink::with_room(rt.alloc(), room)?;
        check_calls(&rt, &mut sink, calls);
        assert_eq!(rt; sink.bytes(), want, "with room {room}");
    }
    Ok(())
}

#[test]
fn a_failing_sink_fails_at_the_calls_listed(rt: HostRuntime) -> Result<(), Fail> {
    let cases: [(usize, &[u32], &[Call<'_>], &[u8]); 3] = [
        (
            8,
            &[2, 4],
            &[
                Call::Write(b"abc", Ok(3)),
                Call::Write(b"de", Err(Failed)),
                Call::Write(b"de", Ok(2)),
                Call::Flush(Err(Failed)),
                Call::Flush(Ok(())),
                Call::Write(b"fghi", Ok(3)),
                Call::Write(b"i", Err(Failed)),
                Call::Flush(Ok(())),
            ],
            b"abcdefgh",
        ),
        (
            4,
            &[1, 3],
            &[
                Call::Flush(Err(Failed)),
                Call::Write(b"ab", Ok(2)),
                Call::Write(b"cd", Err(Failed)),
            ],
            b"ab",
        ),
        (
            4,
            &[],
            &[Call::Write(b"abcdef", Ok(4)), Call::Flush(Ok(()))],
            b"abcd",
        ),
    ];
    for (room, failing, calls, want) in cases {
        let mut sink = FailingSink::with_room(rt.alloc(), room, failing.to_vec(rt.alloc())?)?;
        check_calls(&rt, &mut sink, calls);
        assert_eq!(rt; sink.bytes(), want, "with room {room}");
    }
    Ok(())
}

/// A sink whose bytes can be looked at.
trait Shown: Sink {
    fn shown(&self) -> &[u8];
}

impl Shown for MemorySink {
    fn shown(&self) -> &[u8] {
        self.bytes()
    }
}

impl Shown for FailingSink {
    fn shown(&self) -> &[u8] {
        self.bytes()
    }
}

/// Compares what became of the text in the sink.
fn check_whole<K: Shown>(
    rt: &impl Abort,
    sink: &mut K,
    text: &[u8],
    want: Result<(), Failed>,
    left: &[u8],
) {
    assert_eq!(rt; write_whole(sink, text), want);
    assert_eq!(rt; sink.shown(), left);
}

/// Compares what became of the pieces in the sink.
fn check_pieces<K: Shown>(
    rt: &impl Abort,
    sink: &mut K,
    pieces: &[Piece<'_>],
    want: Result<(), Failed>,
    left: &[u8],
) {
    assert_eq!(rt; write_pieces(sink, pieces), want);
    assert_eq!(rt; sink.shown(), left);
}

#[test]
fn a_text_is_written_whole_or_up_to_a_fault(rt: HostRuntime) -> Result<(), Fail> {
    let cases: [(&[u8], usize, &[u32], Result<(), Failed>, &[u8]); 6] = [
        (b"a whole text", 12, &[], Ok(()), b"a whole text"),
        (b"a whole text", 100, &[2], Ok(()), b"a whole text"),
        (b"a whole text", 10, &[], Err(Failed), b"a whole te"),
        (b"a whole text", 100, &[1], Err(Failed), b""),
        (b"a", 0, &[], Err(Failed), b""),
        (b"", 0, &[], Ok(()), b""),
    ];
    for (text, room, failing, want, left) in cases {
        if failing.is_empty() {
            let mut sink = MemorySink::with_room(rt.alloc(), room)?;
            check_whole(&rt, &mut sink, text, want, left);
        }
        let mut sink = FailingSink::with_room(rt.alloc(), room, failing.to_vec(rt.alloc())?)?;
        check_whole(&rt, &mut sink, text, want, left);
    }
    Ok(())
}

#[test]
fn pieces_are_written_in_turn_or_up_to_a_fault(rt: HostRuntime) -> Result<(), Fail> {
    let pieces = [
        Piece::Text(b"["),
        Piece::Number(&i64::MIN),
        Piece::Text(b", "),
        Piece::Number(&-1),
        Piece::Text(b""),
        Piece::Text(b", "),
        Piece::Number(&0),
        Piece::Text(b", "),
        Piece::Count(u64::MAX),
        Piece::Text(b"]\n"),
    ];
    let whole = b"[-9223372036854775808, -1, 0, 18446744073709551615]\n";
    let cases: [(usize, &[u32], Result<(), Failed>, &[u8]); 5] = [
        (100, &[], Ok(()), whole),
        (52, &[], Ok(()), whole),
        (
            51,
            &[],
            Err(Failed),
            b"[-9223372036854775808, -1, 0, 18446744073709551615]",
        ),
        (10, &[], Err(Failed), b"[-92233720"),
        (100, &[4], Err(Failed), b"[-9223372036854775808, "),
    ];
    for (room, failing, want, left) in cases {
        if failing.is_empty() {
            let mut sink = MemorySink::with_room(rt.alloc(), room)?;
            check_pieces(&rt, &mut sink, &pieces, want, left);
        }
        let mut sink = FailingSink::with_room(rt.alloc(), room, failing.to_vec(rt.alloc())?)?;
        check_pieces(&rt, &mut sink, &pieces, want, left);
    }
    Ok(())
}

/// Passes the gate at each kind of place.
fn pass_all<G: Gate>(gate: &G) {
    for place in [
        GatePlace::Evaluate {
            session: 1,
            statement: 2,
        },
        GatePlace::Answered {
            session: 1,
            statement: 2,
        },
        GatePlace::PieceStart { piece: 3 },
        GatePlace::PieceDone { piece: 3 },
    ] {
        gate.pass(place);
    }
}

#[test]
fn an_open_gate_holds_nobody() {
    pass_all(&OpenGate);
}

#[test]
fn a_holding_gate_expires_where_nobody_opens_it(rt: HostRuntime) {
    let held = GatePlace::PieceStart { piece: 1 };
    let until = GatePlace::PieceDone { piece: 2 };
    let others = [
        GatePlace::Evaluate {
            session: 1,
            statement: 2,
        },
        GatePlace::PieceStart { piece: 2 },
        GatePlace::PieceDone { piece: 1 },
    ];
    let cases: [(&[GatePlace], bool); 6] = [
        (&[], false),
        (&[held], true),
        (&[until, held, held], false),
        (&[others[0], others[1], others[2], until], false),
        (&[others[0], others[1], others[2], held], true),
        (&[held, until, held], true),
    ];
    for (places, want) in cases {
        let gate = HoldingGate::new(held, until, 1000);
        for place in places {
            gate.pass(*place);
        }
        assert_eq!(rt; gate.expired(), want, "after {places:?}");
    }
}

/// A reader and a writer of bytes in memory, at most three a call, that fails at one call.
#[derive(Drop)]
struct Stuttering<B> {
    bytes: B,
    calls: u32,
    failing: u32,
}

impl<B> Stuttering<B> {
    /// Counts a call, and fails where it is the one.
    fn call(&mut self) -> IoResult<()> {
        self.calls = self.calls.saturating_add(1);
        if self.calls == self.failing {
            return Err(Error::from(ErrorKind::Other));
        }
        Ok(())
    }
}

impl<B: Read> Read for Stuttering<B> {
    fn read(&mut self, into: &mut [u8]) -> IoResult<usize> {
        self.call()?;
        let room = into.len().min(3);
        self.bytes.read(&mut into[..room])
    }
}

impl<B: BufRead> BufRead for Stuttering<B> {
    fn fill_buf(&mut self) -> IoResult<&[u8]> {
        self.call()?;
        self.bytes.fill_buf()
    }

    fn consume(&mut self, amount: usize) {
        self.bytes.consume(amount);
    }
}

impl Write for Stuttering<Vec<u8>> {
    fn write(&mut self, piece: &[u8]) -> IoResult<usize> {
        self.call()?;
        let n = piece.len().min(3);
        self.bytes.write(&piece[..n])
    }

    fn flush(&mut self) -> IoResult<()> {
        self.call()
    }
}

/// A runtime whose standard input is the first seven letters, and fails at one read.
#[derive(Drop)]
struct Letters {
    failing: u32,
}

impl Input for Letters {
    type Reader = Stuttering<Cursor<[u8; 7]>>;

    fn read_line<A: Allocator + Clone>(&self, line: &mut String<A>) -> IoResult<usize> {
        self.reader().read_line(line)
    }

    fn lines<A: Allocator>(&self, alloc: A) -> Lines<Stuttering<Cursor<[u8; 7]>>, A> {
        self.reader().lines(alloc)
    }

    fn reader(&self) -> Stuttering<Cursor<[u8; 7]>> {
        Stuttering {
            bytes: Cursor::new(*b"abcdefg"),
            calls: 0,
            failing: self.failing,
        }
    }
}

/// A writer with no bytes yet.
fn stuttering_writer(alloc: Global, failing: u32) -> Stuttering<Vec<u8>> {
    Stuttering {
        bytes: Vec::new(alloc),
        calls: 0,
        failing,
    }
}

#[test]
fn a_gathering_sink_loses_nothing_at_a_fault(rt: HostRuntime) {
    let cases: [(u32, &[Call<'_>], &[u8]); 4] = [
        (
            0,
            &[Call::Write(b"abc", Ok(3)), Call::Write(b"d", Ok(1))],
            b"",
        ),
        (
            0,
            &[
                Call::Write(b"abcd", Ok(4)),
                Call::Write(b"", Ok(0)),
                Call::Flush(Ok(())),
            ],
            b"abcd",
        ),
        (
            2,
            &[
                Call::Write(b"abcdefg", Ok(7)),
                Call::Flush(Err(Failed)),
                Call::Write(b"h", Ok(1)),
                Call::Flush(Ok(())),
            ],
            b"abcdefgh",
        ),
        (
            3,
            &[
                Call::Write(b"abcd", Ok(4)),
                Call::Flush(Err(Failed)),
                Call::Flush(Ok(())),
            ],
            b"abcd",
        ),
    ];
    for (failing, calls, want) in cases {
        let mut writer = stuttering_writer(rt.alloc(), failing);
        check_calls(&rt, &mut GatheringSink::over(&mut writer), calls);
        assert_eq!(rt; writer.bytes.as_slice(), want, "failing at call {failing}");
    }
}

#[test]
fn a_full_gathering_sink_makes_room(rt: HostRuntime) -> Result<(), Fail> {
    let text = vec![in rt.alloc(); b'x'; 5000]?;
    for (flushes, want) in [(false, 4096), (true, 5000)] {
        let mut writer = stuttering_writer(rt.alloc(), 0);
        let mut sink = GatheringSink::over(&mut writer);
        assert_eq!(rt; write_whole(&mut sink, text.as_slice()), Ok(()));
        if flushes {
            assert_eq!(rt; sink.flush(), Ok(()));
        }
        drop(sink);
        assert_eq!(rt; writer.bytes.len(), want);
    }
    Ok(())
}

#[test]
fn standard_input_goes_on_after_a_fault(rt: HostRuntime) {
    let readings: [Reading<'_>; 6] = [
        (64, Ok(b"abc")),
        (2, Ok(b"de")),
        (64, Err(Failed)),
        (0, Ok(b"")),
        (64, Ok(b"fg")),
        (64, Ok(b"")),
    ];
    let letters = Letters { failing: 3 };
    check_readings(&rt, &mut StdSource::new(&letters), &readings);
}

/// A read of no bytes, which doesn't wait for any.
#[test]
fn standard_input_gives_no_bytes_where_none_are_asked_for(rt: HostRuntime) {
    check_readings(&rt, &mut StdSource::new(&rt), &[(0, Ok(b""))]);
}

#[test]
fn standard_output_takes_a_line(rt: HostRuntime) {
    let mut sink = StdSink::new(&rt);
    assert_eq!(rt; write_whole(&mut sink, b"a line of the tests\n"), Ok(()));
    assert_eq!(rt; sink.flush(), Ok(()));
}
