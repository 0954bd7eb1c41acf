use ras_cells::Atom;
use ras_parse::lexer::next_token;
use ras_parse::reading::{Behind, Front, front_of};
use ras_parse::token::{Next, Token, TokenKind};
use ras_parse::{ParseFault, session_word, tokens};
use ras_syntax::{Span, SyntaxFault, Word};
use std::alloc::AllocError;
use std::process::Abort;
use std::test::Fail;

/// The words that are no names.
const WORDS: &str =
    "select from where as insert into values update set assign delete create drop collection marray in condense over using case when then else end overlay concat with along and or xor not true false struct shift extend sdom oid div mod abs bit min max add_cells min_cells max_cells count_cells some_cells all_cells bool boolean octet char short ushort long ulong wide unsigned begin retry commit anyway abort";

const MIB: usize = 1_048_576;

fn read(rt: &(impl Abort + AllocGlobal), text: &[u8]) -> Result<Vec<Token>, ParseFault> {
    assert!(rt; text.len() < 4_294_967_296);
    tokens(rt.alloc(), text)
}

fn read_front(rt: &(impl Abort + AllocGlobal), text: &[u8]) -> Result<Front, AllocError> {
    assert!(rt; text.len() < 4_294_967_296);
    front_of(rt.alloc(), text)
}

fn word(rt: &impl Abort, text: &[u8]) -> Option<Word> {
    assert!(rt; text.len() < 4_294_967_296);
    session_word(text)
}

fn repeated(rt: &impl AllocGlobal, piece: &[u8], times: usize) -> Result<Vec<u8>, AllocError> {
    let mut text = Vec::new(rt.alloc());
    for _ in 0..times {
        text.extend_from_slice(piece)?;
    }
    Ok(text)
}

fn token(kind: TokenKind, from: u32, to: u32) -> Token {
    let span = Span { from, to };
    Token { kind, span }
}

fn number(value: i64, atom: Atom, from: u32, to: u32) -> Token {
    token(TokenKind::Number { value, atom }, from, to)
}

#[test]
fn each_sign_is_a_token(rt: HostRuntime) -> Result<(), Fail> {
    for sign in "( ) [ ] { } , : . + - * = != < <= > >=".split(' ') {
        let len = sign.len() as u32;
        let found = read(&rt, sign.as_bytes())?;
        assert_eq!(rt;
            found.as_slice(),
            [token(TokenKind::Sign, 0, len)].as_slice(),
            "{sign}"
        );
    }
    Ok(())
}

#[test]
fn each_word_is_reserved_in_any_letters(rt: HostRuntime) -> Result<(), Fail> {
    assert_eq!(rt; WORDS.split(' ').count(), 66);
    for word in WORDS.split(' ') {
        let want = [token(TokenKind::Reserved, 0, word.len() as u32)];
        let large = word.to_ascii_uppercase(rt.alloc())?;
        assert_eq!(rt;
            read(&rt, word.as_bytes())?.as_slice(),
            want.as_slice(),
            "{word}"
        );
        assert_eq!(rt;
            read(&rt, large.as_bytes())?.as_slice(),
            want.as_slice(),
            "{large}"
        );
    }
    Ok(())
}

#[test]
fn tokens_have_their_places_and_values(rt: HostRuntime) -> Result<(), Fail> {
    let table: [(&str, &[Token]); 12] = [
        ("", &[]),
        (" \t\r\n-- 1 / 2", &[]),
        (
            "a--\n_B9 -- b",
            &[token(TokenKind::Name, 0, 1), token(TokenKind::Name, 4, 7)],
        ),
        ("sElEcTs", &[token(TokenKind::Name, 0, 7)]),
        ("Float", &[token(TokenKind::Name, 0, 5)]),
        (
            "mod (",
            &[
                token(TokenKind::Reserved, 0, 3),
                token(TokenKind::Sign, 4, 5),
            ],
        ),
        (
            "<=<>=",
            &[
                token(TokenKind::Sign, 0, 2),
                token(TokenKind::Sign, 2, 3),
                token(TokenKind::Sign, 3, 5),
            ],
        ),
        (
            "- -1",
            &[
                token(TokenKind::Sign, 0, 1),
                token(TokenKind::Sign, 2, 3),
                number(1, Atom::Wide, 3, 4),
            ],
        ),
        (
            "255c 127o 32767s",
            &[
                number(255, Atom::Char, 0, 4),
                number(127, Atom::Octet, 5, 9),
                number(32_767, Atom::Short, 10, 16),
            ],
        ),
        (
            "65535us 2147483647l",
            &[
                number(65_535, Atom::Ushort, 0, 7),
                number(2_147_483_647, Atom::Long, 8, 19),
            ],
        ),
        (
            "4294967295ul\n007",
            &[
                number(4_294_967_295, Atom::Ulong, 0, 12),
                number(7, Atom::Wide, 13, 16),
            ],
        ),
        (
            "9223372036854775807",
            &[number(9_223_372_036_854_775_807, Atom::Wide, 0, 19)],
        ),
    ];
    for (text, want) in table {
        assert_eq!(rt; read(&rt, text.as_bytes())?.as_slice(), want, "{text}");
    }
    Ok(())
}

#[test]
fn each_own_fault_is_told_at_its_place(rt: HostRuntime) {
    let table = [
        (
            "9223372036854775808",
            SyntaxFault::NumberTooWide { place: 0 },
        ),
        (" 256c", SyntaxFault::NumberTooWide { place: 1 }),
        ("a 128o", SyntaxFault::NumberTooWide { place: 2 }),
        ("32768s", SyntaxFault::NumberTooWide { place: 0 }),
        ("65536us", SyntaxFault::NumberTooWide { place: 0 }),
        ("2147483648l", SyntaxFault::NumberTooWide { place: 0 }),
        ("4294967296ul", SyntaxFault::NumberTooWide { place: 0 }),
        ("300cx", SyntaxFault::NumberTooWide { place: 0 }),
        ("select a / 2", SyntaxFault::FloatRefused { place: 9 }),
        ("1.5", SyntaxFault::FloatRefused { place: 0 }),
        ("a.1.2", SyntaxFault::FloatRefused { place: 2 }),
        ("1e5", SyntaxFault::FloatRefused { place: 0 }),
        ("1cd", SyntaxFault::FloatRefused { place: 0 }),
        ("-- sqrt\nsqrt", SyntaxFault::FloatRefused { place: 8 }),
        ("avg_cells(a)", SyntaxFault::FloatRefused { place: 0 }),
        ("1 foo -- (\n (", SyntaxFault::UnknownName { place: 2 }),
        ("Sqrt(4)", SyntaxFault::UnknownName { place: 0 }),
        ("1E5", SyntaxFault::Unexpected { place: 0 }),
        ("1cx", SyntaxFault::Unexpected { place: 0 }),
        ("1_", SyntaxFault::Unexpected { place: 0 }),
        ("a !", SyntaxFault::Unexpected { place: 2 }),
        ("a; / 1.5", SyntaxFault::Unexpected { place: 1 }),
    ];
    for (text, want) in table {
        let found = match read(&rt, text.as_bytes()) {
            Err(ParseFault::Fault(fault)) => Some(fault),
            _ => None,
        };
        assert_eq!(rt; found, Some(want), "{text}");
    }
}

#[test]
fn next_tokens_are_found_behind_any_place(rt: HostRuntime) {
    let text = b"a -- b\n+ \xff";
    assert_eq!(rt;
        next_token(text, 0),
        Next::Token(token(TokenKind::Name, 0, 1))
    );
    assert_eq!(rt;
        next_token(text, 1),
        Next::Token(token(TokenKind::Sign, 7, 8))
    );
    assert_eq!(rt;
        next_token(text, 8),
        Next::Fault(SyntaxFault::Unexpected { place: 9 })
    );
    assert_eq!(rt; next_token(text, 10), Next::End);
}

#[test]
fn session_words_are_read(rt: HostRuntime) {
    let table = [
        ("begin", Word::Begin { retry: 0 }),
        (" BEGIN -- all\n", Word::Begin { retry: 0 }),
        ("begin retry 1", Word::Begin { retry: 1 }),
        ("begin Retry 007", Word::Begin { retry: 7 }),
        ("begin--\nretry--\n1000--", Word::Begin { retry: 1000 }),
        ("commit", Word::Commit { anyway: false }),
        ("Commit anyWAY", Word::Commit { anyway: true }),
        ("\tabort\r\n", Word::Abort),
    ];
    for (text, want) in table {
        assert_eq!(rt; word(&rt, text.as_bytes()), Some(want), "{text}");
    }
}

#[test]
fn near_misses_are_no_session_words(rt: HostRuntime) {
    let table = [
        "",
        "-- begin",
        "begins",
        "begin;",
        "begin retry",
        "begin retry 0",
        "begin retry 1001",
        "begin retry 5s",
        "begin retry -1",
        "begin retry 9223372036854775808",
        "begin retry 5 5",
        "begin retry 5 /",
        "begin 5",
        "begin (",
        "begin commit",
        "begin anyway",
        "retry 5",
        "commit retry 5",
        "commit abort",
        "commit anyway 1",
        "commit anyway %",
        "anyway",
        "abort anyway",
        "abort abort",
        "abort /",
        "select 1",
        "drop collection G",
    ];
    for text in table {
        assert_eq!(rt; word(&rt, text.as_bytes()), None, "{text}");
    }
}

#[test]
fn texts_of_a_mebibyte_are_read(rt: HostRuntime) -> Result<(), Fail> {
    let table: [(&[u8], usize, usize); 6] = [
        (b"(", MIB, MIB),
        (b",", MIB, MIB),
        (b"a ", MIB / 2, MIB / 2),
        (b"a", MIB, 1),
        (b"--", MIB / 2, 0),
        (b"-- a\n \t\r", MIB / 8, 0),
    ];
    for (piece, times, want) in table {
        let text = repeated(&rt, piece, times)?;
        assert_eq!(rt; text.len(), MIB);
        assert_eq!(rt; read(&rt, &text)?.len(), want, "{piece:?}");
        assert_eq!(rt; word(&rt, &text), None);
    }
    Ok(())
}

#[test]
fn long_numbers_are_read(rt: HostRuntime) -> Result<(), Fail> {
    let nines = repeated(&rt, b"9", MIB)?;
    assert_eq!(rt;
        read(&rt, &nines).err(),
        Some(ParseFault::Fault(SyntaxFault::NumberTooWide { place: 0 }))
    );
    let zeros = repeated(&rt, b"0", MIB)?;
    assert_eq!(rt;
        read(&rt, &zeros)?.as_slice(),
        [number(0, Atom::Wide, 0, 1_048_576)].as_slice()
    );
    Ok(())
}

#[test]
fn fronts_end_where_they_weigh_too_much(rt: HostRuntime) -> Result<(), Fail> {
    // Each `(` weighs two: with the 64th they weigh 128.
    let table: [(&[u8], usize, usize, Behind); 5] = [
        (b"(", 63, 63, Behind::End),
        (b"(", MIB, 64, Behind::TooHeavy { place: 63 }),
        (b"NOT ", 128, 128, Behind::TooHeavy { place: 508 }),
        (b"not ", 127, 127, Behind::End),
        (
            b"a, [1] / ",
            9,
            5,
            Behind::Fault(SyntaxFault::FloatRefused { place: 7 }),
        ),
    ];
    for (piece, times, want, behind) in table {
        let text = repeated(&rt, piece, times)?;
        let front = read_front(&rt, &text)?;
        assert_eq!(rt; front.tokens.len(), want, "{piece:?}");
        assert_eq!(rt; front.behind, behind, "{piece:?}");
    }
    Ok(())
}
