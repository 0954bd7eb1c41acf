//! Words and what they give, worked out by hand, with ample memory.
use crate::{MAX_STEPS, Settings, WordsFault, read_words};
use std::alloc::{AllocError, Global};
use std::test::Fail;

/// The words of a line, which one space parts.
fn words_of(alloc: Global, line: &str) -> Result<Vec<String>, AllocError> {
    line.split(' ')
        .map(|word| String::from_str(alloc, word))
        .try_collect(alloc)
}

/// What the words of a line give, as `{:?}` writes it.
fn outcome(alloc: Global, line: &str) -> Result<String, AllocError> {
    let words = words_of(alloc, line)?;
    let outcome = read_words(alloc, &words);
    format!(in alloc; "{outcome:?}")
}

/// Lines, and what they give.
const ROWS: [(&str, &str); 61] = [
    // Each command, with what it takes.
    ("run", "Ok(Run { workers: 1, schedule: None })"),
    ("run --workers 4", "Ok(Run { workers: 4, schedule: None })"),
    (
        "run --schedule 1",
        "Ok(Run { workers: 1, schedule: Some(List { items: [(1, 1)] }) })",
    ),
    (
        "run --schedule 1x5,2x11",
        "Ok(Run { workers: 1, schedule: Some(List { items: [(1, 5), (2, 11)] }) })",
    ),
    (
        "run --schedule 1x5,2x4,1 --workers 64",
        "Ok(Run { workers: 64, schedule: Some(List { items: [(1, 5), (2, 4), (1, 1)] }) })",
    ),
    ("check", "Ok(Check)"),
    ("plan", "Ok(Plan)"),
    ("gen", "Ok(Gen { seed: 1, size: 8 })"),
    ("gen --seed 7 --size 8", "Ok(Gen { seed: 7, size: 8 })"),
    ("sample", "Ok(Sample { seed: 1, size: 8 })"),
    (
        "sample --size 100 --seed 1",
        "Ok(Sample { seed: 1, size: 100 })",
    ),
    ("audit", "Ok(Audit)"),
    // The ends of each range, and other ways to write a number.
    ("run --workers 0", "Err(Refused)"),
    ("run --workers 65", "Err(Refused)"),
    ("run --workers 01", "Err(Refused)"),
    ("run --workers +1", "Err(Refused)"),
    ("run --workers 1a", "Err(Refused)"),
    ("gen --seed 0", "Ok(Gen { seed: 0, size: 8 })"),
    ("gen --seed 00", "Err(Refused)"),
    (
        "gen --seed 2147483647",
        "Ok(Gen { seed: 2147483647, size: 8 })",
    ),
    ("gen --seed 2147483648", "Err(Refused)"),
    ("gen --seed 4294967297", "Err(Refused)"),
    ("gen --size 0", "Err(Refused)"),
    ("gen --size 1", "Ok(Gen { seed: 1, size: 1 })"),
    ("gen --size 1000", "Ok(Gen { seed: 1, size: 1000 })"),
    ("gen --size 1001", "Err(Refused)"),
    // Words of another form.
    ("", "Err(Refused)"),
    ("run ", "Err(Refused)"),
    ("-h", "Err(Refused)"),
    ("run --help", "Err(Refused)"),
    ("run --workers=2", "Err(Refused)"),
    ("run --workers", "Err(Refused)"),
    ("run --workers ", "Err(Refused)"),
    ("run --workers -1", "Err(Refused)"),
    ("run --workers 2 --workers 2", "Err(Refused)"),
    ("run --speed 2", "Err(Refused)"),
    ("run 2", "Err(Refused)"),
    ("run -- 2", "Err(Refused)"),
    ("--workers 2 run", "Err(Refused)"),
    // The order of the faults: form, numbers, command, options, schedule.
    ("stop --workers", "Err(Refused)"),
    ("stop --workers 0", "Err(Refused)"),
    ("check --workers 0", "Err(Refused)"),
    ("help", "Err(UnknownCommand)"),
    ("stop", "Err(UnknownCommand)"),
    ("RUN", "Err(UnknownCommand)"),
    ("stop --seed 1 --schedule 1y2", "Err(UnknownCommand)"),
    ("check --workers 2", "Err(OptionNotOfCommand)"),
    ("check --schedule 1y2", "Err(OptionNotOfCommand)"),
    ("run --seed 1 --schedule 1y2", "Err(OptionNotOfCommand)"),
    ("run --schedule 1y2", "Err(BadSchedule { place: 1 })"),
    // Where a schedule breaks.
    ("run --schedule ,", "Err(BadSchedule { place: 0 })"),
    ("run --schedule 0", "Err(BadSchedule { place: 0 })"),
    (
        "run --schedule 64",
        "Ok(Run { workers: 1, schedule: Some(List { items: [(64, 1)] }) })",
    ),
    ("run --schedule 65", "Err(BadSchedule { place: 1 })"),
    ("run --schedule 1x0", "Err(BadSchedule { place: 2 })"),
    ("run --schedule 1,", "Err(BadSchedule { place: 2 })"),
    ("run --schedule 1x2x3", "Err(BadSchedule { place: 3 })"),
    (
        "run --schedule 1x1000000",
        "Ok(Run { workers: 1, schedule: Some(List { items: [(1, 1000000)] }) })",
    ),
    ("run --schedule 1x1000001", "Err(BadSchedule { place: 8 })"),
    (
        "run --schedule 1x1000000,1",
        "Err(BadSchedule { place: 9 })",
    ),
    (
        "run --schedule 1x999999,2x2",
        "Err(BadSchedule { place: 11 })",
    ),
];

#[test]
fn words_give_settings_or_the_first_fault(rt: HostRuntime) -> Result<(), Fail> {
    for (line, expected) in ROWS.iter() {
        let given = outcome(rt.alloc(), line)?;
        assert_eq!(rt; given.as_str(), *expected, "{line}");
    }
    Ok(())
}

#[test]
fn no_words_are_refused(rt: HostRuntime) {
    let outcome = read_words(rt.alloc(), &[]);
    assert!(rt; matches!(outcome, Err(WordsFault::Refused)));
}

/// For each command, which of `--workers`, `--schedule`, `--seed` and `--size` it takes.
const TAKEN: [(&str, [bool; 4]); 6] = [
    ("run", [true, true, false, false]),
    ("check", [false, false, false, false]),
    ("plan", [false, false, false, false]),
    ("gen", [false, false, true, true]),
    ("sample", [false, false, true, true]),
    ("audit", [false, false, false, false]),
];

#[test]
fn each_command_takes_its_own_options(rt: HostRuntime) -> Result<(), Fail> {
    let alloc = rt.alloc();
    let options = ["--workers", "--schedule", "--seed", "--size"];
    for (name, taken) in TAKEN.iter() {
        for (option, takes) in options.iter().zip(taken.iter()) {
            let line = format!(in alloc; "{name} {option} 3")?;
            let words = words_of(alloc, line.as_str())?;
            let outcome = read_words(alloc, &words);
            let refused = matches!(outcome, Err(WordsFault::OptionNotOfCommand));
            assert_eq!(rt; outcome.is_ok(), *takes, "{line}");
            assert_eq!(rt; refused, !*takes, "{line}");
        }
    }
    Ok(())
}

#[test]
fn a_long_schedule_is_read_whole(rt: HostRuntime) -> Result<(), Fail> {
    let alloc = rt.alloc();
    let mut line = String::from_str(alloc, "run --schedule 1x996001")?;
    for _ in 0..1_999u32 {
        line.push_str(",2,63x1")?;
    }
    let words = words_of(alloc, line.as_str())?;
    let Ok(
        Settings::Run {
            schedule: Some(schedule),
            ..
        },
    ) = read_words(alloc, &words)
    else {
        assert!(rt; false, "a schedule of 999,999 steps");
        return Ok(());
    };
    assert_eq!(rt; schedule.as_slice().len(), 3_999);
    assert_eq!(rt; schedule.as_slice().last().copied(), Some((63, 1)));
    let steps = schedule
        .as_slice()
        .iter()
        .fold(0u64, |sum, turn| sum.saturating_add(u64::from(turn.1)));
    assert_eq!(rt; steps, u64::from(MAX_STEPS) - 1);
    line.push_str(",1,1")?;
    let given = outcome(alloc, line.as_str())?;
    assert_eq!(rt; given.as_str(), "Err(BadSchedule { place: 14003 })");
    Ok(())
}
