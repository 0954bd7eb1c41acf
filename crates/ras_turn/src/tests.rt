//! Passes in one thread and in several.
ghost use Rattle.std.specs.Prelude.{◌≡◌, ℕ, ◌+◌, ◌<◌, ◌≤◌, ◌++◌, [], ◌∷◌, length, IfOk, All, MatchBool, slice_index_or, vec_len};
ghost use Rattle.ras_turn.specs.Entries.{made_by};
ghost use Rattle.ras_turn.specs.Words.{turn_id, turn_passes, pass_turn, pass_number, pass_own};

use crate::log::{Log, add};
use crate::{Chronicle, Pass, Turn};
use std::alloc::{AllocError, Global};
use std::rt::Clock;
use std::sync::Wait;
use std::test::Fail;
use std::thread;
use std::thread::Threads;
use std::time::{CpuClock, Duration};

/// Writes one word, and says whether there was memory for it.
fn write<R: Threads + Wait + Sync>(
    rt: &R,
    turn: &Turn<Log>,
    pass: Pass<Log>,
    word: u64,
) -> (Pass<Log>, bool)
    requires { pass_turn pass ≡ turn_id turn.now }
    ensures turn { pass_turn result.0 ≡ pass_turn pass }
    ensures number { pass_number result.0 ≡ pass_number pass }
    ensures own { MatchBool result.1 (pass_own result.0 ≡ pass_own pass ++ (pass_number pass, word) ∷ []) (pass_own result.0 ≡ pass_own pass) }
{
    let number = pass.number();
    let (held, log) = turn.enter(rt, pass);
    add(held, log, number, word)
}

/// Writes the words below `count`, one at each turn, until memory is wanting.
fn write_all<R: Threads + Wait + Sync>(
    rt: &R,
    turn: &Turn<Log>,
    mut pass: Pass<Log>,
    count: u64,
) -> (Pass<Log>, bool)
    requires { pass_turn pass ≡ turn_id turn.now }
    ensures turn { pass_turn result.0 ≡ pass_turn pass }
    ensures number { pass_number result.0 ≡ pass_number pass }
{
    let mut all = true;
    for word in 0..count {
        let (after, written) = write(rt, turn, pass, word);
        pass = after;
        all = all && written;
    }
    (pass, all)
}

/// Each pass writes in a thread of its own.
fn write_in_threads<R: Threads + Wait + Sync>(
    rt: &R,
    turn: &Turn<Log>,
    passes: Vec<Pass<Log>>,
    count: u64,
) -> Result<Vec<Pass<Log>>, AllocError>
    requires { All (λ p. pass_turn p ≡ turn_id turn.now) passes.items }
    ensures len { IfOk result (λ v. vec_len v ≡ vec_len passes) }
    ensures each { IfOk result (λ v. (i : ℕ) (d : _) → i < vec_len passes → (pass_turn (slice_index_or v.items i d) ≡ turn_id turn.now) × (pass_number (slice_index_or v.items i d) ≡ pass_number (slice_index_or passes.items i d))) }
{
    thread::map_vec(
        rt,
        passes,
        &|pass| -> Pass<Log>
            requires { pass_turn pass ≡ turn_id turn.now }
            ensures { (pass_turn result ≡ pass_turn pass) × (pass_number result ≡ pass_number pass) }
        { write_all(rt, turn, pass, count).0 },
    )
}

/// The log that `count` passes have written in threads of their own.
fn written<R: Threads + Wait + Sync>(
    rt: &R,
    alloc: Global,
    passes: u32,
    count: u64,
) -> Result<Log, AllocError>
    requires { 1 ≤ passes }
    ensures { IfOk result (λ log. log.title ≡ 7) }
{
    let Ok((turn, passes)) = Turn::new(alloc, Log::new(alloc, 7), passes) else {
        return Err(AllocError);
    };
    let passes = write_in_threads(rt, &turn, passes, count)?;
    Ok(turn.close(passes))
}

/// The passes of a turn of two.
fn both(alloc: Global, first: Pass<Log>, second: Pass<Log>) -> Result<Vec<Pass<Log>>, AllocError>
    ensures { IfOk result (λ v. v.items ≡ first ∷ second ∷ []) }
{
    let mut passes = Vec::new(alloc);
    passes.push(first)?;
    passes.push(second)?;
    Ok(passes)
}

/// Closes a turn of two passes.
fn close_two(
    alloc: Global,
    turn: Turn<Log>,
    first: Pass<Log>,
    second: Pass<Log>,
) -> Result<Log, AllocError>
    requires passes { turn_passes turn ≡ 2 }
    requires first { (pass_turn first ≡ turn_id turn) × (pass_number first ≡ 0) }
    requires second { (pass_turn second ≡ turn_id turn) × (pass_number second ≡ 1) }
    ensures own { IfOk result (λ log. (made_by 0 log.words.items ≡ pass_own first) × (made_by 1 log.words.items ≡ pass_own second)) }
{
    let passes = both(alloc, first, second)?;
    Ok(turn.close(passes))
}

/// The log that two passes have written by turns.
fn in_one_thread<R: Threads + Wait + Sync>(rt: &R, alloc: Global) -> Result<Log, AllocError> {
    let Ok((turn, mut passes)) = Turn::new(alloc, Log::new(alloc, 7), 2) else {
        return Err(AllocError);
    };
    let second = passes.pop().unwrap();
    let first = passes.pop().unwrap();
    let (first, _) = write(rt, &turn, first, 10);
    let (second, _) = write(rt, &turn, second, 20);
    let (first, _) = write(rt, &turn, first, 30);
    close_two(alloc, turn, first, second)
}

/// A log that nobody wrote in, from a turn with so many passes, and the number of the last pass.
fn unwritten(alloc: Global, count: u32) -> Result<(Log, u32), AllocError>
    requires { 1 ≤ count }
    ensures { IfOk result (λ r. r.0.title ≡ 7) }
{
    let Ok((turn, passes)) = Turn::new(alloc, Log::new(alloc, 7), count) else {
        return Err(AllocError);
    };
    let last = passes[passes.len() - 1].number();
    Ok((turn.close(passes), last))
}

/// Holds the turn for a while, and adds nothing.
fn hold<R: Threads + Wait + Clock + Sync>(
    rt: &R,
    turn: &Turn<Log>,
    pass: Pass<Log>,
    time: Duration,
) -> Pass<Log>
    requires { pass_turn pass ≡ turn_id turn.now }
    ensures { pass_own result ≡ pass_own pass }
{
    let (held, log) = turn.enter(rt, pass);
    thread::sleep(rt, time);
    held.leave(log)
}

/// Writes one word after a while.
fn write_late<R: Threads + Wait + Clock + Sync>(
    rt: &R,
    turn: &Turn<Log>,
    pass: Pass<Log>,
    time: Duration,
) -> bool
    requires { pass_turn pass ≡ turn_id turn.now }
{
    thread::sleep(rt, time);
    write(rt, turn, pass, 40).1
}

/// The time of all processors that goes by while one pass holds the turn, and another, which comes
/// a little later, waits for it.
fn time_waited<R: Threads + Wait + Clock + CpuClock + Sync>(
    rt: &R,
    alloc: Global,
    time: Duration,
    late: Duration,
) -> Result<Option<Duration>, Fail> {
    let Ok((turn, mut passes)) = Turn::new(alloc, Log::new(alloc, 7), 2) else {
        return Ok(None);
    };
    let second = passes.pop().unwrap();
    let first = passes.pop().unwrap();
    let shared = &turn;
    let before = rt.process_cpu_time()?;
    thread::join(
        rt,
        || -> Pass<Log>
            requires { pass_turn first ≡ turn_id shared.now }
        { hold(rt, shared, first, time) },
        || -> bool
            requires { pass_turn second ≡ turn_id shared.now }
        { write_late(rt, shared, second, late) },
    );
    Ok(rt.process_cpu_time()?.checked_sub(before))
}

#[test]
fn passes_add_by_turns(rt: HostRuntime) -> Result<(), Fail> {
    let log = in_one_thread(&rt, rt.alloc())?;
    assert_eq!(rt;
        log.words.as_slice(),
        [(0, 10), (1, 20), (0, 30)].as_slice()
    );
    assert_eq!(rt; log.title, 7);
    assert_eq!(rt; log.len(), 3);
    Ok(())
}

#[test]
fn threads_add_each_in_their_order(rt: HostRuntime) -> Result<(), Fail> {
    let log = written(&rt, rt.alloc(), 4, 250)?;
    assert_eq!(rt; log.words.len(), 1000);
    for number in 0..4 {
        let own = log.words.iter().filter(|entry| entry.0 == number);
        assert!(rt; own.map(|entry| entry.1).eq(0..250), "pass {number}");
    }
    Ok(())
}

#[test]
fn thousands_of_passes(rt: HostRuntime) -> Result<(), Fail> {
    let (log, last) = unwritten(rt.alloc(), 3000)?;
    assert_eq!(rt; last, 2999);
    assert!(rt; log.words.is_empty());
    Ok(())
}

#[test]
fn who_waits_sleeps(rt: HostRuntime) -> Result<(), Fail> {
    let used = time_waited(
        &rt,
        rt.alloc(),
        Duration::from_millis(400),
        Duration::from_millis(100),
    )?;
    assert!(rt;
        used.is_some_and(|used| used < Duration::from_millis(150)),
        "{used:?}"
    );
    Ok(())
}
