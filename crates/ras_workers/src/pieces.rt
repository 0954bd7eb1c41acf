ghost use Rattle.std.specs.Prelude.{◌≡◌, ◌^◌, ◌<◌, ◌≤◌, length, vec_len, IfOk, IfSome, IsSome};
ghost use Rattle.ras_workers.specs.Pieces.{AcceptsPieces, AreAnswers, HoldsAnswers, IsAnswer};

use ras_edges::{Gate, GatePlace};
use std::alloc::{AllocError, Global};
use std::thread;
use std::thread::Threads;

/// Calls `f` with each place, counted from 0, and the piece there, and gives the answers in the
/// pieces' order. At most as many threads work as there are workers or pieces. Where no thread can
/// be started the caller does that work itself. The gate is passed before and after each call, at
/// `PieceStart` and `PieceDone` of the piece's number, counted from 1. The error is want of memory.
pub fn map_pieces<
    Rt: Threads + Sync,
    T: Sync,
    R: Send + Drop,
    F: Fn(usize, &T) -> R + Sync,
    G: Gate,
>(rt: &Rt, alloc: Global, workers: u32, pieces: &[T], gate: &G, f: &F) -> Result<Vec<R>, AllocError>
    requires workers { 1 ≤ workers }
    requires pieces { length pieces.now < 2 ^ 32 }
    requires accepts { AcceptsPieces F.Fn f.now pieces.now }
    ensures len { IfOk result (λ answers. vec_len answers ≡ length pieces.now) }
    ensures answers { IfOk result (λ answers. AreAnswers F.Fn f.now pieces.now answers.items) }
{
    let mut places = empty_places(alloc, pieces.len())?;
    fill_places(rt, workers, pieces, gate, f, &mut places);
    answers_in(alloc, pieces, f, places)
}

/// So many places with no answer.
fn empty_places<R: Drop>(alloc: Global, count: usize) -> Result<Vec<Option<R>>, AllocError>
    ensures { IfOk result (λ places. vec_len places ≡ count) }
{
    let mut places = Vec::with_capacity(alloc, count)?;
    for _ in 0..count {
        places.push(None)?;
    }
    Ok(places)
}

/// Puts the answer for each piece at its place.
fn fill_places<Rt: Threads + Sync, T: Sync, R: Send + Drop, F: Fn(usize, &T) -> R + Sync, G: Gate>(
    rt: &Rt,
    workers: u32,
    pieces: &[T],
    gate: &G,
    f: &F,
    places: &mut [Option<R>],
)
    requires workers { 1 ≤ workers }
    requires pieces { length pieces.now < 2 ^ 32 }
    requires accepts { AcceptsPieces F.Fn f.now pieces.now }
    requires places { length places.old ≡ length pieces.now }
    ensures { HoldsAnswers F.Fn f.now pieces.now places.new }
{
    thread::for_each_mut(
        rt,
        places,
        workers as usize,
        &|i, place: &mut Option<R>|
            requires { (i < length pieces.now) × (length pieces.now < 2 ^ 32) × AcceptsPieces F.Fn f.now pieces.now }
            ensures some { IsSome place.exit.now }
            ensures answer { IfSome place.exit.now (IsAnswer F.Fn f.entry.now pieces.entry.now i) }
        {
            *place = Some(answer_at(pieces, i, gate, f));
        },
    );
}

/// The answer for the piece at a place, with the gate passed before and after the call.
fn answer_at<T, R, F: Fn(usize, &T) -> R, G: Gate>(pieces: &[T], i: usize, gate: &G, f: &F) -> R
    requires place { i < length pieces.now }
    requires pieces { length pieces.now < 2 ^ 32 }
    requires accepts { AcceptsPieces F.Fn f.now pieces.now }
    ensures { IsAnswer F.Fn f.now pieces.now i result }
{
    let piece = (i + 1) as u32;
    gate.pass(GatePlace::PieceStart { piece });
    let answer = f(i, &pieces[i]);
    gate.pass(GatePlace::PieceDone { piece });
    answer
}

/// The answers that stand at the places.
fn answers_in<T, R: Drop, F: Fn(usize, &T) -> R>(
    alloc: Global,
    pieces: &[T],
    f: &F,
    places: Vec<Option<R>>,
) -> Result<Vec<R>, AllocError>
    requires len { vec_len places ≡ length pieces.now }
    requires answers { HoldsAnswers F.Fn f.now pieces.now places.items }
    ensures len { IfOk result (λ answers. vec_len answers ≡ length pieces.now) }
    ensures answers { IfOk result (λ answers. AreAnswers F.Fn f.now pieces.now answers.items) }
{
    let mut answers = Vec::with_capacity(alloc, places.len())?;
    for place in places {
        match place {
            Some(answer) => answers.push(answer)?,
            None => unreachable!(),
        }
    }
    Ok(answers)
}
