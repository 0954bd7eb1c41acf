//! What no clause says: that pieces run beside one another, on no more threads than there are
//! workers, with the gate passed round each call, and that calls which need memory succeed. Two
//! callers show what the contract tells of answers that are numbers, and of answers that own
//! memory.
ghost use Rattle.std.specs.Prelude.{All, IfOk, length, slice_index, slice_index_or, vec_len, ◌*◌, ◌^◌, ◌<◌, ◌≡◌, ◌≤◌, ℕ};

use crate::map_pieces;
use ras_edges::{Gate, GatePlace, HoldingGate, OpenGate};
use std::alloc::{AllocError, Global};
use std::sync::atomic::{AtomicU64, Ordering};
use std::test::Fail;
use std::thread;
use std::thread::Threads;

/// More looks than any thread needs before the other one comes by.
const TURNS: u64 = 200_000_000;

/// Twice each number, by so many workers.
fn doubled<R: Threads + Sync, G: Gate>(
    rt: &R,
    alloc: Global,
    workers: u32,
    numbers: &[u64],
    gate: &G,
) -> Result<Vec<u64>, AllocError>
    requires workers { 1 ≤ workers }
    requires numbers { length numbers.now < 2 ^ 32 }
    requires small { All (λ x. x < 2 ^ 32) numbers.now }
    ensures len { IfOk result (λ answers. vec_len answers ≡ length numbers.now) }
    ensures each { IfOk result (λ answers. (i : ℕ) → i < length numbers.now
        → slice_index answers.items i ≡ 2 * slice_index numbers.now i) }
{
    map_pieces(rt, alloc, workers, numbers, gate, &|_, x| 2 * x)
}

/// A copy of each word, by so many workers.
fn copied<R: Threads + Sync>(
    rt: &R,
    alloc: Global,
    workers: u32,
    words: &[Vec<u8>],
) -> Result<Vec<Result<Vec<u8>, AllocError>>, AllocError>
    requires workers { 1 ≤ workers }
    requires words { length words.now < 2 ^ 32 }
    ensures len { IfOk result (λ copies. vec_len copies ≡ length words.now) }
    ensures each { IfOk result (λ copies. (i : ℕ) (d : _) (e : _) → i < length words.now
        → IfOk (slice_index_or copies.items i e) (λ copy. copy.items ≡ (slice_index_or words.now i d).items)) }
{
    map_pieces(
        rt,
        alloc,
        workers,
        words,
        &OpenGate,
        &|_, word| { word.as_slice().to_vec(alloc) },
    )
}

#[test]
fn any_number_of_workers_answers_in_order(rt: HostRuntime) -> Result<(), Fail> {
    let cases: [(u32, &[u64], &[u64]); 7] = [
        (1, &[], &[]),
        (64, &[], &[]),
        (1, &[7, 0, 5], &[14, 0, 10]),
        (2, &[7, 0, 5], &[14, 0, 10]),
        (64, &[7, 0, 5], &[14, 0, 10]),
        (4_294_967_295, &[1, 2], &[2, 4]),
        (3, &[1, 2, 3, 4, 5, 6, 7], &[2, 4, 6, 8, 10, 12, 14]),
    ];
    for (workers, numbers, want) in cases {
        let answers = twice(&rt, rt.alloc(), workers, numbers, &OpenGate)?;
        assert_eq!(rt; answers.as_slice(), want, "by {workers}");
    }
    Ok(())
}

/// Calls [`doubled`], whose conditions the numbers here meet.
fn twice<R: Threads + Sync, G: Gate>(
    rt: &R,
    alloc: Global,
    workers: u32,
    numbers: &[u64],
    gate: &G,
) -> Result<Vec<u64>, Fail> {
    let small = numbers.iter().all(|x| *x < 4_294_967_296);
    if workers == 0 || numbers.len() >= 4_294_967_296 || !small {
        return Err(Fail::from(AllocError));
    }
    Ok(doubled(rt, alloc, workers, numbers, gate)?)
}

#[test]
fn thousands_of_pieces_are_answered(rt: HostRuntime) -> Result<(), Fail> {
    let numbers: Vec<u64> = (0..5000).collect(rt.alloc())?;
    for workers in [1, 7, 64] {
        let answers = twice(&rt, rt.alloc(), workers, numbers.as_slice(), &OpenGate)?;
        assert_eq!(rt; answers.len(), 5000);
        for (i, answer) in answers.iter().enumerate() {
            assert_eq!(rt; *answer, 2 * i as u64);
        }
    }
    Ok(())
}

/// The gate holds a piece's thread until another piece is done, in either order, so the two run on
/// two threads.
#[test]
fn pieces_run_beside_one_another(rt: HostRuntime) -> Result<(), Fail> {
    let start = |piece| GatePlace::PieceStart { piece };
    let done = |piece| GatePlace::PieceDone { piece };
    let numbers: Vec<u64> = (0..64).collect(rt.alloc())?;
    for (workers, first, last) in [(2, 1, 2), (64, 1, 64), (64, 31, 32)] {
        for (held, until) in [(start(first), done(last)), (start(last), done(first))] {
            let gate = HoldingGate::new(held, until, TURNS);
            let pieces = &numbers[..numbers.len().min(workers as usize)];
            let answers = twice(&rt, rt.alloc(), workers, pieces, &gate)?;
            assert_eq!(rt; answers.len(), pieces.len());
            assert!(rt; !gate.expired(), "{held:?} until {until:?}");
        }
    }
    Ok(())
}

/// One worker is one thread: the first piece waits in vain for the second, and the second finds
/// the first done.
#[test]
fn one_worker_works_alone(rt: HostRuntime) -> Result<(), Fail> {
    for (held, until, want) in [(1, 2, true), (2, 1, false)] {
        let held = GatePlace::PieceStart { piece: held };
        let until = GatePlace::PieceDone { piece: until };
        let gate = HoldingGate::new(held, until, 1000);
        let answers = twice(&rt, rt.alloc(), 1, &[3, 4], &gate)?;
        assert_eq!(rt; answers.as_slice(), [6, 8].as_slice());
        assert_eq!(rt; gate.expired(), want, "{held:?} until {until:?}");
    }
    Ok(())
}

/// A gate that counts the pieces that are begun and not done, and keeps the largest count.
#[derive(Drop)]
struct Crowd {
    inside: AtomicU64,
    most: AtomicU64,
}

impl Gate for Crowd {
    fn pass(&self, place: GatePlace) {
        match place {
            GatePlace::PieceStart { .. } => {
                let before = self.inside.fetch_add(1, Ordering::SeqCst);
                self.most
                    .fetch_max(before.saturating_add(1), Ordering::SeqCst);
            }
            GatePlace::PieceDone { .. } => {
                self.inside.fetch_sub(1, Ordering::SeqCst);
            }
            _ => {}
        }
    }
}

#[test]
fn no_more_threads_work_than_workers(rt: HostRuntime) -> Result<(), Fail> {
    for workers in [1, 2, 3] {
        let crowd = Crowd {
            inside: AtomicU64::new(0),
            most: AtomicU64::new(0),
        };
        let pieces = [(); 20];
        let counts = map_pieces(
            &rt,
            rt.alloc(),
            workers,
            &pieces,
            &crowd,
            &|_, _| {
                thread::yield_now();
                crowd.inside.load(Ordering::SeqCst)
            },
        )?;
        for count in &counts {
            assert!(rt;
                1 <= *count && *count <= u64::from(workers),
                "{count} of {workers}"
            );
        }
        assert!(rt; crowd.most.load(Ordering::SeqCst) <= u64::from(workers));
        assert_eq!(rt; crowd.inside.load(Ordering::SeqCst), 0);
    }
    Ok(())
}

/// A gate that shows which piece is begun and not done.
#[derive(Drop)]
struct Doors {
    open: AtomicU64,
}

impl Gate for Doors {
    fn pass(&self, place: GatePlace) {
        let piece = match place {
            GatePlace::PieceStart { piece } => u64::from(piece),
            GatePlace::PieceDone { piece } => 100 + u64::from(piece),
            _ => 200,
        };
        self.open.store(piece, Ordering::SeqCst);
    }
}

#[test]
fn each_call_finds_its_own_door_open(rt: HostRuntime) -> Result<(), Fail> {
    let doors = Doors {
        open: AtomicU64::new(0),
    };
    let seen = map_pieces(
        &rt,
        rt.alloc(),
        1,
        &[(); 3],
        &doors,
        &|_, _| { doors.open.load(Ordering::SeqCst) },
    )?;
    assert_eq!(rt; seen.as_slice(), [1, 2, 3].as_slice());
    assert_eq!(rt; doors.open.load(Ordering::SeqCst), 103);
    Ok(())
}

#[test]
fn answers_may_own_memory(rt: HostRuntime) -> Result<(), Fail> {
    let alloc = rt.alloc();
    let words = [
        b"one".to_vec(alloc)?,
        b"".to_vec(alloc)?,
        b"three".to_vec(alloc)?,
    ];
    for workers in [1, 2, 64] {
        let copies = copied(&rt, alloc, workers, &words)?;
        assert_eq!(rt; copies.len(), 3);
        for (copy, word) in copies.into_iter().zip(&words) {
            assert_eq!(rt; copy?.as_slice(), word.as_slice());
        }
    }
    Ok(())
}
