//! A gate that holds a thread at one place until a thread has passed another.
ghost use Rattle.std.specs.Prelude.{◌≡◌};

use crate::gate::{Gate, GatePlace};
use std::sync::atomic::{AtomicU64, Ordering};
use std::thread;

/// A thread has passed the place that opens the gate.
const PASSED: u64 = 1;

/// A thread was held for as long as the gate allows.
const EXPIRED: u64 = 2;

/// A gate that holds each thread at one place until a thread has passed another. So that a test
/// ends where none does, it lets a thread go after a number of looks at the atomic word that
/// tells, and remembers that it did. A place that opens the gate and is held at opens it first.
#[derive(Debug, Drop)]
pub struct HoldingGate {
    held: GatePlace,
    until: GatePlace,
    turns: u64,
    /// Which of [`PASSED`] and [`EXPIRED`] hold, added up.
    state: AtomicU64,
}

impl HoldingGate {
    ghost use Rattle.ras_edges.specs.Holding.{held_place, opening_place, most_turns};

    /// A gate that holds threads at `held` until `until` was passed, each for at most `turns` looks.
    pub fn new(held: GatePlace, until: GatePlace, turns: u64) -> HoldingGate
        ensures held { held_place result ≡ held }
        ensures until { opening_place result ≡ until }
        ensures turns { most_turns result ≡ turns }
    {
        HoldingGate {
            held,
            until,
            turns,
            state: AtomicU64::new(0),
        }
    }

    /// Whether a thread was let go without `until` being passed.
    pub fn expired(&self) -> bool {
        self.state.load(Ordering::SeqCst) & EXPIRED != 0
    }

    /// Returns once the gate is open, or after so many looks.
    fn hold(&self) {
        for _ in 0..self.turns {
            if self.state.load(Ordering::SeqCst) & PASSED != 0 {
                return;
            }
            thread::yield_now();
        }
        self.state.fetch_or(EXPIRED, Ordering::SeqCst);
    }
}

impl Gate for HoldingGate {
    fn pass(&self, place: GatePlace) {
        if place == self.until {
            self.state.fetch_or(PASSED, Ordering::SeqCst);
        }
        if place == self.held {
            self.hold();
        }
    }
}
