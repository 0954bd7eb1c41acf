//! The plainest chronicle, words under a title, and how a pass adds to one.
ghost use Rattle.std.specs.Prelude.{◌≡◌, ◌++◌, [], ◌∷◌, Some, MatchBool};
ghost use Rattle.ras_turn.specs.Words.{pass_turn, pass_number, pass_own, held_turn, held_number, held_charter, held_seen, held_own};

use crate::chronicle::Chronicle;
use crate::held::Held;
use crate::pass::Pass;
use std::alloc::Global;

/// Words, each with the number of the pass that wrote it. The title is the charter.
#[derive(Drop)]
pub struct Log {
    pub title: u8,
    pub words: Vec<(u32, u64)>,
}

impl Log {
    /// The log with no word. It allocates nothing.
    pub fn new(alloc: Global, title: u8) -> Log
        ensures title { result.title ≡ title }
        ensures words { result.words.items ≡ [] }
    {
        Log {
            title,
            words: Vec::new(alloc),
        }
    }
}

impl Chronicle for Log {
    type Entry = u64;

    type Charter = u8;

    ghost entries = { λ log. log.words.items };

    ghost charter = { λ log. log.title };

    fn len(&self) -> u64 {
        self.words.len() as u64
    }
}

/// Adds one word under the pass's number and leaves the turn. It answers false where memory was
/// wanting, and then has added nothing.
pub fn add(held: Held<'_, Log>, mut log: Log, number: u32, word: u64) -> (Pass<Log>, bool)
    requires list { held_seen held ≡ log.words.items }
    requires charter { held_charter held ≡ Some log.title }
    requires number { held_number held ≡ number }
    ensures turn { pass_turn result.0 ≡ held_turn held.entry }
    ensures number { pass_number result.0 ≡ number }
    ensures own { MatchBool result.1 (pass_own result.0 ≡ held_own held.entry ++ (number, word) ∷ []) (pass_own result.0 ≡ held_own held.entry) }
{
    let added = log.words.push((number, word)).is_ok();
    (held.leave(log), added)
}
