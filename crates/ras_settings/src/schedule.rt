ghost use Rattle.std.specs.Prelude.{◌≡◌, ◌≢◌, ◌∷◌, ◌++◌, [], IfOk, MatchResult, OnErr, Some, None, if◌then◌else◌};
ghost use Rattle.ras_settings.specs.Schedule.{IsSchedule};
ghost use Rattle.ras_settings.specs.Settings.{IsScheduleFault};
ghost use Rattle.ras_settings.specs.Reading.{after_item, grown, longer, reading_of, start, stepped, turn_at};

use crate::settings::{Schedule, WordsFault};
use crate::{MAX_SESSION, MAX_STEPS};
use ras_domain::List;
use std::alloc::{AllocError, Global};

/// How far an item of a schedule has been read.
#[derive(Clone, Copy)]
enum Progress {
    /// Nothing of it.
    Begun,
    /// Its session's number so far.
    Session(u32),
    /// Its session's number, and the `x`.
    Marked(u32),
    /// Its session's number, the `x`, and the number of its steps so far.
    Steps(u32, u32),
}

/// A number with one more digit, if that is one and the number is from 1 to `most`.
fn longer(number: u32, byte: u8, most: u32) -> Option<u32>
    ensures { result ≡ longer number byte most }
{
    if !byte.is_ascii_digit() {
        return None;
    }
    let next = 10 * u64::from(number) + u64::from(byte - b'0');
    if 1 <= next && next <= u64::from(most) {
        Some(next as u32)
    } else {
        None
    }
}

impl Progress {
    /// The item with one more byte, which isn't `,`, where at most so many steps are left for it.
    fn grown(self, byte: u8, left: u32) -> Option<Progress>
        ensures { result ≡ grown left self byte }
    {
        match self {
            Progress::Begun => Some(Progress::Session(longer(0, byte, MAX_SESSION)?)),
            Progress::Session(session) if byte == b'x' => Some(Progress::Marked(session)),
            Progress::Session(session) => {
                Some(Progress::Session(longer(session, byte, MAX_SESSION)?))
            }
            Progress::Marked(session) => { Some(Progress::Steps(session, longer(0, byte, left)?)) }
            Progress::Steps(session, steps) => {
                Some(Progress::Steps(session, longer(steps, byte, left)?))
            }
        }
    }

    /// The turn of an item that may end here.
    fn turn(self) -> Option<(u32, u32)>
        ensures { result ≡ turn_at self }
    {
        match self {
            Progress::Session(session) => Some((session, 1)),
            Progress::Steps(session, steps) => Some((session, steps)),
            Progress::Begun | Progress::Marked(_) => None,
        }
    }
}

/// What has been read of a schedule: the turns of the items that have ended, the steps that they leave,
/// and how far the next item is read.
#[derive(Drop)]
struct Reader {
    turns: Vec<(u32, u32)>,
    left: u32,
    progress: Progress,
}

impl Reader {
    /// Nothing has been read.
    fn new(alloc: Global) -> Reader
        ensures { reading_of result ≡ start }
    {
        Reader {
            turns: Vec::new(alloc),
            left: MAX_STEPS,
            progress: Progress::Begun,
        }
    }

    /// Reads a `,`, and says whether a schedule goes on so.
    fn end_item(&mut self) -> Result<bool, AllocError>
        ensures { IfOk result (λ goes. after_item (reading_of self.old) (turn_at self.old.progress)
            ≡ (if goes then Some (reading_of self.new) else None)) }
    {
        let Some((session, steps)) = self.progress.turn() else {
            return Ok(false);
        };
        if self.left <= steps {
            return Ok(false);
        }
        self.turns.push((session, steps))?;
        self.left -= steps;
        self.progress = Progress::Begun;
        Ok(true)
    }

    /// Reads one more byte, and says whether a schedule goes on so.
    fn step(&mut self, byte: u8) -> Result<bool, AllocError>
        ensures { IfOk result (λ goes. stepped (reading_of self.old) byte
            ≡ (if goes then Some (reading_of self.new) else None)) }
    {
        if byte == b',' {
            return self.end_item();
        }
        match self.progress.grown(byte, self.left) {
            Some(progress) => {
                self.progress = progress;
                Ok(true)
            }
            None => Ok(false),
        }
    }
}

/// The schedule of a text, or the first byte at which no schedule goes on so. `Memory` is want of memory.
pub(crate) fn read_schedule(alloc: Global, text: &str) -> Result<Schedule, WordsFault>
    ensures { MatchResult result (IsSchedule text.now) (IsScheduleFault text.now) }
{
    let mut reader = Reader::new(alloc);
    for (place, byte) in text.as_bytes().iter().enumerate() {
        let Ok(goes_on) = reader.step(*byte) else {
            return Err(WordsFault::Memory);
        };
        if !goes_on {
            return Err(WordsFault::BadSchedule {
                place: place as u32,
            });
        }
    }
    let Some(turn) = reader.progress.turn() else {
        return Err(WordsFault::BadSchedule {
            place: text.len() as u32,
        });
    };
    let mut turns = reader.turns;
    let Ok(()) = turns.push(turn) else {
        return Err(WordsFault::Memory);
    };
    Ok(List::of(turns))
}
