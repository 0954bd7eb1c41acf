ghost use Rattle.std.specs.Prelude.{◌≡◌, ◌≤◌, ◌<◌, List, ℕ, Option, OnOk, OnErr, IfOk, length};
ghost use Rattle.std.specs.Io.{WritesAtMost};
ghost use Rattle.std.specs.Io.KnownBytes.{WriteAppends, Keeps};
ghost use Rattle.ras_edges.specs.Faults.{Rose};
ghost use Rattle.ras_edges.specs.Sink.{IsFlushed, Writes};

use crate::source::Failed;

/// Where bytes go.
pub trait Sink {
    /// The bytes taken, where the sink tells them.
    ghost taken: { Self → Option (List ℕ) };

    /// How many of them were flushed, where the sink tells it.
    ghost flushed: { Self → Option ℕ };

    /// How many writes and flushes failed, up to 2^64 - 1.
    ghost faults: { Self → ℕ };

    /// Takes bytes from the front of `piece`, and answers how many: at least one where it isn't
    /// empty. An error takes nothing.
    fn write(&mut self, piece: &[u8]) -> Result<usize, Failed>
        ensures count { WritesAtMost result piece.now }
        ensures some { IfOk result (λ n. 0 < length piece.now → 0 < n) }
        ensures bytes { WriteAppends (taken self.old) (taken self.new) result piece.now }
        ensures flushed_stay { flushed self.new ≡ flushed self.old }
        ensures faults_stay { faults self.old ≤ faults self.new }
        ensures has_cause { OnErr result (Rose (faults self.old) (faults self.new)) };

    /// Sends on what was taken. An error leaves what was flushed as it was.
    fn flush(&mut self) -> Result<(), Failed>
        ensures bytes { Keeps (taken self.old) (taken self.new) }
        ensures all { OnOk result (IsFlushed (taken self.new) (flushed self.new)) }
        ensures failed_stays { OnErr result (flushed self.new ≡ flushed self.old) }
        ensures faults_stay { faults self.old ≤ faults self.new }
        ensures has_cause { OnErr result (Rose (faults self.old) (faults self.new)) };
}

/// Writes all of `text`, in as many writes as the sink wants.
pub fn write_whole<K: Sink>(sink: &mut K, text: &[u8]) -> Result<(), Failed>
    ensures { Writes K.taken K.faults sink.old sink.new result text.now }
{
    let mut at = 0;
    while at < text.len() {
        at += sink.write(&text[at..])?;
    }
    Ok(())
}
