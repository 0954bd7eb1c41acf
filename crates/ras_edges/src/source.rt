ghost use Rattle.std.specs.Prelude.{◌≤◌, List, ℕ, Option, OnErr};
ghost use Rattle.std.specs.Io.{ReadsAtMost};
ghost use Rattle.std.specs.Io.KnownBytes.{ReadConsumes};
ghost use Rattle.ras_edges.specs.Faults.{Rose};

/// A read, a write or a flush failed.
#[derive(Clone, Copy, Debug, PartialEq, Eq)]
pub struct Failed;

/// Where bytes come from.
pub trait Source {
    /// The bytes that are left, where the source tells them.
    ghost left: { Self → Option (List ℕ) };

    /// How many reads failed, up to 2^64 - 1.
    ghost faults: { Self → ℕ };

    /// Moves the first bytes that are left into the front of `into`, and answers how many: at
    /// least one where `into` isn't empty and bytes are left. An error leaves the bytes that are
    /// left as they were.
    fn read(&mut self, into: &mut [u8]) -> Result<usize, Failed>
        ensures count { ReadsAtMost result into.new }
        ensures bytes { ReadConsumes (left self.old) (left self.new) result into.new }
        ensures faults_stay { faults self.old ≤ faults self.new }
        ensures has_cause { OnErr result (Rose (faults self.old) (faults self.new)) };
}
