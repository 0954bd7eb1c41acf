ghost use Rattle.std.specs.Prelude.{◌≡◌, ℕ, List, length};

/// A value that stands for a list of entries, each with the number of its maker, and for a
/// charter, which stays the same while entries are added.
pub trait Chronicle {
    /// What a maker adds.
    type Entry;

    /// What all makers agree on.
    type Charter;

    /// The list, oldest first.
    ghost entries: { Self → List (ℕ × Self.Entry) };

    ghost charter: { Self → Self.Charter };

    /// The number of entries.
    fn len(&self) -> u64
        ensures { result ≡ length (entries self.now) };
}
