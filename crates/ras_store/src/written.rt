ghost use Rattle.std.specs.Prelude.{◌≡◌, Bool, false};
ghost use Rattle.ras_domain.specs.declared.lock.LockName.{LockName};

use ras_domain::LockName;

/// The names under which a transaction has written. What it sees there is its own.
pub trait WrittenNames {
    /// Of each name whether it is one of them.
    ghost is_written: { Self → LockName → Bool };

    /// Whether this name is one of them.
    fn contains(&self, name: &LockName) -> bool
        ensures { result ≡ is_written self.now name.now };
}

/// The names of a transaction that hasn't written yet: none.
#[derive(Clone, Copy, Debug)]
pub struct NothingWritten;

impl WrittenNames for NothingWritten {
    ghost is_written = { λ nothing name. false };

    fn contains(&self, _name: &LockName) -> bool {
        false
    }
}
