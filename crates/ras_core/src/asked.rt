use ras_domain::LockName;
use ras_store::Piece;

/// What comes of asking for the locks of a list.
#[derive(Drop)]
pub enum Asked {
    /// All of them were granted. This is what the committed database has under their names.
    Granted(Piece),
    /// None was granted: this is the first lock of the list that conflicts, and the least transaction
    /// that holds a conflicting one.
    Refused { lock: LockName, holder: u32 },
    /// None was granted for want of memory.
    Memory,
}
