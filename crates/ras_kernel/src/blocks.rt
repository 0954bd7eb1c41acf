//! Blocks of places.
ghost use Rattle.std.specs.Prelude.{◌<◌, ◌≤◌};

/// How many places are computed at once.
const BLOCK: usize = 1024;

/// Where the block ends that begins at a place.
pub(crate) fn end_of_block(from: usize, len: usize) -> usize
    requires { from < len }
    ensures more { from < result }
    ensures within { result ≤ len }
{
    if len - from <= BLOCK {
        len
    } else {
        from + BLOCK
    }
}
