//! Work cut into runs of places, one for each worker.
ghost use Rattle.std.specs.Prelude.{◌≡◌, ◌≤◌, min, vec_len, IfOk};
ghost use Rattle.ras_grid.specs.Runs.{IsEven, AreConsecutive};

use std::alloc::{AllocError, Global};

/// Cuts the places from 0 up to `len` into runs for so many workers. A run is given as in Rust's
/// `from..to`, so it holds `to - from` places, at least one. There are as many runs as workers, or
/// as places where these are fewer. Their lengths differ by at most one, longer ones first. The
/// error is want of memory.
pub fn cut(alloc: Global, len: usize, workers: u32) -> Result<Vec<(usize, usize)>, AllocError>
    requires { 1 ≤ workers }
    ensures count { IfOk result (λ runs. vec_len runs ≡ min len workers) }
    ensures row { IfOk result (λ runs. AreConsecutive 0 runs.items len) }
    ensures even { IfOk result (λ runs. IsEven runs.items) }
{
    let count = len.min(workers as usize);
    let mut runs = Vec::with_capacity(alloc, count)?;
    let mut from = 0;
    for run in 0..count {
        let to = from + len / count + usize::from(run < len % count);
        runs.push((from, to))?;
        from = to;
    }
    Ok(runs)
}
