ghost use Rattle.std.specs.Prelude.{◌≡◌, ◌≤◌, IfOk, IfErr, IfSome, length};
ghost use Rattle.std.specs.Io.KnownBytes.{IsAtEnd};
ghost use Rattle.ras_top.specs.ReadAll.{IsReadFault};

use ras_edges::Source;
use std::alloc::{AllocError, Global};

/// Why a source could not be read to its end.
#[derive(Clone, Copy, Debug, PartialEq, Eq)]
pub enum ReadAllFault {
    /// A read failed.
    Read,
    /// The source gave more bytes than the limit.
    TooLong,
    /// Want of memory.
    Memory,
}

/// All bytes that a source has left, which may be up to `limit`.
pub fn read_all<S: Source>(
    alloc: Global,
    source: &mut S,
    limit: usize,
) -> Result<Vec<u8>, ReadAllFault>
    ensures ok { IfOk result (λ text. (length text.items ≤ limit) × IsAtEnd (S.left source.new)
        × IfSome (S.left source.old) (λ input. text.items ≡ input)) }
    ensures fault { IfErr result (IsReadFault limit (S.left source.old) (S.faults source.old) (S.faults source.new)) }
    ensures faults_stay { S.faults source.old ≤ S.faults source.new }
{
    let mut text = Vec::new(alloc);
    let mut piece = [0u8; 4096];
    loop {
        let n = match source.read(&mut piece) {
            Ok(n) => n,
            Err(_) => return Err(ReadAllFault::Read),
        };
        if n == 0 {
            return Ok(text);
        }
        if n > limit - text.len() {
            return Err(ReadAllFault::TooLong);
        }
        if text.extend_from_slice(&piece[..n]).is_err() {
            return Err(ReadAllFault::Memory);
        }
    }
}
