//! Reading a source to its end.
ghost use Rattle.std.specs.Prelude.{◌≡◌, ◌≢◌, ◌≤◌, ◌<◌, ◌+◌, ◌^◌, Err, IfOk, IsErrOf};
ghost use Rattle.next_io.specs.Causes.{Rose};
ghost use Rattle.next_io.specs.Input.{ReadsWithin};
ghost use Rattle.next_io.specs.Lines.{HasByte};

use crate::pieces::PIECE;
use crate::traits::{Failed, Source};
use std::alloc::Global;

/// Why the input was not read.
#[derive(Clone, Copy, Debug, PartialEq, Eq)]
pub enum ReadError {
    /// A read failed.
    Failed,
    /// No memory was left for the bytes.
    NoMemory,
}

/// Reads to the end of input, which is told once at most, so that nothing is read behind it, or to the first byte past
/// `most`, a number below 2^63. `Failed` comes exactly where a read
/// failed, and `NoMemory` where no memory was left. After either, what was read is lost, and the contract says nothing of
/// what the source has left.
pub fn read_within<S: Source>(
    alloc: Global,
    source: &mut S,
    most: usize,
) -> Result<Vec<u8>, ReadError>
    requires { most < 2 ^ 63 }
    ensures bytes { IfOk result (λ v. ReadsWithin most (S.left source.old) (S.left source.new) v.items) }
    ensures later { S.faults source.old ≤ S.faults source.new }
    ensures cause { IsErrOf result ReadError.Failed → Rose (S.faults source.old) (S.faults source.new) }
    ensures no_memory { IsErrOf result ReadError.NoMemory → HasByte (S.left source.old) }
    ensures no_fault { result ≢ Err ReadError.Failed → S.faults source.new ≡ S.faults source.old }
    ensures ends { S.ends source.new ≤ S.ends source.old + 1 }
{
    let mut bytes = Vec::new(alloc);
    let mut piece = [0; PIECE];
    while bytes.len() <= most {
        let room = PIECE.min(most - bytes.len() + 1);
        match source.read(&mut piece[..room]) {
            Ok(0) => break,
            Ok(count) => {
                if bytes.extend_from_slice(&piece[..count]).is_err() {
                    return Err(ReadError::NoMemory);
                }
            }
            Err(Failed) => return Err(ReadError::Failed),
        }
    }
    Ok(bytes)
}
