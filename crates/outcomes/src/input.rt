//! Reading all that a reader has.

ghost use Rattle.std.specs.Prelude.{◌≡◌, IfOk, IfSome};
ghost use Rattle.outcomes.specs.declared.input.ReadFault.TheVariants.{Memory};
ghost use Rattle.outcomes.specs.Limits.{most_reads};

use std::alloc::{AllocError, Global};
use std::io::{ErrorKind, Read};

/// A reader that hasn't ended after this many reads counts as one that failed.
pub const MOST_READS: u32 = u32::MAX;

/// How many bytes are asked for at a time.
const PIECE: usize = 8192;

/// Why a reader could not be read to its end.
#[derive(Clone, Copy, Debug, PartialEq, Eq)]
pub enum ReadFault {
    /// A read failed, or the reader didn't end.
    Input,
    /// An allocation failed.
    Memory,
}

impl From<AllocError> for ReadFault {
    ghost from_gives = { λ _ e. e ≡ Memory };

    fn from(_e: AllocError) -> ReadFault {
        ReadFault::Memory
    }
}

/// All the bytes that a reader has left. Reads that were interrupted are tried again. A reader that
/// hasn't ended after `MOST_READS` reads counts as one that failed.
pub fn read_all<R: Read>(alloc: Global, input: &mut R) -> Result<Vec<u8>, ReadFault>
    ensures whole { IfOk result
        (λ bytes. IfSome (R.remaining input.old) (λ all. bytes.items ≡ all)) }
    ensures limit { MOST_READS ≡ most_reads }
{
    read_within(alloc, input, MOST_READS)
}

// `bag_folders` has a loop of its own, which hashes what it reads and never holds it. One loop for
// both would need a trait for what takes pieces, with its laws, which is more than both loops.

/// The same, of a reader that hasn't ended after `limit` reads.
pub fn read_within<R: Read>(alloc: Global, input: &mut R, limit: u32) -> Result<Vec<u8>, ReadFault>
    ensures { IfOk result (λ bytes. IfSome (R.remaining input.old) (λ all. bytes.items ≡ all)) }
{
    let mut bytes = Vec::new(alloc);
    let mut piece = [0u8; PIECE];
    'reads: for _ in 0..limit {
        match input.read(&mut piece) {
            Ok(0) => return Ok(bytes),
            Ok(count) => bytes.extend_from_slice(&piece[..count])?,
            Err(error) => {
                if error.kind() != ErrorKind::Interrupted {
                    return Err(ReadFault::Input);
                }
            }
        }
    }
    Err(ReadFault::Input)
}
