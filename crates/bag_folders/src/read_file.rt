ghost use Rattle.std.specs.Prelude.{◌≡◌, OnOk, IfOk, IfErr, IfSome, IsErrOf, Some, None};
ghost use Rattle.std.specs.Io.KnownBytes.{IsAtEnd};
ghost use Rattle.bag_tree.specs.Facts.{fact_by};
ghost use Rattle.bag_tree.specs.Tree.{fault_of_text};
ghost use Rattle.bag_folders.specs.Disk.{IsFactBy};
ghost use Rattle.bag_folders.specs.Pieces.{IsReadFault, most_reads};

use crate::hashing::Hashing;
use crate::watched_file::WatchedFile;
use crate::watcher::Watcher;
use bag_tree::{Algorithms, FileFacts, TreeFault};
use std::alloc::Global;
use std::io::{ErrorKind, Read};

/// A reader that hasn't ended after this many reads counts as one that failed.
pub const MOST_READS: u32 = u32::MAX;

/// How many bytes are asked for at a time.
const PIECE: usize = 8192;

/// The facts of the file of this path whose bytes the reader has left, with the digests that are
/// wanted. The bytes are never held whole unless they are a text that describes a bag. Reads that
/// were interrupted are tried again. Whatever the reader gives, the facts are those of some bytes.
/// The refusals are `TextTooLong`, if such a text has over `LONGEST_TEXT` bytes; `Device`, if a
/// read failed or the reader didn't end within `MOST_READS`; and `Memory`.
pub fn hash_reader<R: Read>(
    alloc: Global,
    path: &str,
    wanted: Algorithms,
    input: &mut R,
) -> Result<FileFacts, TreeFault>
    ensures digests { IfOk result (λ facts. IsFactBy wanted path.now facts) }
    ensures facts { IfOk result (λ facts. IfSome (R.remaining input.old) (λ bytes.
        facts ≡ fact_by wanted (record { path = path.now; bytes = bytes }))) }
    ensures end { OnOk result (IsAtEnd (R.remaining input.new)) }
    ensures fits { IfOk result (λ facts. IfSome (R.remaining input.old) (λ bytes.
        fault_of_text path.now bytes ≡ None)) }
    ensures too_long { IsErrOf result TreeFault.TextTooLong
        → IfSome (R.remaining input.old) (λ bytes.
        fault_of_text path.now bytes ≡ Some TreeFault.TextTooLong) }
    ensures faults { IfErr result IsReadFault }
    ensures limit { MOST_READS ≡ most_reads }
{
    let mut hashing = Hashing::new(alloc, path, wanted)?;
    let mut piece = [0u8; PIECE];
    'reads: for _ in 0..MOST_READS {
        match input.read(&mut piece) {
            Ok(0) => return Ok(hashing.finish()),
            Ok(count) => hashing.feed(&piece[..count])?,
            Err(error) => {
                if error.kind() != ErrorKind::Interrupted {
                    return Err(TreeFault::Device);
                }
            }
        }
    }
    Err(TreeFault::Device)
}

/// The same, while the watcher sees how many bytes are hashed: whatever it does, the facts are
/// those of the file.
pub fn hash_watched<R: Read, W: Watcher>(
    alloc: Global,
    path: &str,
    wanted: Algorithms,
    input: &mut R,
    watcher: &mut W,
) -> Result<FileFacts, TreeFault>
    ensures digests { IfOk result (λ facts. IsFactBy wanted path.now facts) }
    ensures facts { IfOk result (λ facts. IfSome (R.remaining input.old) (λ bytes.
        facts ≡ fact_by wanted (record { path = path.now; bytes = bytes }))) }
    ensures fits { IfOk result (λ facts. IfSome (R.remaining input.old) (λ bytes.
        fault_of_text path.now bytes ≡ None)) }
    ensures too_long { IsErrOf result TreeFault.TextTooLong
        → IfSome (R.remaining input.old) (λ bytes.
        fault_of_text path.now bytes ≡ Some TreeFault.TextTooLong) }
    ensures faults { IfErr result IsReadFault }
{
    let mut watched = WatchedFile::new(input, watcher);
    hash_reader(alloc, path, wanted, &mut watched)
}
