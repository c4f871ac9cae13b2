//! Where sources are read from.

use crate::sources::{SourceFault, bytes_of};
use ledger::LiveCell;

/// Where sources are read from: a disk, or memory.
pub trait SourceFiles {
    ghost use Rattle.std.specs.Prelude.{◌≡◌, ℕ, List, Option, Some, None, IfOk, IfErr, IfSome};
    ghost use Rattle.std.specs.Prelude.{IsErrOf};
    ghost use Rattle.known_bags.specs.Sources.{IsUnread};
    ghost use Rattle.known_bags.specs.declared.sources.SourceFault.TheVariants.{Unread};

    // The bytes of the file of each path, where that is known; none inside where they can't be had.
    ghost bytes_at: { Self → List ℕ → Option (Option (List ℕ)) } = { λ _ _. None };

    /// All bytes of the file of this path; `Unread` or `Memory` if it can't be read.
    fn source_bytes(&self, path: &str) -> Result<Vec<u8>, SourceFault>
        ensures bytes { IfOk result (λ bytes. IfSome (bytes_at self.now path.now)
            (λ file. file ≡ Some bytes.items)) }
        ensures fault { IfErr result IsUnread }
        ensures unread { IsErrOf result Unread → IfSome (bytes_at self.now path.now)
            (λ file. file ≡ None) };
}

/// The files of the disk. No contract says what they have.
#[derive(Clone, Copy)]
pub struct DiskSources<'a> {
    pub rt: &'a HostRuntime,
}

impl SourceFiles for DiskSources<'_> {
    // What isn't a file is refused before it is opened: opening a pipe would wait.
    fn source_bytes(&self, path: &str) -> Result<Vec<u8>, SourceFault> {
        bytes_of(self.rt.alloc(), LiveCell::open(self.rt, path))
    }
}
