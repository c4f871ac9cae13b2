ghost use Rattle.std.specs.Prelude.{◌≡◌, ◌≢◌, ◌≤◌, ℕ, List, None, Some, IfOk, OnOk, OnErr};
ghost use Rattle.cell_device.specs.declared.trust.Trust.TheVariants.{Sound, Spoilt, Mending};
ghost use Rattle.cell_device.specs.Images.{Image, Leaves, MayLeave, AllowsAppend, AllowsCut};
ghost use Rattle.cell_device.specs.Images.{with_bytes, cut_to};
ghost use Rattle.cell_device.specs.Calls.{IsRead};
ghost use Rattle.cell_device.specs.Files.{FileState, IsStill, HasLength, Changes};
ghost use Rattle.cell_device.specs.Files.{Syncs, CutsBack};

use crate::fault::{CellFault, FileFault};
use std::alloc::Global;

/// A file, as the system's calls show it. Each of them may fail. The cell does all else itself.
pub trait CellFile {
    // Its bytes, if they are known, whether it can be believed, and what crashes may have left.
    ghost about: { Self → FileState };

    /// All the bytes. If the file can't be believed, it may give any.
    fn read(&mut self, alloc: Global) -> Result<Vec<u8>, CellFault>
        ensures bytes { (about self.old).trust ≡ Sound
            → IfOk result (λ bytes. IsRead (about self.old).image bytes.items) }
        ensures still { IsStill (about self.old).trust (about self.old) (about self.new) };

    /// How many bytes there are. If the file can't be believed, it may give any number.
    fn length(&mut self) -> Result<u64, CellFault>
        ensures length { (about self.old).trust ≡ Sound
            → IfOk result (λ n. HasLength n (about self.old).image) }
        ensures still { IsStill (about self.old).trust (about self.old) (about self.new) };

    /// Puts the bytes at the end.
    fn append(&mut self, bytes: &[u8]) -> Result<(), CellFault>
        requires sound { (about self.old).trust ≡ Sound }
        requires allowed { AllowsAppend (about self.old).image }
        ensures does { Changes (with_bytes bytes.now) (about self.old) (about self.new) result };

    /// Cuts the file to a length.
    fn cut(&mut self, len: usize) -> Result<(), CellFault>
        requires sound { (about self.old).trust ≡ Sound }
        requires allowed { AllowsCut len (about self.old).image }
        ensures does { Changes (cut_to len) (about self.old) (about self.new) result };

    /// After it, a crash leaves what a read gives. Once that is done, it looks whether the file is
    /// still at its path and as long as it was left. `Elsewhere` comes before `Device`: a file that
    /// was moved away isn't cut.
    fn sync(&mut self, len: u64) -> Result<(), FileFault>
        requires sound { (about self.old).trust ≡ Sound }
        requires length { HasLength len (about self.old).image }
        ensures does { Syncs (about self.old) (about self.new) result };

    /// After a failure, cuts the file to the length that every crash keeps. The cut is made even if
    /// the file seems to have that length. It makes nothing longer.
    fn cut_back(&mut self, len: u64) -> Result<(), FileFault>
        requires spoilt { (about self.old).trust ≢ Sound }
        requires length { HasLength len (about self.old).image }
        ensures does { CutsBack (about self.old) (about self.new) result };

    /// After that, syncs it. Without the cut a sync that succeeds would say nothing.
    fn sync_cut(&mut self) -> Result<(), CellFault>
        requires mending { (about self.old).trust ≡ Mending }
        ensures synced { OnOk result (IsStill Sound (about self.old) (about self.new)) }
        ensures failed { OnErr result (IsStill Spoilt (about self.old) (about self.new)) };

    /// Somebody else has cut the file, which never happens if its bytes are known. It is changed so
    /// that whoever opens it from now on finds it damaged.
    fn condemn(&mut self)
        ensures still { (about self.old).image ≡ None
            → IsStill (about self.old).trust (about self.old) (about self.new) };

    // What a read gives, or will, is among what a crash now may leave.
    ghost seen_now: { (file : Self) (i : Image) → (about file).image ≡ Some i → Leaves i i.seen };

    // This moment is one of those since an earlier one.
    ghost counts_now: { (file : Self) (t : ℕ) (c : List ℕ) → t ≤ (about file).moment
        → MayLeave (about file).image c → (about file).left_since t c };

    // Counted from this moment on, it is what a crash now may leave.
    ghost only_now: { (file : Self) (c : List ℕ)
        → (about file).left_since (about file).moment c → MayLeave (about file).image c };
}
