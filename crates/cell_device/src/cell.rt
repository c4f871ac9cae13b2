ghost use Rattle.std.specs.Prelude.{◌≡◌, ◌≢◌, ◌≤◌, ℕ, List, Some, IfOk, IfErr};
ghost use Rattle.cell_device.specs.declared.fault.CellFault.TheVariants.{Memory};
ghost use Rattle.cell_device.specs.Images.{Image, Leaves, MayLeave, AllowsAppend, AllowsCut};
ghost use Rattle.cell_device.specs.Images.{with_bytes, cut_to, all_synced, same_image};
ghost use Rattle.cell_device.specs.Devices.{Device};
ghost use Rattle.cell_device.specs.Calls.{Calls, IsRead};

use crate::fault::CellFault;
use std::alloc::Global;

/// A file of bytes that is appended to and cut, and keeps what it has synced.
pub trait Cell {
    // What is known of the device on which it lies.
    ghost device: { Self → Device };

    /// All the bytes. It changes none of them, unless the device fails.
    fn load(&mut self, alloc: Global) -> Result<Vec<u8>, CellFault>
        ensures read { IfOk result (λ bytes. IsRead (device self.old).image bytes.items) }
        ensures does { Calls same_image same_image (device self.old) (device self.new) result };

    /// Appends the bytes. Until a sync succeeds, a crash may leave any number of them.
    fn append(&mut self, bytes: &[u8]) -> Result<(), CellFault>
        requires { AllowsAppend (device self.old).image }
        ensures does { Calls (with_bytes bytes.now) (with_bytes bytes.now)
            (device self.old) (device self.new) result };

    /// Cuts the cell to a length. Until a sync succeeds, a crash may leave any number of the bytes
    /// after that length.
    fn cut(&mut self, len: usize) -> Result<(), CellFault>
        requires { AllowsCut len (device self.old).image }
        ensures does { Calls (cut_to len) (cut_to len) (device self.old) (device self.new) result };

    /// After it, a crash leaves what a read gives. It needs no memory.
    fn sync(&mut self) -> Result<(), CellFault>
        ensures does { Calls same_image all_synced (device self.old) (device self.new) result }
        ensures no_memory { IfErr result (λ fault. fault ≢ Memory) };

    // What a read gives is among what a crash now may leave.
    ghost seen_now: { (cell : Self) (i : Image) → (device cell).image ≡ Some i → Leaves i i.seen };

    // This moment is one of those since an earlier one.
    ghost counts_now: { (cell : Self) (t : ℕ) (c : List ℕ) → t ≤ (device cell).moment
        → MayLeave (device cell).image c → (device cell).left_since t c };

    // Counted from this moment on, it is what a crash now may leave.
    ghost only_now: { (cell : Self) (c : List ℕ) → (device cell).left_since (device cell).moment c
        → MayLeave (device cell).image c };
}
