use bag_check::BagFault;
use bag_tree::{Facts, TreeFault};

/// Where folders are read from: a disk, or memory.
pub trait Folders {
    ghost use Rattle.std.specs.Prelude.{◌≡◌, ◌≢◌, ◌≤◌, ℕ, List, Result, Option, Some, None};
    ghost use Rattle.std.specs.Prelude.{IfErr, IfSome, option_copied};
    ghost use Rattle.bag_tree.specs.declared.fault.TreeFault.{TreeFault};
    ghost use Rattle.bag_tree.specs.declared.fault.TreeFault.TheVariants.{BadPath};
    ghost use Rattle.bag_tree.specs.Facts.{TreeFacts};
    ghost use Rattle.bag_tree.specs.Fault.{IsOrMemory};

    // What a read of each path gives, where it is known.
    ghost gives: { Self → Option (List ℕ → Result TreeFacts TreeFault) } = { λ _. None };

    // Where each read that fails does so, if that is known.
    ghost fails_at: { Self → Option (List ℕ) } = { λ _. None };

    /// The facts of the tree in the folder of this path, or the first reason found why it can't be
    /// read; which of several is left open. It is never `BadPath`.
    fn read(&mut self, path: &str) -> Result<Facts, TreeFault>
        ensures known { IfSome (gives self.old) (λ answer. IsOrMemory result (answer path.now)) }
        ensures kept { gives self.new ≡ gives self.old }
        ensures place { fails_at self.new ≡ fails_at self.old }
        ensures faults { IfErr result (λ fault. fault ≢ BadPath) };

    /// The bag that was read last was refused for this fault. Folders may remember that, and need
    /// not read them again for a while.
    fn refused(&mut self, fault: BagFault)
        ensures kept { gives self.new ≡ gives self.old }
        ensures place { fails_at self.new ≡ fails_at self.old };

    /// How many bytes the files of the folder of this path have together, if they are known without
    /// being read, few, and have no more than this. Usually the folder is read a moment later: its
    /// list may be kept for that.
    fn weighs(&self, _path: &str, _most: u64) -> Option<u64>
        ensures { IfSome result (λ bytes. bytes ≤ _most) }
    {
        None
    }

    /// Where the last read failed, if that is known: a path below the folder, or `.` for the folder
    /// itself.
    fn failed_at(&self) -> Option<&str>
        ensures { IfSome (fails_at self.now) (λ place. option_copied result ≡ Some place) };
}
