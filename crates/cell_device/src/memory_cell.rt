use crate::cell::Cell;
use crate::fault::CellFault;
use crate::fuse::{Fuse, FuseState};
use crate::medium::Medium;
use std::alloc::Global;

/// A cell in memory, with a fuse: what it holds is known, and how the calls to come will end. It
/// keeps how to undo each change, so what crashes may have left is known for each moment.
#[derive(Drop)]
pub struct MemoryCell {
    medium: Medium,
    fuse: FuseState,
    failures: u64,
}

impl MemoryCell {
    ghost use Rattle.std.specs.Prelude.{◌≡◌, ◌≢◌, Some};
    ghost use Rattle.cell_device.specs.declared.fault.CellFault.TheVariants.{Device};
    ghost use Rattle.cell_device.specs.declared.fuse.FuseState.TheVariants.{Clear, Stopped};
    ghost use Rattle.cell_device.specs.Images.{at_rest, all_synced, same_image, MayLeave};
    ghost use Rattle.cell_device.specs.Fuses.{next_fuse, next_image};
    ghost use Rattle.cell_device.specs.Time.{Elapses};
    ghost use Rattle.cell_device.specs.Calls.{HasCause};
    ghost use Rattle.cell_device.specs.Memory.{image_of, fuse_of, failures_of, moment_of};
    ghost use Rattle.cell_device.specs.Memory.{left_since_of, fuse_after_set, IsSameMedium};
    ghost use Rattle.cell_device.specs.inner.Turns.{IsSameMoment, Fires, StopsAt};

    /// A cell with these bytes, all of them synced, and no fuse.
    pub fn new(alloc: Global, bytes: Vec<u8>) -> MemoryCell
        ensures bytes { image_of result ≡ at_rest bytes.items }
        ensures fuse { fuse_of result ≡ Clear }
        ensures failures { failures_of result ≡ 0 }
        ensures moment { moment_of result ≡ 0 }
    {
        MemoryCell {
            medium: Medium::new(alloc, bytes),
            fuse: FuseState::Clear,
            failures: 0,
        }
    }

    /// What a read gives.
    pub fn bytes(&self) -> &[u8]
        ensures { result.now ≡ (image_of self.now).seen }
    {
        self.medium.bytes()
    }

    /// What becomes of the calls to come.
    pub fn fuse(&self) -> FuseState
        ensures { result ≡ fuse_of self.now }
    {
        self.fuse
    }

    /// How often a call has failed, at most 2 ^ 64 - 1.
    pub fn failures(&self) -> u64
        ensures { result ≡ failures_of self.now }
    {
        self.failures
    }

    /// Sets a fuse, or removes it. Calls are counted from 1 since then. A stopped cell stays
    /// stopped.
    pub fn set_fuse(&mut self, fuse: Option<Fuse>)
        ensures fuse { fuse_of self.new ≡ fuse_after_set fuse (fuse_of self.old) }
        ensures medium { IsSameMedium self.old self.new }
        ensures failures { failures_of self.new ≡ failures_of self.old }
    {
        self.fuse = match (self.fuse, fuse) {
            (FuseState::Stopped, _) => FuseState::Stopped,
            (_, Some(fuse)) => FuseState::Burning(fuse),
            (_, None) => FuseState::Clear,
        };
    }

    /// What a read gives is synced, and there is no fuse. It takes no memory.
    pub fn restart(&mut self)
        ensures bytes { image_of self.new ≡ all_synced (image_of self.old) }
        ensures fuse { fuse_of self.new ≡ Clear }
        ensures failures { failures_of self.new ≡ failures_of self.old }
        ensures time { Elapses (moment_of self.old) (moment_of self.new) (left_since_of self.old)
            (left_since_of self.new) (MayLeave (Some (image_of self.new))) }
    {
        self.medium.settle();
        self.fuse = FuseState::Clear;
    }

    /// A stopped cell does nothing more.
    fn begin(&mut self) -> Result<(), CellFault>
        ensures outcome { StopsAt (fuse_of self.old) result }
        ensures fuse { fuse_of self.new ≡ fuse_of self.old }
        ensures medium { IsSameMedium self.old self.new }
        ensures cause { HasCause Device (failures_of self.old) (failures_of self.new) result }
    {
        if let FuseState::Stopped = self.fuse {
            return self.fail();
        }
        Ok(())
    }

    /// What the fuse makes of a call that was tried.
    fn turn(&mut self) -> Result<(), CellFault>
        requires { fuse_of self.old ≢ Stopped }
        ensures outcome { Fires (fuse_of self.old) result }
        ensures fuse { fuse_of self.new ≡ next_fuse (fuse_of self.old) }
        ensures bytes { image_of self.new
            ≡ next_image (fuse_of self.old) same_image same_image (image_of self.old) }
        ensures time { IsSameMoment self.old self.new }
        ensures cause { HasCause Device (failures_of self.old) (failures_of self.new) result }
    {
        let fuse = self.fuse;
        self.fuse = fuse.next();
        match fuse {
            FuseState::Burning(fuse) if fuse.call == 1 => {
                self.medium.fail(fuse.kept);
                self.fail()
            }
            _ => Ok(()),
        }
    }

    /// Counts a failure.
    fn fail(&mut self) -> Result<(), CellFault>
        ensures outcome { result ≡ Err Device }
        ensures fuse { fuse_of self.new ≡ fuse_of self.old }
        ensures medium { IsSameMedium self.old self.new }
        ensures cause { HasCause Device (failures_of self.old) (failures_of self.new) result }
    {
        self.failures = self.failures.saturating_add(1);
        Err(CellFault::Device)
    }
}

impl Cell for MemoryCell {
    ghost use Rattle.cell_device.specs.Memory.{device_of};
    ghost use Rattle.cell_device.specs.inner.Laws.{seen_now_of, counts_now_of, only_now_of};

    ghost device = { device_of };

    ghost seen_now = { λ cell. seen_now_of cell.medium };

    ghost counts_now = { λ cell. counts_now_of cell.medium };

    ghost only_now = { λ cell. only_now_of cell.medium };

    fn load(&mut self, alloc: Global) -> Result<Vec<u8>, CellFault> {
        self.begin()?;
        let bytes = self.medium.bytes().to_vec(alloc)?;
        self.turn()?;
        Ok(bytes)
    }

    fn append(&mut self, bytes: &[u8]) -> Result<(), CellFault> {
        self.begin()?;
        self.medium.append(bytes)?;
        self.turn()
    }

    fn cut(&mut self, len: usize) -> Result<(), CellFault> {
        self.begin()?;
        self.medium.cut(len)?;
        self.turn()
    }

    fn sync(&mut self) -> Result<(), CellFault> {
        self.begin()?;
        if !self.fuse.fires() {
            self.medium.settle();
        }
        self.turn()
    }
}
