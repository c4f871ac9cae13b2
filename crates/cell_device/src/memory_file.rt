use crate::cell_file::CellFile;
use crate::fault::{CellFault, FileFault};
use crate::medium::Medium;
use crate::trust::Trust;
use std::alloc::Global;

/// A file in memory, with calls that can each be made to fail. After a failure a read gives no
/// bytes, until the file was cut back and that is synced.
#[derive(Drop)]
pub struct MemoryFile {
    medium: Medium,
    trust: Trust,
    /// Which of the next 64 calls fail: the lowest bit is that of the next one.
    failing: u64,
}

impl MemoryFile {
    ghost use Rattle.std.specs.Prelude.{◌≡◌, Some};
    ghost use Rattle.cell_device.specs.declared.trust.Trust.TheVariants.{Sound};
    ghost use Rattle.cell_device.specs.Images.{at_rest};
    ghost use Rattle.cell_device.specs.Memory.{file_state};

    /// A file with these bytes, all of them synced. Among its next 64 calls those fail whose bit in
    /// `failing` is 1; no later call fails.
    pub fn new(alloc: Global, bytes: Vec<u8>, failing: u64) -> MemoryFile
        ensures image { (file_state result).image ≡ Some (at_rest bytes.items) }
        ensures trust { (file_state result).trust ≡ Sound }
    {
        MemoryFile {
            medium: Medium::new(alloc, bytes),
            trust: Trust::Sound,
            failing,
        }
    }
}

// Whether this call fails; the next call has the next bit.
fn fails_next(failing: &mut u64) -> bool {
    let fails = *failing % 2 == 1;
    *failing /= 2;
    fails
}

impl CellFile for MemoryFile {
    ghost use Rattle.cell_device.specs.Memory.{file_state};
    ghost use Rattle.cell_device.specs.inner.Laws.{seen_now_of, counts_now_of, only_now_of};

    ghost about = { file_state };

    ghost seen_now = { λ file. seen_now_of file.medium };

    ghost counts_now = { λ file. counts_now_of file.medium };

    ghost only_now = { λ file. only_now_of file.medium };

    fn read(&mut self, alloc: Global) -> Result<Vec<u8>, CellFault> {
        if fails_next(&mut self.failing) {
            return Err(CellFault::Device);
        }
        match self.trust {
            Trust::Sound => Ok(self.medium.bytes().to_vec(alloc)?),
            Trust::Spoilt | Trust::Mending => Ok(Vec::new(alloc)),
        }
    }

    fn length(&mut self) -> Result<u64, CellFault> {
        if fails_next(&mut self.failing) {
            return Err(CellFault::Device);
        }
        Ok(self.medium.bytes().len() as u64)
    }

    fn append(&mut self, bytes: &[u8]) -> Result<(), CellFault> {
        let fails = fails_next(&mut self.failing);
        self.medium.append(bytes)?;
        if fails {
            self.medium.fail(0);
            self.trust = Trust::Spoilt;
            return Err(CellFault::Device);
        }
        Ok(())
    }

    fn cut(&mut self, len: usize) -> Result<(), CellFault> {
        let fails = fails_next(&mut self.failing);
        self.medium.cut(len)?;
        if fails {
            self.medium.fail(0);
            self.trust = Trust::Spoilt;
            return Err(CellFault::Device);
        }
        Ok(())
    }

    fn sync(&mut self, _len: u64) -> Result<(), FileFault> {
        if fails_next(&mut self.failing) {
            self.medium.fail(0);
            self.trust = Trust::Spoilt;
            return Err(FileFault::Device);
        }
        self.medium.settle();
        Ok(())
    }

    fn cut_back(&mut self, _len: u64) -> Result<(), FileFault> {
        if fails_next(&mut self.failing) {
            self.trust = Trust::Spoilt;
            return Err(FileFault::Device);
        }
        self.trust = Trust::Mending;
        Ok(())
    }

    fn sync_cut(&mut self) -> Result<(), CellFault> {
        if fails_next(&mut self.failing) {
            self.trust = Trust::Spoilt;
            return Err(CellFault::Device);
        }
        self.trust = Trust::Sound;
        Ok(())
    }

    // Nobody else has it.
    fn condemn(&mut self) {}
}
