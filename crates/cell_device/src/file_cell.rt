ghost use Rattle.std.specs.Prelude.{◌≡◌, ◌≢◌, true, false};
ghost use Rattle.cell_device.specs.Files.{HasLength, IsSure, IsSame};
ghost use Rattle.cell_device.specs.declared.trust.Trust.TheVariants as t;
ghost use Rattle.cell_device.specs.declared.file_cell.Mended.TheVariants as m;
ghost use Rattle.cell_device.specs.declared.file_cell.Standing.TheVariants as s;

use crate::cell::Cell;
use crate::cell_file::CellFile;
use crate::fault::{CellFault, FileFault};
use std::alloc::Global;

/// What can be done with the file.
#[derive(Clone, Copy, Debug)]
enum Standing {
    /// It holds what the calls made of it.
    Sound,
    /// A change or a sync failed, and it wasn't cut back since: that is done first.
    CutOwed,
    /// The cutting back failed twice, or the file isn't as the calls left it: nothing, until it is
    /// opened anew.
    Lost,
}

/// A cell in a file.
///
/// A call that failed may have left bytes that nobody wrote: the system says only once that it
/// couldn't write some, and may then give zeros or old bytes in their place. So after an append, a
/// cut or a sync has failed, the file is cut back to the bytes that an earlier sync has made sure
/// of, and that is synced, before anything else is believed.
///
/// A file that was renamed, deleted or replaced while it is open isn't the one that its path leads
/// to, and another cell may have that one by now. So the next sync fails, and every call after it.
/// So does the next append or sync to a file whose length isn't the one that the calls gave it.
#[derive(Drop)]
pub struct FileCell<F: CellFile> {
    file: F,
    /// Every crash keeps this many of the first bytes: the length at the last sync that succeeded,
    /// or the least length to which the file was cut since.
    sure: u64,
    /// The length that the calls gave the file.
    given: u64,
    standing: Standing,
    failures: u64,
    ghost sound: { standing ≡ s.Sound → (F.about file).trust ≡ t.Sound },
    ghost owed: { standing ≡ s.CutOwed → (F.about file).trust ≢ t.Sound },
    ghost sure_is: { standing ≢ s.Lost → IsSure sure (F.about file).image },
    ghost given_is: { standing ≡ s.Sound → HasLength given (F.about file).image },
    ghost seen_is: { standing ≡ s.CutOwed → HasLength sure (F.about file).image },
}

impl<F: CellFile> FileCell<F> {
    ghost use Rattle.std.specs.Prelude.{◌≤◌, IfOk, IfErr, OnOk};
    ghost use Rattle.std.specs.Option.{ForSome};
    ghost use Rattle.cell_device.specs.declared.fault.CellFault.TheVariants.{Device};
    ghost use Rattle.cell_device.specs.Images.{at_rest};
    ghost use Rattle.cell_device.specs.Calls.{one_more, HasCause};

    /// The cell in this file, all of whose bytes are synced. If its length isn't available, the
    /// file is handed back.
    pub fn over(file: F) -> Result<FileCell<F>, (F, CellFault)>
        requires sound { (F.about file).trust ≡ t.Sound }
        requires rest { ForSome (F.about file).image (λ i. i ≡ at_rest i.seen) }
        ensures same { IfOk result (λ cell. IsSame (F.about file) (F.about cell.file)) }
        ensures failures { IfOk result (λ cell. cell.failures ≡ 0) }
    {
        let mut file = file;
        match file.length() {
            Ok(given) => Ok(FileCell {
                file,
                sure: given,
                given,
                standing: Standing::Sound,
                failures: 0,
            }),
            Err(fault) => Err((file, fault)),
        }
    }

    /// The file can be used: it is cut back, if that is still to be done.
    fn begin(&mut self) -> Result<(), CellFault>
        ensures sound { OnOk result (self.new.standing ≡ s.Sound) }
        ensures same { IsSame (F.about self.old.file) (F.about self.new.file) }
        ensures device { IfErr result (λ fault. fault ≡ Device) }
        ensures cause { HasCause Device self.old.failures self.new.failures result }
    {
        match self.standing {
            Standing::Sound => Ok(()),
            Standing::Lost => Err(self.fail()),
            Standing::CutOwed => {
                if mend(&mut self.file, self.sure) == Mended::Done {
                    self.given = self.sure;
                    self.standing = Standing::Sound;
                    Ok(())
                } else {
                    self.standing = Standing::Lost;
                    Err(self.fail())
                }
            }
        }
    }

    /// The file has the length that the calls gave it. If somebody else has cut it, it is
    /// condemned: what it lost can't be restored, and no later opening may take it for whole.
    #[tactic(auto, using(crate::proofs::Files::unknown))]
    fn expect_length(&mut self) -> Result<(), CellFault>
        requires { self.old.standing ≡ s.Sound }
        ensures sound { OnOk result (self.new.standing ≡ s.Sound) }
        ensures given { OnOk result (self.new.given ≡ self.old.given) }
        ensures sure { OnOk result (self.new.sure ≡ self.old.sure) }
        ensures same { IsSame (F.about self.old.file) (F.about self.new.file) }
        ensures device { IfErr result (λ fault. fault ≡ Device) }
        ensures cause { HasCause Device self.old.failures self.new.failures result }
    {
        match self.file.length() {
            Ok(length) if length == self.given => Ok(()),
            Ok(length) if length < self.given => {
                self.standing = Standing::Lost;
                self.file.condemn();
                Err(self.fail())
            }
            // Somebody else has lengthened it, or its length can't be had.
            _ => {
                self.standing = Standing::Lost;
                Err(self.fail())
            }
        }
    }

    /// A change or a sync of the file failed: it is cut back at once, since there may be no next
    /// call.
    fn fail_and_mend(&mut self) -> CellFault
        requires { self.old.standing ≡ s.CutOwed }
        ensures fault { result ≡ Device }
        ensures same { IsSame (F.about self.old.file) (F.about self.new.file) }
        ensures later { self.old.failures ≤ self.new.failures }
        ensures count { self.new.failures ≡ one_more self.old.failures }
    {
        match mend(&mut self.file, self.sure) {
            Mended::Done => {
                self.given = self.sure;
                self.standing = Standing::Sound;
            }
            Mended::Owed => {}
            Mended::Never => self.standing = Standing::Lost,
        }
        self.fail()
    }

    /// Counts a failure.
    fn fail(&mut self) -> CellFault
        ensures fault { result ≡ Device }
        ensures file { self.new.file ≡ self.old.file }
        ensures standing { self.new.standing ≡ self.old.standing }
        ensures later { self.old.failures ≤ self.new.failures }
        ensures count { self.new.failures ≡ one_more self.old.failures }
    {
        self.failures = self.failures.saturating_add(1);
        CellFault::Device
    }
}

impl<F: CellFile> Cell for FileCell<F> {
    ghost use Rattle.cell_device.specs.Files.{device_over};

    ghost device = { λ cell. device_over (F.about cell.file) cell.failures };

    ghost seen_now = { λ cell i known. F.seen_now cell.file i known };

    ghost counts_now = { λ cell t c le now. F.counts_now cell.file t c le now };

    ghost only_now = { λ cell c left. F.only_now cell.file c left };

    fn load(&mut self, alloc: Global) -> Result<Vec<u8>, CellFault> {
        self.begin()?;
        match self.file.read(alloc) {
            Ok(bytes) => Ok(bytes),
            Err(CellFault::Memory) => Err(CellFault::Memory),
            Err(CellFault::Device) => Err(self.fail()),
        }
    }

    fn append(&mut self, bytes: &[u8]) -> Result<(), CellFault> {
        self.begin()?;
        self.expect_length()?;
        let Some(given) = self.given.checked_add(bytes.len() as u64) else {
            return Err(self.fail());
        };
        match self.file.append(bytes) {
            Ok(()) => {
                self.given = given;
                Ok(())
            }
            Err(CellFault::Memory) => Err(CellFault::Memory),
            Err(CellFault::Device) => {
                self.standing = Standing::CutOwed;
                Err(self.fail_and_mend())
            }
        }
    }

    fn cut(&mut self, len: usize) -> Result<(), CellFault> {
        self.begin()?;
        self.expect_length()?;
        let most = len as u64;
        match self.file.cut(len) {
            Ok(()) => {
                self.sure = self.sure.min(most);
                self.given = self.given.min(most);
                Ok(())
            }
            Err(CellFault::Memory) => Err(CellFault::Memory),
            Err(CellFault::Device) => {
                self.sure = self.sure.min(most);
                self.standing = Standing::CutOwed;
                Err(self.fail_and_mend())
            }
        }
    }

    fn sync(&mut self) -> Result<(), CellFault> {
        self.begin()?;
        self.expect_length()?;
        match self.file.sync(self.given) {
            Ok(()) => {
                self.sure = self.given;
                Ok(())
            }
            Err(FileFault::Device) => {
                self.standing = Standing::CutOwed;
                Err(self.fail_and_mend())
            }
            Err(FileFault::Elsewhere) => {
                self.standing = Standing::Lost;
                Err(self.fail())
            }
            Err(FileFault::Shorter) => {
                self.standing = Standing::Lost;
                self.file.condemn();
                Err(self.fail())
            }
        }
    }
}

/// Whether a file was cut back.
#[derive(Clone, Copy, Debug, PartialEq, Eq)]
enum Mended {
    Done,
    /// It failed, and may be tried again.
    Owed,
    /// It can't be: somebody else has cut it further.
    Never,
}

/// Cuts the file back, and syncs that.
fn mend<F: CellFile>(file: &mut F, sure: u64) -> Mended
    requires spoilt { (F.about file.old).trust ≢ t.Sound }
    requires length { HasLength sure (F.about file.old).image }
    ensures same { IsSame (F.about file.old) (F.about file.new) }
    ensures sound { result ≡ m.Done → (F.about file.new).trust ≡ t.Sound }
    ensures spoilt { result ≢ m.Done → (F.about file.new).trust ≢ t.Sound }
{
    match file.cut_back(sure) {
        Ok(()) => synced(file),
        Err(FileFault::Shorter) => {
            file.condemn();
            Mended::Never
        }
        Err(FileFault::Device | FileFault::Elsewhere) => Mended::Owed,
    }
}

// Syncs a file that was cut back.
fn synced<F: CellFile>(file: &mut F) -> Mended
    requires mending { (F.about file.old).trust ≡ t.Mending }
    ensures same { IsSame (F.about file.old) (F.about file.new) }
    ensures sound { result ≡ m.Done → (F.about file.new).trust ≡ t.Sound }
    ensures spoilt { result ≢ m.Done → (F.about file.new).trust ≢ t.Sound }
{
    if file.sync_cut().is_ok() {
        Mended::Done
    } else {
        Mended::Owed
    }
}
