use crate::place::Place;
use crate::synced_file::SyncedFile;
use crate::text_end::find_text_end;
use cell_device::{CellFault, CellFile, FileFault, Trust};
use ledger::intact_end;
use std::alloc::{AllocError, Global};
use std::fs::File;
use std::io::{self, ErrorKind, Read, Seek, SeekFrom, Write};
use system_files::{expect_length, expect_room};

/// A file of the system, to which each write goes at the end. No contract says what it holds.
#[derive(Drop)]
pub struct HostFile {
    file: File,
    place: Place,
    trust: Trust,
    alloc: Global,
    synced: SyncedFile,
    /// Of what is synced, at most this many bytes are said to be: what comes after them may be
    /// torn, and then an opening cuts it off.
    whole: u64,
}

impl HostFile {
    ghost use Rattle.std.specs.Prelude.{◌≡◌};
    ghost use Rattle.cell_device.specs.declared.trust.Trust.TheVariants.{Sound};
    ghost use Rattle.cell_file.specs.HostFiles.{file_state};

    /// The open file at this place, all of whose bytes are on the disk, and the file beside it.
    pub(crate) fn new(alloc: Global, file: File, place: Place, synced: SyncedFile) -> HostFile
        ensures { (file_state result).trust ≡ Sound }
    {
        HostFile {
            file,
            place,
            trust: Trust::Sound,
            alloc,
            synced,
            whole: 0,
        }
    }
}

impl CellFile for HostFile {
    ghost use Rattle.cell_file.specs.HostFiles.{file_state};

    ghost about = { file_state };

    ghost seen_now = { λ file i known. absurd (cc known) };

    ghost counts_now = { λ file t c le now. tt };

    ghost only_now = { λ file c left. tt };

    fn read(&mut self, alloc: Global) -> Result<Vec<u8>, CellFault> {
        match read_whole(&mut self.file, alloc) {
            Ok(bytes) => {
                self.whole = whole_bytes(self.alloc, &bytes);
                Ok(bytes)
            }
            Err(error) if error.kind() == ErrorKind::OutOfMemory => Err(CellFault::Memory),
            Err(_) => Err(CellFault::Device),
        }
    }

    fn length(&mut self) -> Result<u64, CellFault> {
        match self.file.metadata() {
            Ok(about) => Ok(about.len()),
            Err(_) => Err(CellFault::Device),
        }
    }

    fn append(&mut self, bytes: &[u8]) -> Result<(), CellFault> {
        match append_whole(&mut self.file, bytes) {
            Ok(()) => {
                // Whoever appends has cut off before what was torn.
                self.whole = u64::MAX;
                Ok(())
            }
            Err(_) => {
                self.trust = Trust::Spoilt;
                Err(CellFault::Device)
            }
        }
    }

    fn cut(&mut self, len: usize) -> Result<(), CellFault> {
        self.synced.lower(len as u64, &self.file);
        match shorten(&self.file, len as u64) {
            Ok(()) => Ok(()),
            Err(_) => {
                self.trust = Trust::Spoilt;
                Err(CellFault::Device)
            }
        }
    }

    fn sync(&mut self, len: u64) -> Result<(), FileFault> {
        let synced = self.file.sync_all();
        // After the sync, so that the answer speaks of the file that the path leads to now.
        match after_sync(self.place.length(), len, synced.is_ok()) {
            Ok(()) => {
                self.synced.say(len.min(self.whole), &self.file);
                Ok(())
            }
            Err(fault) => {
                self.trust = Trust::Spoilt;
                Err(fault)
            }
        }
    }

    fn cut_back(&mut self, len: u64) -> Result<(), FileFault> {
        self.synced.lower(len, &self.file);
        match shorten_anew(&self.file, len) {
            Ok(()) => {
                self.trust = Trust::Mending;
                Ok(())
            }
            Err(fault) => {
                self.trust = Trust::Spoilt;
                Err(fault)
            }
        }
    }

    fn sync_cut(&mut self) -> Result<(), CellFault> {
        match self.file.sync_all() {
            Ok(()) => {
                self.trust = Trust::Sound;
                Ok(())
            }
            Err(_) => {
                self.trust = Trust::Spoilt;
                Err(CellFault::Device)
            }
        }
    }

    // If this fails, the file stays as it was cut: nothing more can be done.
    fn condemn(&mut self) {
        self.synced.lower(0, &self.file);
        let _ = mark_damaged(&mut self.file, self.alloc);
    }
}

/// All the bytes of the file.
fn read_whole(file: &mut File, alloc: Global) -> io::Result<Vec<u8>> {
    file.seek(SeekFrom::Start(0))?;
    let mut bytes = Vec::new(alloc);
    file.read_to_end(&mut bytes)?;
    Ok(bytes)
}

/// Where the records end in these bytes, all that a cell has; 0 if there is no memory to look.
fn whole_bytes(alloc: Global, bytes: &[u8]) -> u64 {
    match intact_end(alloc, bytes) {
        Ok(end) => end as u64,
        Err(AllocError) => 0,
    }
}

/// Appends these bytes, unless the file would be longer than the process may write: that would end
/// it by a signal.
fn append_whole(file: &mut File, bytes: &[u8]) -> io::Result<()> {
    expect_room(file, bytes.len() as u64)?;
    file.write_all(bytes)
}

/// Makes the file longer by zeros, unless it would be longer than the process may write.
fn lengthen(file: &File, len: u64) -> io::Result<()> {
    expect_length(len)?;
    file.set_len(len)
}

/// Cuts the file to a length. It makes nothing longer.
fn shorten(file: &File, len: u64) -> io::Result<()> {
    if len < file.metadata()?.len() {
        file.set_len(len)?;
    }
    Ok(())
}

/// The same after a failure. If the file seems to have the length already, it may have another on
/// the disk, and a cut that changes nothing might not be written. So it is made one byte longer
/// first, which needs no room on the disk.
fn shorten_anew(file: &File, len: u64) -> Result<(), FileFault> {
    let Ok(about) = file.metadata() else {
        return Err(FileFault::Device);
    };
    if about.len() < len {
        return Err(FileFault::Shorter);
    }
    if about.len() == len && lengthen(file, len.saturating_add(1)).is_err() {
        return Err(FileFault::Device);
    }
    match file.set_len(len) {
        Ok(()) => Ok(()),
        Err(_) => Err(FileFault::Device),
    }
}

/// The answer of a sync after which the file at its path has the length `found`, if it was left
/// with `len` bytes.
fn after_sync(found: Option<u64>, len: u64, is_synced: bool) -> Result<(), FileFault> {
    match found {
        None => Err(FileFault::Elsewhere),
        Some(now) if now < len => Err(FileFault::Shorter),
        Some(now) if now > len && is_synced => Err(FileFault::Elsewhere),
        Some(_) if is_synced => Ok(()),
        Some(_) => Err(FileFault::Device),
    }
}

/// This many zero bytes are damage wherever a record may begin: no record has the length 0, and no
/// header begins so.
const DAMAGE: u64 = 2;

/// This many bytes complete any record that was cut, and make another one of it, whose checksum is
/// wrong.
const LONGEST: u64 = 600;

/// Cuts a cell that somebody else has cut to its whole records, and puts damage after them: every
/// opening finds that, and none takes the cell for whole. The zeros need no room on the disk.
fn mark_damaged(file: &mut File, alloc: Global) -> io::Result<()> {
    match records_end(file, alloc) {
        Ok(end) => {
            // Without room for the damage nothing is cut.
            let damaged = end.saturating_add(DAMAGE);
            expect_length(damaged)?;
            file.set_len(end)?;
            file.set_len(damaged)?;
        }
        // The end of the records can't be found. In the older layout, which has no checksums, the
        // zeros may complete a record: they are better than a cell that seems whole.
        Err(_) => {
            let len = file.metadata()?.len();
            lengthen(file, len.saturating_add(LONGEST))?;
        }
    }
    file.sync_all()
}

fn records_end(file: &mut File, alloc: Global) -> io::Result<u64> {
    let bytes = read_whole(file, alloc)?;
    Ok(find_text_end(alloc, &bytes)? as u64)
}
