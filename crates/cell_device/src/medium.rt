ghost use Rattle.std.specs.Prelude.{◌≤◌, ◌<◌, length};
ghost use Rattle.std.specs.Vec.{vec_capacity};

use crate::change::Change;
use std::alloc::{AllocError, Global};

/// The bytes of a cell in memory, and all that crashes may have left of them. A crash leaves the
/// first bytes of the buffer, from `least` to `most` of them; a read gives the first `seen`.
#[derive(Drop)]
pub(crate) struct Medium {
    alloc: Global,
    buffer: Vec<u8>,
    least: usize,
    most: usize,
    seen: usize,
    /// The bytes after `least` are cut, and not appended.
    is_cut: bool,
    /// The changes of all that, the newest last.
    changes: Vec<Change>,
    ghost least_seen: { least ≤ seen },
    ghost most_seen: { seen ≤ most },
    ghost most_there: { most ≤ length buffer.items },
    // So that a sync takes no memory.
    ghost room: { least < most → length changes.items < vec_capacity changes },
}

impl Medium {
    ghost use Rattle.std.specs.Prelude.{◌≡◌, OnOk, OnErr};
    ghost use Rattle.cell_device.specs.Images.{at_rest, with_bytes, cut_to, all_synced};
    ghost use Rattle.cell_device.specs.Images.{after_failure};
    ghost use Rattle.cell_device.specs.inner.Undone.{before};
    ghost use Rattle.cell_device.specs.inner.Mediums.{medium_image, state, moment};
    ghost use Rattle.cell_device.specs.inner.Mediums.{IsSameTime, GoesOn};

    /// These bytes, all of them synced.
    pub fn new(alloc: Global, bytes: Vec<u8>) -> Medium
        ensures bytes { medium_image result ≡ at_rest bytes.items }
        ensures moment { moment result ≡ 0 }
    {
        let len = bytes.len();
        Medium {
            alloc,
            buffer: bytes,
            least: len,
            most: len,
            seen: len,
            is_cut: false,
            changes: Vec::new(alloc),
        }
    }

    /// What a read gives.
    pub fn bytes(&self) -> &[u8]
        ensures { result.now ≡ (medium_image self.now).seen }
    {
        &self.buffer[..self.seen]
    }

    /// Puts the bytes after those that a read gives.
    pub fn append(&mut self, bytes: &[u8]) -> Result<(), AllocError>
        requires { length (medium_image self.old).synced ≤ length (medium_image self.old).newest }
        ensures done { OnOk result
            (medium_image self.new ≡ with_bytes bytes.now (medium_image self.old)) }
        ensures refused { OnErr result (medium_image self.new ≡ medium_image self.old) }
        ensures time { GoesOn self.old self.new }
    {
        // Memory is taken first, so that a refusal changes nothing. There is room for two changes:
        // this one, and that of the sync after it.
        let lost = self.buffer[self.seen..].to_vec(self.alloc)?;
        self.changes.reserve(2)?;
        self.buffer.reserve(bytes.len())?;
        let change = Change {
            at: self.seen,
            lost,
            least: self.least,
            most: self.most,
        };
        self.changes.push_reserved(change);
        self.buffer.truncate(self.seen);
        // There is room.
        self.buffer.extend_from_slice(bytes).unwrap();
        self.most = self.buffer.len();
        self.seen = self.most;
        self.is_cut = false;
        Ok(())
    }

    /// Cuts what a read gives to a length.
    pub fn cut(&mut self, len: usize) -> Result<(), AllocError>
        requires settled { (medium_image self.old).synced ≡ (medium_image self.old).newest }
        requires within { len ≤ length (medium_image self.old).seen }
        ensures done { OnOk result (medium_image self.new ≡ cut_to len (medium_image self.old)) }
        ensures refused { OnErr result (medium_image self.new ≡ medium_image self.old) }
        ensures time { GoesOn self.old self.new }
    {
        // For this change, and that of the sync after it.
        self.changes.reserve(2)?;
        let change = self.now();
        self.changes.push_reserved(change);
        self.least = len;
        self.seen = len;
        self.is_cut = true;
        Ok(())
    }

    /// What a read gives is synced. It takes no memory.
    pub fn settle(&mut self)
        ensures bytes { medium_image self.new ≡ all_synced (medium_image self.old) }
        ensures time { GoesOn self.old self.new }
    {
        if self.least < self.most {
            let change = self.now();
            self.changes.push_reserved(change);
            self.least = self.seen;
            self.most = self.seen;
            self.is_cut = false;
        }
    }

    /// A read gives this many of the bytes that no sync has kept.
    pub fn fail(&mut self, kept: usize)
        ensures bytes { medium_image self.new ≡ after_failure kept (medium_image self.old) }
        ensures time { IsSameTime self.old self.new }
    {
        self.seen = self.least.saturating_add(kept).min(self.most);
    }

    /// The state now, as a change that leaves the buffer alone keeps it.
    fn now(&self) -> Change
        ensures { before result (state self.now) ≡ state self.now }
    {
        Change {
            at: self.buffer.len(),
            lost: Vec::new(self.alloc),
            least: self.least,
            most: self.most,
        }
    }
}
