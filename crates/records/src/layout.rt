//! The numbers of a journal's layouts.

ghost use Rattle.std.specs.Prelude.{◌≡◌};
ghost use Rattle.records.specs.Layout.{checksum_size};

use fields::CHECKSUM_BYTES;

/// A layout of records: in the first they have no checksum, in the second they end with one.
#[derive(Clone, Copy, Debug, PartialEq, Eq)]
pub enum Layout {
    First,
    Second,
}

impl Layout {
    /// How many bytes of a record are its checksum.
    pub(crate) fn checksum_size(self) -> usize
        ensures { result ≡ checksum_size self }
    {
        match self {
            Layout::First => 0,
            Layout::Second => CHECKSUM_BYTES,
        }
    }
}

/// The four bytes with which a journal of the first layout begins.
pub const OLD_MAGIC: [u8; 4] = [0x42, 0x50, 0x4a, 0x31];

/// The four bytes with which a header of the second layout begins.
pub const MAGIC: [u8; 4] = [0x42, 0x50, 0x4a, 0x32];

/// The bytes of a header up to the site: magic, federation and site. A header of the first layout
/// has no more.
pub const FRONT: usize = 13;

/// The fewest bytes that a record can have between its length field and its checksum.
pub const SHORTEST: usize = 11;

/// The most bytes that a record can have between its length field and its checksum.
pub const LONGEST: usize = 275;

pub(crate) const DEPOSIT: u8 = 1;

pub(crate) const ROUND: u8 = 2;

pub(crate) const PROMISE: u8 = 3;

pub(crate) const VOTE: u8 = 4;

pub(crate) const KNOWN: u8 = 5;
