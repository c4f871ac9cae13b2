//! Records are passed by their sizes alone, with no memory.

ghost use Rattle.std.specs.Prelude.{◌≡◌, ◌≤◌, ◌++◌, List, ℕ, length};
ghost use Rattle.records.specs.declared.layout.Layout.{Layout as declared_layout};
ghost use Rattle.records.specs.Layout.{all_encoded};
ghost use Rattle.records.specs.Records.{AreRecords, Records};
ghost use Rattle.ledger.specs.inner.Sizes.{IsSizeAt, Stops};

use fields::CHECKSUM_BYTES;
use records::LONGEST;

// How many bytes come next, by the length before them: none, if there are fewer, or if no record
// has this length.
fn size_at(bytes: &[u8]) -> Option<usize>
    ensures { IsSizeAt bytes.now result }
{
    let [high, low, rest @ ..] = bytes else {
        return None;
    };
    let size = usize::from(u16::from_be_bytes([*high, *low]));
    if LONGEST + CHECKSUM_BYTES < size || rest.len() < size {
        return None;
    }
    Some(2 + size)
}

/// How many of the bytes are records, all of which are known to be of one layout.
pub(crate) fn pass_sizes(bytes: &[u8]) -> usize
    ensures in_range { result ≤ length bytes.now }
    ensures passed { (l : declared_layout) (records : Records) (rest : List ℕ)
        → AreRecords records → bytes.now ≡ all_encoded l records ++ rest → Stops rest
        → result ≡ length (all_encoded l records) }
{
    let mut len = 0;
    while let Some(size) = size_at(&bytes[len..]) {
        len += size;
    }
    len
}
