ghost use Rattle.std.specs.Prelude.{◌≡◌};
ghost use Rattle.fields.specs.Checksums.{checksum_len, ChecksumsAreExact, ChecksumsHaveTheirLength};

use crate::checksum::CHECKSUM_BYTES;

/// Bytes with their checksum, which is 8 bytes, are read, and no others are. It does nothing: its
/// contract has the laws.
pub fn checksums_are_exact()
    ensures law { ChecksumsAreExact }
    ensures length { ChecksumsHaveTheirLength }
    ensures number { CHECKSUM_BYTES ≡ checksum_len }
{}
