/// The bytes of a bag's identity: those of a SHA-512.
pub const BAG_BYTES: usize = 64;

/// The identity of a bag: the SHA-512 of its `manifest-sha512.txt`.
#[derive(Clone, Copy, Debug, PartialEq, Eq, Hash, PartialOrd, Ord)]
pub struct BagId(pub [u8; BAG_BYTES]);
