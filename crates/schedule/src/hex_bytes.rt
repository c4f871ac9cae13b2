ghost use Rattle.std.specs.Prelude.{◌≡◌, ℕ, List};

use std::marker::Model;

/// Bytes as a schedule gives them, in hex digits: a file's content, or what arrives at a site. A
/// clause sees the bytes.
#[derive(Debug, Drop)]
pub struct HexBytes {
    bytes: Vec<u8>,
}

impl Model for HexBytes {
    ghost Value = { List ℕ };

    ghost view = { λ b. b.bytes.items };
}

impl HexBytes {
    /// These bytes.
    pub fn new(bytes: Vec<u8>) -> HexBytes
        ensures { result ≡ bytes.items }
    {
        HexBytes { bytes }
    }

    /// The bytes.
    pub fn as_slice(&self) -> &[u8]
        ensures { result.now ≡ self.now }
    {
        self.bytes.as_slice()
    }
}
