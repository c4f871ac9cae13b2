ghost use Rattle.std.specs.Prelude.{◌≡◌, ℕ, List};

use std::marker::Model;

/// The bytes of a datagram that was sent. A clause sees the bytes.
#[derive(Debug, Drop)]
pub struct SentBytes {
    bytes: Vec<u8>,
}

impl Model for SentBytes {
    ghost Value = { List ℕ };

    ghost view = { λ b. b.bytes.items };
}

impl SentBytes {
    /// These bytes.
    pub fn new(bytes: Vec<u8>) -> SentBytes
        ensures { result ≡ bytes.items }
    {
        SentBytes { bytes }
    }

    /// The bytes.
    pub fn as_slice(&self) -> &[u8]
        ensures { result.now ≡ self.now }
    {
        self.bytes.as_slice()
    }
}
