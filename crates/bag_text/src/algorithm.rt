ghost use Rattle.std.specs.Prelude.{◌≡◌};

/// A digest algorithm that a manifest may use (RFC 8493, 2.4).
#[derive(Clone, Copy, Debug, PartialEq, Eq)]
pub enum Algorithm {
    Md5,
    Sha1,
    Sha256,
    Sha512,
}

impl Algorithm {
    ghost use Rattle.bag_text.specs.Algorithms.{digest_len, hex_len, algorithm_name};

    /// How many bytes a digest has.
    pub fn digest_len(self) -> usize
        ensures { result ≡ digest_len self }
    {
        match self {
            Algorithm::Md5 => 16,
            Algorithm::Sha1 => 20,
            Algorithm::Sha256 => 32,
            Algorithm::Sha512 => 64,
        }
    }

    /// How many hex digits a digest has.
    pub fn hex_len(self) -> usize
        ensures { result ≡ hex_len self }
    {
        2 * self.digest_len()
    }

    /// The name as a manifest's file name has it, in lower case.
    pub fn name(self) -> &'static str
        ensures { result.now ≡ algorithm_name self }
    {
        match self {
            Algorithm::Md5 => "md5",
            Algorithm::Sha1 => "sha1",
            Algorithm::Sha256 => "sha256",
            Algorithm::Sha512 => "sha512",
        }
    }
}
