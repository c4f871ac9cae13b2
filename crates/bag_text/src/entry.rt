ghost use Rattle.std.specs.Prelude.{◌≡◌};
ghost use Rattle.std.specs.String.{string_bytes};
ghost use Rattle.bag_text.specs.ListedFile.{ListedFile};

use crate::hex_digest::HexDigest;
use std::marker::Model;

/// An entry of a manifest: the path of a file, and the file's digest.
#[derive(Debug, Drop)]
pub struct Entry<'a> {
    digest: HexDigest<'a>,
    path: String,
}

impl<'a> Model for Entry<'a> {
    ghost Value = { ListedFile };

    ghost view = { λ it. record { digest = it.digest; path = string_bytes it.path } };
}

impl<'a> Entry<'a> {
    pub(crate) fn new(digest: HexDigest<'a>, path: String) -> Self
        ensures { result ≡ record { digest = digest.entry; path = string_bytes path } }
    {
        Entry { digest, path }
    }

    /// The digest, of as many bytes as the manifest's algorithm has.
    pub fn digest(&self) -> &HexDigest<'a>
        ensures { result.now ≡ self.now.digest }
    {
        &self.digest
    }

    /// The path of the file, which may be empty.
    pub fn path(&self) -> &str
        ensures { result.now ≡ self.now.path }
    {
        self.path.as_str()
    }
}
