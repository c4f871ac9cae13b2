ghost use Rattle.std.specs.Prelude.{◌≡◌};
ghost use Rattle.bag_check.specs.declared.fault.BagFault.TheVariants.{Memory};
ghost use Rattle.bag_check.specs.Fault.{number_of};

use std::alloc::{AllocError, AllocFailed};
use thiserror::Error;

/// Why a tree of files is no valid bag (RFC 8493, 3) in this project's profile: the first of these
/// that holds. RFC 8493 knows bags with `UnsupportedVersion`, `UnsupportedEncoding`, `HasFetch`,
/// `NoSha512Manifest` and `UnknownAlgorithm`. `Memory` says nothing of the bag.
#[derive(Clone, Copy, Debug, PartialEq, Eq, Error)]
pub enum BagFault {
    /// There is no `bagit.txt`.
    #[error("there is no bagit.txt")]
    NoDeclaration,
    /// `bagit.txt` isn't the two lines of a bag declaration.
    #[error("bagit.txt is no bag declaration")]
    BadDeclaration,
    /// The declared version is neither 1.0 nor 0.97.
    #[error("the declared version is not supported")]
    UnsupportedVersion,
    /// The declared encoding isn't UTF-8.
    #[error("the declared encoding is not supported")]
    UnsupportedEncoding,
    /// There is a `fetch.txt`.
    #[error("there is a fetch.txt")]
    HasFetch,
    /// The payload's folder `data` doesn't exist.
    #[error("there is no payload folder")]
    NoPayloadFolder,
    /// There is no `manifest-sha512.txt`.
    #[error("there is no manifest-sha512.txt")]
    NoSha512Manifest,
    /// A manifest is of another algorithm than md5, sha1, sha256 and sha512.
    #[error("a manifest is of an unknown algorithm")]
    UnknownAlgorithm,
    /// A line of a manifest is neither blank nor a digest and a path.
    #[error("a line of a manifest is malformed")]
    MalformedLine,
    /// A manifest lists a path that is unsafe, or on the wrong side of the payload's folder.
    #[error("a manifest lists an unsafe path")]
    UnsafePath,
    /// A payload manifest lists a path twice.
    #[error("a payload manifest lists a path twice")]
    DuplicateEntry,
    /// A manifest lists a file that isn't there.
    #[error("a listed file is missing")]
    MissingFile,
    /// A payload file isn't listed in every payload manifest.
    #[error("a payload file is not listed")]
    UnlistedFile,
    /// A listed digest isn't that of its file.
    #[error("a file has another digest than the listed one")]
    WrongDigest,
    /// Memory ran out.
    #[error("out of memory")]
    Memory,
}

impl BagFault {
    /// The number of the fault in what the program prints and sends.
    pub fn number(self) -> u8
        ensures { result ≡ number_of self }
    {
        match self {
            BagFault::NoDeclaration => 1,
            BagFault::BadDeclaration => 2,
            BagFault::UnsupportedVersion => 3,
            BagFault::UnsupportedEncoding => 4,
            BagFault::HasFetch => 5,
            BagFault::NoPayloadFolder => 6,
            BagFault::NoSha512Manifest => 7,
            BagFault::UnknownAlgorithm => 8,
            BagFault::MalformedLine => 9,
            BagFault::UnsafePath => 10,
            BagFault::DuplicateEntry => 11,
            BagFault::MissingFile => 12,
            BagFault::UnlistedFile => 13,
            BagFault::WrongDigest => 14,
            BagFault::Memory => 15,
        }
    }
}

impl From<AllocError> for BagFault {
    ghost from_gives = { λ _ e. e ≡ Memory };

    fn from(_e: AllocError) -> BagFault {
        BagFault::Memory
    }
}

impl<T: Drop> From<AllocFailed<T>> for BagFault {
    ghost from_gives = { λ _ e. e ≡ Memory };

    fn from(_e: AllocFailed<T>) -> BagFault {
        BagFault::Memory
    }
}
