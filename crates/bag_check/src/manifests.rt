ghost use Rattle.std.specs.Prelude.{◌≡◌};

use bag_text::Algorithm;
use bag_tree::{is_text_named, part_count};

/// The kinds of manifests (RFC 8493, 2.1.3 and 2.2.1).
#[derive(Clone, Copy, Debug)]
pub enum Kind {
    /// It lists files of the payload's folder.
    Payload,
    /// It lists files beside the payload's folder.
    Tag,
}

/// The algorithms whose manifests are read.
pub(crate) const ALGORITHMS: [Algorithm; 4] = [
    Algorithm::Md5,
    Algorithm::Sha1,
    Algorithm::Sha256,
    Algorithm::Sha512,
];

impl Kind {
    ghost use Rattle.bag_check.specs.Manifests.{prefix_of, manifest_name};

    /// What the names of manifests of this kind begin with.
    fn prefix(self) -> &'static [u8]
        ensures { result.now ≡ prefix_of self }
    {
        match self {
            Kind::Payload => b"manifest-",
            Kind::Tag => b"tagmanifest-",
        }
    }

    /// The name of the manifest of this kind and algorithm.
    #[tactic(auto, unfolding(crate::specs::Manifests::manifest_name))]
    pub fn manifest_name(self, algorithm: Algorithm) -> &'static str
        ensures { result.now ≡ manifest_name self algorithm }
    {
        match (self, algorithm) {
            (Kind::Payload, Algorithm::Md5) => "manifest-md5.txt",
            (Kind::Payload, Algorithm::Sha1) => "manifest-sha1.txt",
            (Kind::Payload, Algorithm::Sha256) => "manifest-sha256.txt",
            (Kind::Payload, Algorithm::Sha512) => "manifest-sha512.txt",
            (Kind::Tag, Algorithm::Md5) => "tagmanifest-md5.txt",
            (Kind::Tag, Algorithm::Sha1) => "tagmanifest-sha1.txt",
            (Kind::Tag, Algorithm::Sha256) => "tagmanifest-sha256.txt",
            (Kind::Tag, Algorithm::Sha512) => "tagmanifest-sha512.txt",
        }
    }
}

ghost use Rattle.bag_check.specs.Manifests.{is_manifest, is_known_of_kind, is_known_manifest};

/// Whether a path is that of a manifest, of whichever algorithm: a file at the bag's own level.
#[tactic(auto, using(crate::proofs::Bools::or_false), unfolding(crate::specs::Manifests::is_manifest))]
pub(crate) fn is_manifest(path: &str) -> bool
    ensures { result ≡ is_manifest path.now }
{
    let bytes = path.as_bytes();
    part_count(bytes) == 1
        && (is_text_named(Kind::Payload.prefix(), bytes)
            || is_text_named(Kind::Tag.prefix(), bytes))
}

/// Whether a path is that of a manifest that is read.
#[tactic(auto, using(crate::proofs::Bools::or_false), unfolding(crate::specs::Manifests::is_known_manifest))]
pub(crate) fn is_known_manifest(path: &str) -> bool
    ensures { result ≡ is_known_manifest path.now }
{
    is_known_of_kind(Kind::Payload, path) || is_known_of_kind(Kind::Tag, path)
}

#[tactic(auto, using(crate::proofs::Bools::or_false), unfolding(crate::specs::Manifests::is_known_of_kind))]
fn is_known_of_kind(kind: Kind, path: &str) -> bool
    ensures { result ≡ is_known_of_kind kind path.now }
{
    path == kind.manifest_name(Algorithm::Md5)
        || path == kind.manifest_name(Algorithm::Sha1)
        || path == kind.manifest_name(Algorithm::Sha256)
        || path == kind.manifest_name(Algorithm::Sha512)
}
