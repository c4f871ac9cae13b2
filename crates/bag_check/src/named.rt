ghost use Rattle.std.specs.Prelude.{◌≡◌};
ghost use Rattle.bag_check.specs.Named.{asks, asked_by};

use crate::manifests::Kind;
use bag_text::Algorithm;
use bag_tree::Algorithms;

/// The algorithms by which a file of this path asks for digests: the manifest's, if the path names
/// a manifest of either kind, or else none. A check of a tree needs only
/// the digests by the algorithms that its paths ask for.
pub fn named_by(path: &str) -> Algorithms
    ensures { result ≡ asked_by path.now }
{
    Algorithms {
        md5: asks(Algorithm::Md5, path),
        sha1: asks(Algorithm::Sha1, path),
        sha256: asks(Algorithm::Sha256, path),
        sha512: asks(Algorithm::Sha512, path),
    }
}

#[tactic(auto, using(crate::proofs::Bools::or_false), unfolding(crate::specs::Named::asks))]
fn asks(algorithm: Algorithm, path: &str) -> bool
    ensures { result ≡ asks algorithm path.now }
{
    path == Kind::Payload.manifest_name(algorithm) || path == Kind::Tag.manifest_name(algorithm)
}
