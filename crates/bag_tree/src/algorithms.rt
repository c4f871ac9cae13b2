ghost use Rattle.std.specs.Prelude.{◌≡◌};

use bag_text::Algorithm;

/// A set of the algorithms that manifests may use.
#[derive(Clone, Copy, Debug, PartialEq, Eq)]
pub struct Algorithms {
    pub md5: bool,
    pub sha1: bool,
    pub sha256: bool,
    pub sha512: bool,
}

impl Algorithms {
    ghost use Rattle.bag_tree.specs.Algorithms.{all_algorithms, no_algorithms};
    ghost use Rattle.bag_tree.specs.Algorithms.{has_algorithm, either_of, both_of};

    /// Each of the four.
    pub fn all() -> Algorithms
        ensures { result ≡ all_algorithms }
    {
        Algorithms {
            md5: true,
            sha1: true,
            sha256: true,
            sha512: true,
        }
    }

    pub fn none() -> Algorithms
        ensures { result ≡ no_algorithms }
    {
        Algorithms {
            md5: false,
            sha1: false,
            sha256: false,
            sha512: false,
        }
    }

    /// Whether the set has this algorithm.
    pub fn has(self, algorithm: Algorithm) -> bool
        ensures { result ≡ has_algorithm algorithm self }
    {
        match algorithm {
            Algorithm::Md5 => self.md5,
            Algorithm::Sha1 => self.sha1,
            Algorithm::Sha256 => self.sha256,
            Algorithm::Sha512 => self.sha512,
        }
    }

    /// The algorithms of either set.
    pub fn or(self, other: Algorithms) -> Algorithms
        ensures { result ≡ either_of self other }
    {
        Algorithms {
            md5: self.md5 || other.md5,
            sha1: self.sha1 || other.sha1,
            sha256: self.sha256 || other.sha256,
            sha512: self.sha512 || other.sha512,
        }
    }

    /// The algorithms of both sets.
    pub fn and(self, other: Algorithms) -> Algorithms
        ensures { result ≡ both_of self other }
    {
        Algorithms {
            md5: self.md5 && other.md5,
            sha1: self.sha1 && other.sha1,
            sha256: self.sha256 && other.sha256,
            sha512: self.sha512 && other.sha512,
        }
    }
}
