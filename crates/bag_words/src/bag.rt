//! A folder that was read, as words are made of it.

use bag_check::FilesByPath;
use bag_text::Algorithm;
use bag_tree::Facts;

/// The algorithms whose manifests are read.
pub(crate) const ALGORITHMS: [Algorithm; 4] = [
    Algorithm::Md5,
    Algorithm::Sha1,
    Algorithm::Sha256,
    Algorithm::Sha512,
];

/// A folder that was read: its path, what is known of it, and its files by their paths.
#[derive(Clone, Copy)]
pub(crate) struct Bag<'a, 'f> {
    pub(crate) rt: &'a HostRuntime,
    pub(crate) folder: &'a str,
    pub(crate) facts: &'a Facts,
    pub(crate) files: &'f FilesByPath<'a>,
    /// Whether each file was read, and its digests were asked for: so all that is wrong is known.
    pub(crate) is_known_whole: bool,
}
