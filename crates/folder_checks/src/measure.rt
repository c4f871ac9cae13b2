//! What is measured of a folder while it is read.

use bag_folders::Folders;
use bag_words::SpokenFolders;

/// What was measured of a folder, as far as it is known.
#[derive(Clone, Copy, Debug, PartialEq, Eq)]
pub struct Measure {
    /// How many bytes its files have together.
    pub bytes: Option<u64>,
    /// How many whole seconds it took to read it.
    pub seconds: Option<u64>,
}

impl Measure {
    /// That of a folder of which nothing is known.
    pub fn unknown() -> Measure {
        Measure {
            bytes: None,
            seconds: None,
        }
    }
}

/// Folders of which something is measured while they are read.
pub trait Measured {
    /// What was measured of the folder that was read last.
    fn measure(&self) -> Measure;
}

impl<F: Folders + Measured> Measured for SpokenFolders<'_, F> {
    fn measure(&self) -> Measure {
        self.folders().measure()
    }
}
