use std::fs::Metadata;
use std::os::unix::fs::MetadataExt;

/// What an entry of a folder is.
#[derive(Clone, Copy, Debug, PartialEq, Eq)]
pub(crate) enum EntryKind {
    File,
    Folder,
    Other,
}

/// What a look at an entry, or at a file that is open, says of it.
#[derive(Clone, Copy, Debug)]
pub(crate) struct Look {
    pub(crate) kind: EntryKind,
    /// How many bytes a file has.
    pub(crate) length: u64,
    device: u64,
    inode: u64,
    /// When it was changed last, in seconds and nanoseconds since 1970: a time that nobody can set.
    changed: (i64, i64),
}

impl Look {
    /// What the system says of it.
    pub(crate) fn of(metadata: &Metadata) -> Look {
        let kind = if metadata.is_file() {
            EntryKind::File
        } else if metadata.is_dir() {
            EntryKind::Folder
        } else {
            EntryKind::Other
        };
        Look {
            kind,
            length: metadata.len(),
            device: metadata.dev(),
            inode: metadata.ino(),
            changed: (metadata.ctime(), metadata.ctime_nsec()),
        }
    }

    /// In which second since 1970 it was changed last.
    pub(crate) fn changed_second(&self) -> i64 {
        self.changed.0
    }

    /// Its numbers, each of eight bytes: which file it is, how long, and when it was changed last.
    pub(crate) fn numbers(&self) -> [[u8; 8]; 5] {
        [
            self.device.to_le_bytes(),
            self.inode.to_le_bytes(),
            self.length.to_le_bytes(),
            self.changed.0.to_le_bytes(),
            self.changed.1.to_le_bytes(),
        ]
    }

    /// Whether both are of one file.
    pub(crate) fn is_same_file(&self, other: &Look) -> bool {
        self.kind == EntryKind::File
            && other.kind == EntryKind::File
            && self.device == other.device
            && self.inode == other.inode
    }
}
