ghost use Rattle.std.specs.Prelude.{◌≡◌, false, length, nat_lt, OnOk, OnErr, IfOk};
ghost use Rattle.std.specs.List.{list_any};
ghost use Rattle.bag_tree.specs.Fault.{RefusesFor};

use crate::fault::TreeFault;
use crate::path::{
    DEEPEST_PATH, PAYLOAD_FOLDER, has_unsafe_part, is_payload, is_read_text, part_count,
};
use crate::places::{has_file, has_file_below, lead_folders, lead_path, lies_below_file};
use std::alloc::{AllocError, Global};
use std::collections::BTreeMap;
use std::marker::Model;

/// A tree has at most this many files.
pub const MOST_FILES: usize = 100_000;

/// A text that describes a bag has at most this many bytes, 64 MiB.
pub const LONGEST_TEXT: usize = 67_108_864;

/// A file of a tree: its path, and its bytes.
#[derive(Drop)]
pub struct TreeFile {
    path: String,
    bytes: Vec<u8>,
}

impl Model for TreeFile {
    ghost use Rattle.std.specs.Prelude.{string_bytes};
    ghost use Rattle.bag_tree.specs.Tree.{File};

    ghost Value = { File };

    ghost view = { λ f. record { path = string_bytes f.path; bytes = f.bytes.items } };
}

impl TreeFile {
    fn new(alloc: Global, path: &str, bytes: &[u8]) -> Result<TreeFile, AllocError>
        ensures { IfOk result (λ f. f ≡ record { path = path.now; bytes = bytes.now }) }
    {
        Ok(TreeFile {
            path: String::from_str(alloc, path)?,
            bytes: Vec::from_slice(alloc, bytes)?,
        })
    }

    /// The path, relative to the tree's own folder.
    pub fn path(&self) -> &str
        ensures { result.now ≡ self.now.path }
    {
        self.path.as_str()
    }

    /// The file's bytes.
    pub fn bytes(&self) -> &[u8]
        ensures { result.now ≡ self.now.bytes }
    {
        self.bytes.as_slice()
    }
}

/// A tree of files held in memory: a finite map from paths to bytes, and whether the payload's
/// folder `data` exists.
#[derive(Drop)]
pub struct Tree {
    alloc: Global,
    files: Vec<TreeFile>,
    folder: bool,
    /// Where the file of a path is among the files.
    by_path: BTreeMap<String, usize>,
    /// The place of a file below each folder.
    by_folder: BTreeMap<String, usize>,
}

impl Model for Tree {
    ghost use Rattle.std.specs.Prelude.{◌≡◌, false};
    ghost use Rattle.std.specs.List.{list_any};
    ghost use Rattle.bag_tree.specs.Path.{is_below};
    ghost use Rattle.bag_tree.specs.Tree.{Files};
    ghost use Rattle.bag_tree.specs.inner.Places.{FindsEach, is_at, is_too_deep};

    ghost Value = { Files };

    ghost view = { λ t. record { files = t.files.items; folder = t.folder } };

    ghost invariant = { λ t. FindsEach is_at t.files.items t.by_path
        × FindsEach is_below t.files.items t.by_folder
        × (list_any is_too_deep t.files.items ≡ false) };
}

impl Tree {
    ghost use Rattle.bag_tree.specs.Tree.{no_files, with_file, with_folder, payload_exists};
    ghost use Rattle.bag_tree.specs.Path.{parts_of};
    ghost use Rattle.bag_tree.specs.Tree.{clash, deepest_path, is_bad_path, fault_of_added};

    /// A tree of nothing.
    pub fn new(alloc: Global) -> Tree
        ensures { result ≡ no_files }
    {
        Tree {
            alloc,
            files: Vec::new(alloc),
            folder: false,
            by_path: BTreeMap::new(alloc),
            by_folder: BTreeMap::new(alloc),
        }
    }

    /// The files, in the order in which they came.
    pub fn files(&self) -> &[TreeFile]
        ensures { result.now ≡ self.now.files }
    {
        self.files.as_slice()
    }

    /// Makes the payload's folder `data`.
    pub fn add_folder(&mut self)
        ensures { self.new ≡ with_folder self.old }
    {
        self.folder = true;
    }

    /// Whether the payload's folder `data` exists: it was added, or it has a file in it.
    pub fn payload_exists(&self) -> bool
        ensures { result ≡ payload_exists self.now }
    {
        self.folder || has_payload(self.files.as_slice())
    }

    /// Adds a file. If it is refused, nothing changes. The refusal is the first of these that
    /// holds: `BadPath`, if the path is unsafe, is `data`, exists, is below a file or has a file
    /// below it; `TooDeep`; `TooMany`; `TextTooLong`, for a text that describes a bag; and
    /// `Memory`.
    #[tactic(auto, unfolding(crate::specs::Tree::fault_of_added))]
    pub fn add(&mut self, path: &str, bytes: &[u8]) -> Result<(), TreeFault>
        ensures refused { RefusesFor (fault_of_added self.old path.now bytes.now) result }
        ensures ok { OnOk result (self.new ≡ with_file self.old path.now bytes.now) }
        ensures err { OnErr result (self.new ≡ self.old) }
    {
        if self.has_no_place(path) {
            return Err(TreeFault::BadPath);
        }
        if part_count(path.as_bytes()) > DEEPEST_PATH {
            return Err(TreeFault::TooDeep);
        }
        if self.files.len() >= MOST_FILES {
            return Err(TreeFault::TooMany);
        }
        if is_read_text(path.as_bytes()) && bytes.len() > LONGEST_TEXT {
            return Err(TreeFault::TextTooLong);
        }
        self.push(path, bytes)?;
        Ok(())
    }

    /// Adds a file that the tree can have.
    fn push(&mut self, path: &str, bytes: &[u8]) -> Result<(), AllocError>
        requires placed { list_any (λ file. clash file.path path.now) self.old.files ≡ false }
        requires deepest { nat_lt deepest_path (length (parts_of path.now)) ≡ false }
        ensures ok { OnOk result (self.new ≡ with_file self.old path.now bytes.now) }
        ensures err { OnErr result (self.new ≡ self.old) }
    {
        let file = TreeFile::new(self.alloc, path, bytes)?;
        let files = self.files.as_slice();
        lead_folders(self.alloc, files, &mut self.by_folder, path)?;
        lead_path(self.alloc, files, &mut self.by_path, path)?;
        self.files.push(file)?;
        Ok(())
    }

    /// Whether the tree can have no further file of this path.
    fn has_no_place(&self, path: &str) -> bool
        ensures { result ≡ is_bad_path self.now path.now }
    {
        has_unsafe_part(path.as_bytes()) || path == PAYLOAD_FOLDER || self.has_clash(path)
    }

    /// Whether a file has this path, lies below it, or has it below itself.
    fn has_clash(&self, path: &str) -> bool
        ensures { result ≡ list_any (λ file. clash file.path path.now) self.now.files }
    {
        let files = self.files.as_slice();
        has_file(files, &self.by_path, path)
            | has_file_below(files, &self.by_folder, path)
            | lies_below_file(files, &self.by_path, path)
    }
}

ghost use Rattle.bag_tree.specs.Path.{is_payload};

/// Whether a file lies in the payload's folder.
fn has_payload(files: &[TreeFile]) -> bool
    ensures { result ≡ list_any (λ file. is_payload file.path) files.now }
{
    files.iter().any(|file| is_payload(file.path().as_bytes()))
}
