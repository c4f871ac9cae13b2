ghost use Rattle.std.specs.Prelude.{◌≡◌, ℕ, List, OnOk, IfOk, Some, None, cond};
ghost use Rattle.std.specs.Cmp.Lexicographic.{slice_cmp};
ghost use Rattle.std.specs.Ordering.{nat_cmp};
ghost use Rattle.std.specs.Option.{option_copied, option_or};
ghost use Rattle.std.specs.Str.{bytes_eq};
ghost use Rattle.std.specs.BTreeMap.{get_by};

use bag_tree::FileFacts;
use std::alloc::{AllocError, Global};
use std::collections::BTreeMap;
use std::marker::Model;

/// The files of a tree, to be looked up by their paths. The map is ordered and not hashed, since an
/// adversary may choose the paths.
#[derive(Drop)]
pub struct FilesByPath<'a> {
    files: &'a [FileFacts],
    by_path: BTreeMap<&'a str, &'a FileFacts>,
}

impl<'a> Model for FilesByPath<'a> {
    ghost use Rattle.std.specs.Prelude.{◌≡◌, ℕ, List};
    ghost use Rattle.std.specs.Cmp.Lexicographic.{slice_cmp};
    ghost use Rattle.std.specs.Ordering.{nat_cmp};
    ghost use Rattle.std.specs.Option.{option_copied};
    ghost use Rattle.std.specs.BTreeMap.{get_by};
    ghost use Rattle.bag_tree.specs.Facts.{FileFact};
    ghost use Rattle.bag_check.specs.Manifests.{file_at};

    ghost Value = { List FileFact };

    ghost view = { λ f. f.files.now };

    // A look-up finds the first file of the path.
    ghost invariant = { λ f. (q : List ℕ)
        → option_copied (get_by (λ k. slice_cmp nat_cmp q k.now) f.by_path)
        ≡ file_at q f.files.now };
}

impl<'a> FilesByPath<'a> {
    ghost use Rattle.bag_check.specs.Manifests.{file_at, has_file, text_at};

    /// An index of these files. The only refusal is that memory ran out.
    pub fn new(alloc: Global, files: &'a [FileFacts]) -> Result<FilesByPath<'a>, AllocError>
        ensures { IfOk result (λ found. found ≡ files.now) }
    {
        let mut by_path = BTreeMap::new(alloc);
        for file in files {
            put(&mut by_path, file)?;
        }
        Ok(FilesByPath { files, by_path })
    }

    /// The files, in the tree's order.
    pub fn files(&self) -> &'a [FileFacts]
        ensures { result.now ≡ self.now }
    {
        self.files
    }

    /// The file of this path, where there is one.
    pub fn file_at(&self, path: &str) -> Option<&'a FileFacts>
        ensures { option_copied result ≡ file_at path.now self.now }
    {
        self.by_path.get(path).copied()
    }

    /// Whether there is a file of this path.
    pub fn has_file(&self, path: &str) -> bool
        ensures { result ≡ has_file path.now self.now }
    {
        self.file_at(path).is_some()
    }

    /// The bytes of the text of this path, where there is one.
    pub fn text_at(&self, path: &str) -> Option<&'a [u8]>
        ensures { option_copied result ≡ text_at path.now self.now }
    {
        match self.file_at(path) {
            None => None,
            Some(file) => Some(file.text().unwrap_or(&[])),
        }
    }
}

/// Puts a file in at its path, where there is none yet.
fn put<'a>(
    by_path: &mut BTreeMap<&'a str, &'a FileFacts>,
    file: &'a FileFacts,
) -> Result<(), AllocError>
    ensures { OnOk result ((q : List ℕ) →
        option_copied (get_by (λ k. slice_cmp nat_cmp q k.now) by_path.new)
        ≡ option_or (option_copied (get_by (λ k. slice_cmp nat_cmp q k.now) by_path.old))
        (cond (bytes_eq file.now.path q) (Some file.now) None)) }
{
    let path = file.path();
    // The first file of a path stays.
    if let Some(first) = by_path.insert(path, file)? {
        by_path.insert(path, first)?;
    }
    Ok(())
}
