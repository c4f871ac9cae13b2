use crate::folders::Folders;
use bag_check::BagFault;
use bag_tree::{Facts, Tree, TreeFault, facts_of};
use std::alloc::{AllocError, Global};
use std::marker::Model;

/// A tree, and the path of its folder.
#[derive(Drop)]
pub struct NamedTree {
    path: String,
    tree: Tree,
}

impl Model for NamedTree {
    ghost use Rattle.std.specs.Prelude.{string_bytes};
    ghost use Rattle.bag_folders.specs.Folders.{NamedTree};

    ghost Value = { NamedTree };

    ghost view = { λ n. record { path = string_bytes n.path; files = n.tree } };
}

/// Folders in memory: trees by the paths of their folders.
#[derive(Drop)]
pub struct MemoryFolders {
    alloc: Global,
    trees: Vec<NamedTree>,
}

impl Model for MemoryFolders {
    ghost use Rattle.std.specs.Prelude.{List};
    ghost use Rattle.bag_folders.specs.Folders.{NamedTree};

    ghost Value = { List NamedTree };

    ghost view = { λ f. f.trees.items };
}

impl MemoryFolders {
    ghost use Rattle.std.specs.Prelude.{◌≡◌, [], ◌∷◌, ◌++◌, OnOk, OnErr};

    /// No folders.
    pub fn new(alloc: Global) -> MemoryFolders
        ensures { result ≡ [] }
    {
        MemoryFolders {
            alloc,
            trees: Vec::new(alloc),
        }
    }

    /// Adds a folder of this path that holds the tree. If two folders have one path, the first is
    /// read.
    pub fn add(&mut self, path: &str, tree: Tree) -> Result<(), AllocError>
        ensures ok { OnOk result
            (self.new ≡ self.old ++ record { path = path.now; files = tree } ∷ []) }
        ensures err { OnErr result (self.new ≡ self.old) }
    {
        let path = String::from_str(self.alloc, path)?;
        self.trees.push(NamedTree { path, tree })?;
        Ok(())
    }
}

impl Folders for MemoryFolders {
    ghost use Rattle.std.specs.Prelude.{Some, codes};
    ghost use Rattle.bag_folders.specs.Folders.{read_of};

    ghost gives = { λ folders. Some (read_of folders) };

    ghost fails_at = { λ _. Some (codes ".") };

    fn read(&mut self, path: &str) -> Result<Facts, TreeFault> {
        match tree_at(self.trees.as_slice(), path) {
            Some(named) => Ok(facts_of(self.alloc, &named.tree)?),
            None => Err(TreeFault::Listing),
        }
    }

    fn refused(&mut self, _fault: BagFault) {}

    fn failed_at(&self) -> Option<&str> {
        Some(".")
    }
}

ghost use Rattle.std.specs.Prelude.{◌≡◌};
ghost use Rattle.std.specs.List.{find};
ghost use Rattle.std.specs.Option.{option_copied};
ghost use Rattle.std.specs.Str.{bytes_eq};

/// The first folder of this path.
fn tree_at<'a>(trees: &'a [NamedTree], path: &str) -> Option<&'a NamedTree>
    ensures { option_copied result ≡ find (λ tree. bytes_eq tree.path path.now) trees.now }
{
    trees.iter().find(|tree| tree.path.as_str() == path)
}
