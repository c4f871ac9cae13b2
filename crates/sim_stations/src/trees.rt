ghost use Rattle.std.specs.Prelude.{◌≡◌, ◌++◌, ◌∷◌, [], None, is_some, IfOk, OnOk, OnErr};
ghost use Rattle.std.specs.Option.{option_copied};
ghost use Rattle.bag_tree.specs.Tree.{no_files, fault_of_added};
ghost use Rattle.world_law.specs.Trees.{tree_at};
ghost use Rattle.sim_stations.specs.Changes.{trees_with_folder, trees_with_file};
ghost use Rattle.sim_stations.specs.Changes.{outcome_of_adding, outcome_unless, files_after};
ghost use Rattle.sim_stations.specs.Places.{place_of};

use bag_tree::{Tree, TreeFault};
use schedule::TreeNo;
use std::alloc::{AllocError, Global};
use std::collections::BTreeMap;
use std::marker::Model;

/// The trees that were declared, each found by its number. A clause sees them in the order of their
/// declarations.
///
/// A tree is found in a time that grows with the logarithm of the number of trees, whatever their
/// numbers are: a schedule may choose them so that hashes of them collide.
#[derive(Drop)]
pub struct Trees {
    alloc: Global,
    // In the order of their declarations, and the place of each number there, counted from 0.
    trees: Vec<Declared>,
    places: BTreeMap<u32, usize>,
}

impl Model for Trees {
    ghost use Rattle.std.specs.Prelude.{List};
    ghost use Rattle.world_law.specs.Trees.{NumberedTree};
    ghost use Rattle.sim_stations.specs.Places.{ArePlaces};

    ghost Value = { List NumberedTree };

    ghost view = { λ t. t.trees.items };

    ghost invariant = { λ t. ArePlaces t.places.entries t.trees.items };
}

/// A tree and its number.
#[derive(Drop)]
struct Declared {
    number: TreeNo,
    files: Tree,
}

impl Model for Declared {
    ghost use Rattle.world_law.specs.Trees.{NumberedTree};

    ghost Value = { NumberedTree };

    ghost view = { λ d. record { number = d.number; files = d.files } };
}

/// What became of a file that was to be added.
#[derive(Clone, Copy, Debug, PartialEq, Eq)]
pub enum Added {
    /// It is in the tree.
    Done,
    /// The tree was not declared.
    NoTree,
    /// The tree can have no such file.
    BadFile,
}

impl Trees {
    /// No trees.
    pub fn new(alloc: Global) -> Trees
        ensures { result ≡ [] }
    {
        Trees {
            alloc,
            trees: Vec::new(alloc),
            places: BTreeMap::new(alloc),
        }
    }

    /// The tree of this number, where it was declared.
    pub fn get(&self, number: TreeNo) -> Option<&Tree>
        ensures { option_copied result ≡ tree_at number self.now }
    {
        let place = self.place_of(number)?;
        Some(&self.trees[place].files)
    }

    /// Declares an empty tree under this number, which has none.
    pub fn declare(&mut self, number: TreeNo) -> Result<(), AllocError>
        requires { tree_at number self.old ≡ None }
        ensures ok { OnOk result
            (self.new ≡ self.old ++ record { number = number; files = no_files } ∷ []) }
        ensures err { OnErr result (self.new ≡ self.old) }
    {
        self.trees.reserve(1)?;
        self.places.insert(number.number(), self.trees.len())?;
        let files = Tree::new(self.alloc);
        self.trees.push_reserved(Declared { number, files });
        Ok(())
    }

    /// Adds the payload's folder to the tree. Whether the tree was declared.
    pub fn add_folder(&mut self, number: TreeNo) -> bool
        ensures declared { result ≡ is_some (tree_at number self.old) }
        ensures after { self.new ≡ trees_with_folder number (tree_at number self.old) self.old }
    {
        let Some(place) = self.place_of(number) else {
            return false;
        };
        let declared = &mut self.trees[place];
        declared.files.add_folder();
        true
    }

    /// Adds a file to the tree, where the tree was declared and can have it.
    pub fn add_file(
        &mut self,
        number: TreeNo,
        path: &str,
        bytes: &[u8],
    ) -> Result<Added, AllocError>
        ensures answer { IfOk result
            (λ a. a ≡ outcome_of_adding path.now bytes.now (tree_at number self.old)) }
        ensures ok { OnOk result
            (self.new ≡ trees_with_file number path.now bytes.now
            (tree_at number self.old) self.old) }
        ensures err { OnErr result (self.new ≡ self.old) }
    {
        let Some(place) = self.place_of(number) else {
            return Ok(Added::NoTree);
        };
        let declared = &mut self.trees[place];
        add_to(&mut declared.files, path, bytes)
    }

    /// The place of this number's tree, where it was declared.
    fn place_of(&self, number: TreeNo) -> Option<usize>
        ensures { result ≡ place_of number self.now }
    {
        self.places.get(&number.number()).copied()
    }
}

/// Adds a file to a tree, where the tree can have it.
fn add_to(tree: &mut Tree, path: &str, bytes: &[u8]) -> Result<Added, AllocError>
    ensures answer { IfOk result
        (λ a. a ≡ outcome_unless (fault_of_added tree.old path.now bytes.now)) }
    ensures ok { OnOk result (tree.new ≡ files_after path.now bytes.now tree.old) }
    ensures err { OnErr result (tree.new ≡ tree.old) }
{
    match tree.add(path, bytes) {
        Ok(()) => return Ok(Added::Done),
        Err(TreeFault::Memory) => return Err(AllocError),
        Err(_) => return Ok(Added::BadFile),
    }
}
