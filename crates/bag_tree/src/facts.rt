ghost use Rattle.std.specs.Prelude.{◌≡◌, IfOk};
ghost use Rattle.bag_tree.specs.Facts.{facts_of_tree};

use crate::algorithms::Algorithms;
use crate::file_facts::FileFacts;
use crate::tree::Tree;
use std::alloc::{AllocError, Global};
use std::marker::Model;

/// What a checker knows of a tree: the facts of each file, and whether the payload's folder exists.
#[derive(Drop)]
pub struct Facts {
    files: Vec<FileFacts>,
    payload: bool,
}

impl Model for Facts {
    ghost use Rattle.bag_tree.specs.Facts.{TreeFacts};

    ghost Value = { TreeFacts };

    ghost view = { λ f. record { files = f.files.items; payload = f.payload } };
}

impl Facts {
    /// What is known of a tree of these files.
    pub fn new(files: Vec<FileFacts>, payload: bool) -> Facts
        ensures { result ≡ record { files = files.items; payload = payload } }
    {
        Facts { files, payload }
    }

    /// The facts of each file, in the tree's order.
    pub fn files(&self) -> &[FileFacts]
        ensures { result.now ≡ self.now.files }
    {
        self.files.as_slice()
    }

    /// The facts of each file, in the tree's order, without the rest.
    pub fn into_files(self) -> Vec<FileFacts>
        ensures { result.items ≡ self.files }
    {
        self.files
    }

    /// Computes now the wanted digests, by these algorithms, of the texts that describe the bag.
    /// Without this each is computed whenever it is asked for. No clause sees the difference.
    pub fn compute_digests(&mut self, by: Algorithms)
        ensures { self.new ≡ self.old }
    {
        for file in self.files.iter_mut() {
            file.compute_digests(by);
        }
    }

    /// Whether the payload's folder `data` exists.
    pub fn payload_exists(&self) -> bool
        ensures { result ≡ self.now.payload }
    {
        self.payload
    }
}

/// What a checker knows of this tree. The one refusal is that memory ran out.
pub fn facts_of(alloc: Global, tree: &Tree) -> Result<Facts, AllocError>
    ensures { IfOk result (λ facts. facts ≡ facts_of_tree tree.now) }
{
    let mut files = Vec::new(alloc);
    for file in tree.files() {
        files.push(FileFacts::of(alloc, file)?)?;
    }
    Ok(Facts {
        files,
        payload: tree.payload_exists(),
    })
}
