//! Trees of files.

ghost use Rattle.std.specs.Prelude.{OnOk};
ghost use Rattle.world_law.specs.Trees.{tree_at};
ghost use Rattle.world_law.specs.Worlds.{World, on_tree, on_folder, on_file};
ghost use Rattle.simulator.specs.Federations.{Represents};

use crate::federation::Federation;
use lines::Reason;
use schedule::TreeNo;
use sim_stations::Added;
use std::alloc::AllocError;

impl Federation {
    /// Declares an empty tree.
    pub(crate) fn declare_tree(&mut self, number: usize, tree: TreeNo) -> Result<(), AllocError>
        ensures { OnOk result ((w : World) → Represents self.old w
            → Represents self.new (on_tree w number tree (tree_at tree w.trees))) }
    {
        match self.trees.get(tree) {
            None => self.trees.declare(tree),
            Some(_) => self.skip(number, Reason::Tree),
        }
    }

    /// Adds the payload's folder to a tree.
    pub(crate) fn add_folder(&mut self, number: usize, tree: TreeNo) -> Result<(), AllocError>
        ensures { OnOk result ((w : World) → Represents self.old w
            → Represents self.new (on_folder w number tree (tree_at tree w.trees))) }
    {
        if self.trees.add_folder(tree) {
            return Ok(());
        }
        self.skip(number, Reason::Tree)
    }

    /// Adds a file to a tree.
    pub(crate) fn add_file(
        &mut self,
        number: usize,
        tree: TreeNo,
        path: &str,
        bytes: &[u8],
    ) -> Result<(), AllocError>
        ensures { OnOk result ((w : World) → Represents self.old w
            → Represents self.new (on_file w number tree path.now bytes.now
            (tree_at tree w.trees))) }
    {
        match self.trees.add_file(tree, path, bytes)? {
            Added::Done => Ok(()),
            Added::NoTree => self.skip(number, Reason::Tree),
            Added::BadFile => self.skip(number, Reason::Path),
        }
    }
}
