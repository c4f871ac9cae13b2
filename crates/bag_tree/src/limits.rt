ghost use Rattle.std.specs.Prelude.{◌≡◌};
ghost use Rattle.bag_tree.specs.Tree.{deepest_path, most_files, longest_text};

use crate::path::DEEPEST_PATH;
use crate::tree::{LONGEST_TEXT, MOST_FILES};

/// A law: the limits of the code are those of the definitions.
pub fn limits_hold()
    ensures paths { DEEPEST_PATH ≡ deepest_path }
    ensures files { MOST_FILES ≡ most_files }
    ensures texts { LONGEST_TEXT ≡ longest_text }
{}
