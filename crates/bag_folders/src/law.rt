//! A law of bags whose digests aren't needed, as the contract of a function that does nothing.

ghost use Rattle.std.specs.Prelude.{◌≡◌, Bool, List, map, IsTrue};
ghost use Rattle.bag_tree.specs.declared.algorithms.Algorithms.{Algorithms};
ghost use Rattle.bag_tree.specs.Algorithms.{all_algorithms, no_algorithms};
ghost use Rattle.bag_tree.specs.Tree.{File};
ghost use Rattle.bag_check.specs.Check.{check_of, first_fault};
ghost use Rattle.bag_check.specs.Complete.{complete_of};
ghost use Rattle.bag_check.specs.Named.{named_of};
ghost use Rattle.bag_folders.specs.Disk.{facts_by, is_shown};

/// A check that knows only the digests that the manifests among the files name answers what it does
/// with all of them; and so does one that knows none, if the first fault shows without them.
pub fn needed_law()
    ensures named { (files : List File) (payload : Bool)
        → check_of (facts_by (named_of (map (λ file. file.path) files)) files payload)
        ≡ check_of (facts_by all_algorithms files payload) }
    ensures shown { (files : List File) (payload : Bool)
        → IsTrue (is_shown (first_fault (facts_by no_algorithms files payload)))
        → check_of (facts_by no_algorithms files payload)
        ≡ check_of (facts_by all_algorithms files payload) }
    // Whether a bag is complete doesn't depend on digests.
    ensures complete { (known : Algorithms) (files : List File) (payload : Bool)
        → complete_of (facts_by known files payload)
        ≡ complete_of (facts_by all_algorithms files payload) }
{}
