//! Laws of bags, over every tree, each as the contract of a function that does nothing.

ghost use Rattle.std.specs.Prelude.{◌≡◌, ◌↔◌, Ok, false};
ghost use Rattle.bag_tree.specs.Tree.{Files};
ghost use Rattle.bag_tree.specs.Facts.{TreeFacts, facts_of_tree};
ghost use Rattle.bag_check.specs.declared.fault.BagFault.{BagFault};
ghost use Rattle.bag_check.specs.declared.fault.BagFault.TheVariants.{WrongDigest};
ghost use Rattle.bag_check.specs.Check.{holds, check_of, identity_of};
ghost use Rattle.bag_check.specs.Complete.{complete_of};
ghost use Rattle.bag_check.specs.Named.{only_named, named_facts_of};
ghost use Rattle.bag_check.specs.Valid.{IsValid};

/// A tree is a valid bag in this project's profile exactly when no fault holds: then, and only
/// then, checking it answers the bag's identity.
pub fn valid_law()
    ensures faultless { (facts : TreeFacts)
        → IsValid facts ↔ ((fault : BagFault) → holds fault facts ≡ false) }
    ensures checked { (facts : TreeFacts)
        → IsValid facts ↔ (check_of facts ≡ Ok (identity_of facts)) }
{}

/// A tree is a valid bag exactly when it is complete and no digest is wrong. Then both checks
/// answer its identity.
pub fn complete_law()
    ensures { (facts : TreeFacts)
        → IsValid facts
        ↔ ((complete_of facts ≡ Ok (identity_of facts)) × (holds WrongDigest facts ≡ false)) }
{}

/// A check that knows only the digests that a tree's manifests ask for, by their names, answers
/// what it does with all of them. This holds for a tree's files, and for any facts.
pub fn named_law()
    ensures verdict { (tree : Files)
        → check_of (named_facts_of tree) ≡ check_of (facts_of_tree tree) }
    ensures facts { (facts : TreeFacts) → check_of (only_named facts) ≡ check_of facts }
    // Hashing only what is named leaves out what no manifest asks for, and nothing else.
    ensures hashed { (tree : Files) → named_facts_of tree ≡ only_named (facts_of_tree tree) }
{}
