//! Laws of findings, over every tree, each as the contract of a function that does nothing.

ghost use Rattle.std.specs.Prelude.{◌≡◌, ◌≢◌, ◌≤◌, ◌↔◌, ℕ, List, [], true, Ok};
ghost use Rattle.std.specs.Prelude.{Contains, AllPairs};
ghost use Rattle.std.specs.List.{AllByRecursion};
ghost use Rattle.bag_text.specs.declared.algorithm.Algorithm.{Algorithm};
ghost use Rattle.bag_text.specs.Lines.{lines_of};
ghost use Rattle.bag_text.specs.ListedFile.{ListedFile};
ghost use Rattle.bag_text.specs.Readers.{entries_of};
ghost use Rattle.bag_tree.specs.Tree.{Files};
ghost use Rattle.bag_tree.specs.Facts.{TreeFacts, facts_of_tree};
ghost use Rattle.bag_check.specs.declared.fault.BagFault.{BagFault};
ghost use Rattle.bag_check.specs.Check.{holds, first_fault};
ghost use Rattle.bag_check.specs.Fault.{number_of};
ghost use Rattle.bag_check.specs.Named.{only_named, named_facts_of};
ghost use Rattle.bag_check.specs.Valid.{IsValid};
ghost use Rattle.bag_explain.specs.Lines.{numbered_from, malformed_from};
ghost use Rattle.bag_explain.specs.LineNumbers.{ListsAt, IsMalformedAt};
ghost use Rattle.bag_explain.specs.Places.{Place, places_of, files_in};
ghost use Rattle.bag_explain.specs.Wrong.{IsWrongAt};
ghost use Rattle.bag_explain.specs.Findings.{Finding, findings_of, explanation_of};
ghost use Rattle.bag_explain.specs.Findings.{has_some, first_of};

/// A fault holds exactly when it has a place, so the findings are all the faults that hold, and no
/// other. The first finding has the fault that a check answers. There is no finding exactly when
/// the tree is a valid bag. What is listed line by line is what the manifest lists.
pub fn findings_law()
    ensures placed { (facts : TreeFacts) (fault : BagFault)
        → holds fault facts ≡ has_some (places_of fault facts) }
    ensures sound { (facts : TreeFacts)
        → AllByRecursion (λ finding. holds finding.fault facts ≡ true) (findings_of facts) }
    ensures first { (facts : TreeFacts) → first_of (findings_of facts) ≡ first_fault facts }
    ensures valid { (facts : TreeFacts) → IsValid facts ↔ (findings_of facts ≡ []) }
    ensures listed { (algorithm : Algorithm) (text : List ℕ) (files : List ListedFile)
        → entries_of algorithm text ≡ Ok files
        → files_in (numbered_from algorithm 1 (lines_of text)) ≡ files }
{}

/// Each line has its right number: counted from 1 over all lines of the text, the line of this
/// number lists the file that it is said to list, or is malformed if it is said to be.
pub fn numbers_law()
    ensures listed { (algorithm : Algorithm) (text : List ℕ)
        → AllByRecursion (ListsAt algorithm (lines_of text))
        (numbered_from algorithm 1 (lines_of text)) }
    ensures malformed { (algorithm : Algorithm) (text : List ℕ)
        → AllByRecursion (IsMalformedAt algorithm (lines_of text))
        (malformed_from algorithm 1 (lines_of text)) }
{}

/// The places of a fault are those where it holds, by what a manifest lists on which line and what
/// the tree has: no other is named, and none is left out. None is named twice, if each file of the
/// tree has a path of its own.
pub fn places_law()
    ensures placed { (fault : BagFault) (facts : TreeFacts) (place : Place)
        → Contains (places_of fault facts) place ↔ IsWrongAt fault facts place }
    ensures once { (fault : BagFault) (facts : TreeFacts)
        → AllPairs (λ a b. a.path ≢ b.path) facts.files
        → AllPairs (λ a b. a ≢ b) (places_of fault facts) }
{}

/// Everything that is wrong is found at each of its places, and nothing else; the least fault comes
/// first. Nothing is found twice, if each file of the tree has a path of its own.
pub fn all_found_law()
    ensures found { (facts : TreeFacts) (finding : Finding)
        → Contains (findings_of facts) finding ↔ IsWrongAt finding.fault facts finding.place }
    ensures order { (facts : TreeFacts)
        → AllPairs (λ a b. number_of a.fault ≤ number_of b.fault) (findings_of facts) }
    ensures once { (facts : TreeFacts)
        → AllPairs (λ a b. a.path ≢ b.path) facts.files
        → AllPairs (λ a b. a ≢ b) (findings_of facts) }
{}

/// If only the digests are known that a tree's manifests ask for, by their names, the same faults
/// are found as with all digests. This holds for a tree's files, and for any facts.
pub fn named_findings_law()
    ensures findings { (tree : Files)
        → findings_of (named_facts_of tree) ≡ findings_of (facts_of_tree tree) }
    ensures explanation { (tree : Files)
        → explanation_of (named_facts_of tree) ≡ explanation_of (facts_of_tree tree) }
    ensures facts { (facts : TreeFacts) → findings_of (only_named facts) ≡ findings_of facts }
{}
