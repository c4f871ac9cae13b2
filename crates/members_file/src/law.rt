//! Laws of the definitions: each text says one thing, and what a new number is. The functions here
//! do nothing: their contracts are the laws.

ghost use Rattle.std.specs.Prelude.{◌≡◌, ◌⊎◌, ℕ, true, List, drop};
ghost use Rattle.std.specs.Int.{w64, to_be_bytes};
ghost use Rattle.members_file.specs.Files.{MembersFile, IsTextOf, HasFault, weights_of};
ghost use Rattle.members_file.specs.Numbers.{AreFourBytes, new_number, upper_half, lower_half};
ghost use Rattle.members_file.specs.Numbers.{is_listed};

/// Each text is one members file, or has one first line at fault, and never both.
pub fn members_files_law()
    ensures some { (text : List ℕ)
        → ((file : MembersFile) × IsTextOf text file) ⊎ ((n : ℕ) × HasFault text n) }
    ensures one_file { (text : List ℕ) (a b : MembersFile) → IsTextOf text a → IsTextOf text b
        → a ≡ b }
    ensures one_fault { (text : List ℕ) (m n : ℕ) → HasFault text m → HasFault text n → m ≡ n }
    ensures never_both { (text : List ℕ) (file : MembersFile) (n : ℕ) → IsTextOf text file
        → ¬ HasFault text n }
{}

/// The upper half of a new number is the random bytes that were given, the lower half the digest;
/// and the number comes from its list.
pub fn new_numbers_law()
    ensures upper { (random weights : List ℕ) → AreFourBytes random
        → upper_half (new_number random weights) ≡ random }
    ensures lower { (random weights : List ℕ) → AreFourBytes random
        → drop 4 (to_be_bytes w64 (new_number random weights)) ≡ lower_half random weights }
    ensures listed { (random : List ℕ) (file : MembersFile) → AreFourBytes random
        → file.federation ≡ new_number random (weights_of file.sites) → is_listed file ≡ true }
{}
