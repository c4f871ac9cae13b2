//! The grammar of words and numbers, as laws of the definitions. A function here does nothing: its
//! contract is the law.

ghost use Rattle.std.specs.Prelude.{◌≡◌, ◌≤◌, ◌↔◌, ℕ, List, Some};
ghost use Rattle.tokens.specs.Grammar.{HasWords, IsNumeral};
ghost use Rattle.tokens.specs.Words.{words_of, number_in};

/// `words_of` says which words a line has: those that spaces separate, in order.
pub fn words_law()
    ensures { (line : List ℕ) (words : List (List ℕ))
        → HasWords line words ↔ (words_of line ≡ words) }
{}

/// `number_in` says which number a word is: decimal digits, of a value in the range.
pub fn numbers_law()
    ensures { (low high : ℕ) (word : List ℕ) (value : ℕ)
        → (IsNumeral word value × (low ≤ value) × (value ≤ high))
        ↔ (number_in low high word ≡ Some value) }
{}
