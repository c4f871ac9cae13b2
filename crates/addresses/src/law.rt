//! What the definition says that `Address::parse` answers by. The function here does nothing: its
//! contract is the law.

ghost use Rattle.std.specs.Prelude.{◌≡◌, ◌↔◌, ℕ, List, Some};
ghost use Rattle.addresses.specs.Texts.{IsTextOf, address_in};

/// A text is read as the address whose text it is, if that may be listed; and two addresses with
/// one text are one.
pub fn addresses_law()
    ensures read { (text : List ℕ) (a : ℕ) → IsTextOf text a ↔ (address_in text ≡ Some a) }
    ensures one { (text : List ℕ) (a b : ℕ) → IsTextOf text a → IsTextOf text b → a ≡ b }
{}
