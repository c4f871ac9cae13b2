ghost use Rattle.std.specs.Prelude.{◌≡◌, ℕ, List, [], ◌++◌};
ghost use Rattle.std.specs.Borrow.{ftrue};

use std::marker::Model;

/// The bytes that were fed so far. Only proofs read them: it takes no memory, and its calls do
/// nothing when they run.
#[derive(Drop)]
pub(crate) struct Fed {
    pub(crate) ghost bytes: { List ℕ },
}

impl Model for Fed {
    ghost also_owns = { λ _. ftrue };
}

impl Fed {
    pub(crate) fn nothing() -> Fed
        ensures { result.bytes ≡ [] }
    {
        Fed {}
    }

    /// The bytes before, and this piece after them.
    pub(crate) fn with(_before: &Fed, _piece: &[u8]) -> Fed
        ensures { result.bytes ≡ _before.now.bytes ++ _piece.now }
    {
        Fed {}
    }
}
