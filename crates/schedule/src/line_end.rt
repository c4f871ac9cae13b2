ghost use Rattle.std.specs.Prelude.{[], ◌∷◌};
ghost use Rattle.tokens.specs.Pushes.{Pushes};

use std::alloc::AllocError;

/// Appends the end of a line.
pub(crate) fn push_end(text: &mut String) -> Result<(), AllocError>
    ensures { Pushes result text.old text.new (10 ∷ []) }
{
    text.push('\n')
}
