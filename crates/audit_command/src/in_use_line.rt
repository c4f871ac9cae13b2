//! The line of a cell that is in use.

ghost use Rattle.tokens.specs.Pushes.{Pushes};
ghost use Rattle.audit_command.specs.Lines.{in_use_line};

use std::alloc::AllocError;
use tokens::push_escaped;

/// Appends the line that the cell of this path is in use.
#[tactic(auto, unfolding(crate::specs::Lines::in_use_line), using(std::proofs::Common::append_assoc))]
pub(crate) fn push_in_use(text: &mut String, path: &str) -> Result<(), AllocError>
    ensures { Pushes result text.old text.new (in_use_line path.now) }
{
    text.push_str("in-use ")?;
    push_escaped(text, path)?;
    text.push('\n')
}
