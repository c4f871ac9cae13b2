ghost use Rattle.std.specs.Prelude.{◌≡◌, ◌==◌, [], ◌∷◌, codes};
ghost use Rattle.std.specs.Fmt.{decimal};
ghost use Rattle.std.specs.List.{join_with_byte, list_all};
ghost use Rattle.fed_types.specs.Sites.{count_of};
ghost use Rattle.tokens.specs.Pushes.{Pushes};
ghost use Rattle.schedule.specs.Texts.{federation_line, printed_weights};
ghost use Rattle.schedule.specs.inner.Printed.{spaced_weights};

use crate::line_end::push_end;
use fed_types::Members;
use std::alloc::AllocError;

/// Appends the line that names the members.
pub(crate) fn push_federation(text: &mut String, members: Members) -> Result<(), AllocError>
    ensures { Pushes result text.old text.new (federation_line members) }
{
    push_count(text, members)?;
    push_weights(text, members.weights())?;
    push_end(text)
}

fn push_count(text: &mut String, members: Members) -> Result<(), AllocError>
    ensures { Pushes result text.old text.new
        (join_with_byte 32 (codes "federation" ∷ decimal members.federation
        ∷ decimal (count_of members) ∷ [])) }
{
    let federation = members.federation();
    let count = members.count();
    write!(text, "federation {federation} {count}")
}

// Appends the weights, a space before each, unless all are 1.
fn push_weights(text: &mut String, weights: &[u8]) -> Result<(), AllocError>
    ensures { Pushes result text.old text.new (spaced_weights (printed_weights weights.now)) }
{
    if are_ones(weights) {
        return Ok(());
    }
    for weight in weights {
        push_weight(text, *weight)?;
    }
    Ok(())
}

fn are_ones(weights: &[u8]) -> bool
    ensures { result ≡ list_all (λ weight. weight == 1) weights.now }
{
    weights.iter().all(|weight| *weight == 1)
}

fn push_weight(text: &mut String, weight: u8) -> Result<(), AllocError>
    ensures { Pushes result text.old text.new (32 ∷ decimal weight) }
{
    write!(text, " {weight}")
}
