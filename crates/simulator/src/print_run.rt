ghost use Rattle.std.specs.Prelude.{◌≡◌, IfOk, string_bytes};
ghost use Rattle.lines.specs.Texts.{text_of};

use crate::trace::Trace;
use lines::{Options, push_printed};
use std::alloc::{AllocError, Global};

/// The text of a run: its lines in order, each ended by LF; those of datagrams only if `sent` asks
/// for them. It fails only if memory runs out.
pub fn text(alloc: Global, trace: &Trace, options: Options) -> Result<String, AllocError>
    ensures { IfOk result (λ text. string_bytes text ≡ text_of options trace.now) }
{
    let mut text = String::new(alloc);
    for line in trace.lines() {
        push_printed(alloc, &mut text, options, line)?;
    }
    Ok(text)
}
