ghost use Rattle.std.specs.Prelude.{◌≡◌, OnErr, string_bytes};
ghost use Rattle.tokens.specs.Pushes.{Pushes};
ghost use Rattle.lines.specs.Texts.{line_text, is_printed, printed_line};

use crate::line::Line;
use crate::print_words::push_words;
use std::alloc::{AllocError, Global};

/// How lines are written.
#[derive(Clone, Copy, Debug)]
pub struct Options {
    /// Each datagram that was sent gets a line too.
    pub sent: bool,
    /// A bag is named by its identity in place of the tree that held it first.
    pub identities: bool,
}

/// Appends a line's text, ended by LF; that of a datagram only where `sent` asks for it. It fails
/// only where memory runs out, and then leaves the text as it was.
pub fn push_printed(
    alloc: Global,
    text: &mut String,
    options: Options,
    line: &Line,
) -> Result<(), AllocError>
    ensures ok { Pushes result text.old text.new (printed_line options line.now) }
    ensures err { OnErr result (string_bytes text.new ≡ string_bytes text.old) }
{
    if is_printed(options, line) {
        push_line(alloc, text, options, line)
    } else {
        Ok(())
    }
}

fn is_printed(options: Options, line: &Line) -> bool
    ensures { result ≡ is_printed options line.now }
{
    match line {
        Line::Sent { .. } => options.sent,
        _ => true,
    }
}

/// Appends a line's text, ended by LF. It fails only where memory runs out, and then leaves the
/// text as it was.
pub fn push_line(
    alloc: Global,
    text: &mut String,
    options: Options,
    line: &Line,
) -> Result<(), AllocError>
    ensures ok { Pushes result text.old text.new (line_text options line.now) }
    ensures err { OnErr result (string_bytes text.new ≡ string_bytes text.old) }
{
    let mut said = String::new(alloc);
    push_words(alloc, &mut said, options, line)?;
    said.push('\n')?;
    text.push_str(&said)
}
