ghost use Rattle.std.specs.Prelude.{◌∷◌, ◌++◌};
ghost use Rattle.std.specs.Fmt.{decimal};
ghost use Rattle.bag_check.specs.Fault.{number_of};
ghost use Rattle.tokens.specs.Escapes.{escaped_text};
ghost use Rattle.tokens.specs.Pushes.{Pushes};
ghost use Rattle.bag_explain.specs.Places.{at_file, at_line, at_entry, at_digest, at_unlisted};
ghost use Rattle.bag_explain.specs.Findings.{printed_fault};

use bag_check::BagFault;
use bag_text::Algorithm;
use std::alloc::AllocError;
use tokens::push_escaped;

/// Appends the line of a fault of the file of this path.
pub(crate) fn push_file(text: &mut String, fault: BagFault, path: &str) -> Result<(), AllocError>
    ensures { Pushes result text.old text.new (printed_fault fault (at_file path.now)) }
{
    push_path(text, fault, path)?;
    text.push('\n')
}

/// Appends the line of a fault of a line of the text of this name.
pub(crate) fn push_line(
    text: &mut String,
    fault: BagFault,
    name: &str,
    line: usize,
) -> Result<(), AllocError>
    ensures { Pushes result text.old text.new (printed_fault fault (at_line name.now line)) }
{
    let number = fault.number();
    writeln!(text, "{number} {name}:{line}")
}

/// Appends the line of a fault of a path that a manifest lists.
pub(crate) fn push_entry(
    text: &mut String,
    fault: BagFault,
    path: &str,
    name: &str,
    line: usize,
) -> Result<(), AllocError>
    ensures { Pushes result text.old text.new
        (printed_fault fault (at_entry path.now name.now line)) }
{
    push_path(text, fault, path)?;
    writeln!(text, " {name}:{line}")
}

/// Appends the line of a fault of a digest that a manifest lists.
pub(crate) fn push_digest(
    text: &mut String,
    fault: BagFault,
    path: &str,
    algorithm: Algorithm,
    name: &str,
    line: usize,
) -> Result<(), AllocError>
    ensures { Pushes result text.old text.new
        (printed_fault fault (at_digest path.now algorithm name.now line)) }
{
    push_path(text, fault, path)?;
    let algorithm = algorithm.name();
    writeln!(text, " {algorithm} {name}:{line}")
}

/// Appends the line of a fault of a file that a manifest doesn't list.
pub(crate) fn push_unlisted(
    text: &mut String,
    fault: BagFault,
    path: &str,
    name: &str,
) -> Result<(), AllocError>
    ensures { Pushes result text.old text.new
        (printed_fault fault (at_unlisted path.now name.now)) }
{
    push_path(text, fault, path)?;
    writeln!(text, " {name}")
}

// Appends a fault's number and a path.
fn push_path(text: &mut String, fault: BagFault, path: &str) -> Result<(), AllocError>
    ensures { Pushes result text.old text.new
        (decimal (number_of fault) ++ 32 ∷ escaped_text path.now) }
{
    let number = fault.number();
    write!(text, "{number} ")?;
    push_escaped(text, path)
}
