ghost use Rattle.schedule.specs.declared.command.Command.TheVariants.{File, Query, Raw};
ghost use Rattle.schedule.specs.declared.command.Command.TheVariants as commands;
ghost use Rattle.tokens.specs.Pushes.{Pushes};
ghost use Rattle.schedule.specs.Texts.{printed_command};
ghost use Rattle.schedule.specs.Tokens.{hex_word};

use crate::call::Call;
use crate::command::Command;
use crate::fate::Fate;
use crate::file_path::FilePath;
use crate::hex_bytes::HexBytes;
use crate::line_end::push_end;
use crate::print_call::{push_call, push_fate, push_slot};
use crate::tree_no::TreeNo;
use fed_types::Slot;
use std::alloc::{AllocError, Global};
use tokens::push_escaped;

/// Appends a command's line.
pub(crate) fn push_command(
    alloc: Global,
    text: &mut String,
    command: &Command,
) -> Result<(), AllocError>
    ensures { Pushes result text.old text.new (printed_command command.now) }
{
    match command {
        Command::Tree { tree } => writeln!(text, "tree {}", tree.number()),
        Command::Folder { tree } => writeln!(text, "folder {}", tree.number()),
        Command::File {
            tree,
            path,
            content,
        } => push_file(alloc, text, *tree, path, content),
        Command::Call { call, fate } => push_call_and_fate(text, call, *fate),
        Command::Query { site, slot } => push_query(text, *site, slot),
        Command::Raw { site, bytes } => push_raw(alloc, text, *site, bytes),
        Command::Pump { turns } => writeln!(text, "pump {turns}"),
        Command::Stop { site } => writeln!(text, "stop {site}"),
        Command::Start { site } => writeln!(text, "start {site}"),
    }
}

fn push_file(
    alloc: Global,
    text: &mut String,
    tree: TreeNo,
    path: &FilePath,
    content: &HexBytes,
) -> Result<(), AllocError>
    ensures { Pushes result text.old text.new (printed_command (File tree path.now content.now)) }
{
    write!(text, "file {} ", tree.number())?;
    push_escaped(text, path.as_str())?;
    text.push(' ')?;
    push_hex(alloc, text, content.as_slice())?;
    text.push('\n')
}

fn push_call_and_fate(text: &mut String, call: &Call, fate: Fate) -> Result<(), AllocError>
    ensures { Pushes result text.old text.new (printed_command (commands.Call call.now fate)) }
{
    push_call(text, call)?;
    push_fate(text, fate)?;
    push_end(text)
}

fn push_query(text: &mut String, site: u8, slot: &Slot) -> Result<(), AllocError>
    ensures { Pushes result text.old text.new (printed_command (Query site slot.now)) }
{
    write!(text, "query {site} ")?;
    push_slot(text, slot)?;
    text.push('\n')
}

fn push_raw(alloc: Global, text: &mut String, site: u8, bytes: &HexBytes) -> Result<(), AllocError>
    ensures { Pushes result text.old text.new (printed_command (Raw site bytes.now)) }
{
    write!(text, "raw {site} ")?;
    push_hex(alloc, text, bytes.as_slice())?;
    text.push('\n')
}

// Appends bytes as a word.
fn push_hex(alloc: Global, text: &mut String, bytes: &[u8]) -> Result<(), AllocError>
    ensures { Pushes result text.old text.new (hex_word bytes.now) }
{
    if bytes.is_empty() {
        return text.push('-');
    }
    text.push_str(hex::encode(alloc, bytes)?.as_str())
}
