ghost use Rattle.std.specs.Prelude.{◌≡◌, map};
ghost use Rattle.std.specs.List.{join_with_byte};
ghost use Rattle.schedule.specs.Lines.{slot_tokens, call_tokens, fate_tokens, device_token};
ghost use Rattle.tokens.specs.Pushes.{Pushes};
ghost use Rattle.schedule.specs.Tokens.{printed_token};
ghost use Rattle.schedule.specs.inner.Printed.{spaced_words};

use crate::call::Call;
use crate::fate::{DeviceCall, Fate};
use fed_types::Slot;
use std::alloc::AllocError;
use tokens::push_escaped;

/// Appends the words of a call, one space between them.
pub(crate) fn push_call(text: &mut String, call: &Call) -> Result<(), AllocError>
    ensures { Pushes result text.old text.new
        (join_with_byte 32 (map printed_token (call_tokens call.now))) }
{
    match call {
        Call::Deposit { site, tree, slot } => {
            write!(text, "deposit {site} {} ", tree.number())?;
            push_slot(text, slot)
        }
        Call::Propose { site, slot } => {
            write!(text, "propose {site} ")?;
            push_slot(text, slot)
        }
        Call::Recover { site, slot } => {
            write!(text, "recover {site} ")?;
            push_slot(text, slot)
        }
        Call::Deliver { datagram } => write!(text, "deliver {datagram}"),
        Call::Ask { site, to, slot } => {
            write!(text, "ask {site} {to} ")?;
            push_slot(text, slot)
        }
    }
}

/// Appends the words of a slot, one space between them.
pub(crate) fn push_slot(text: &mut String, slot: &Slot) -> Result<(), AllocError>
    ensures { Pushes result text.old text.new
        (join_with_byte 32 (map printed_token (slot_tokens slot.now))) }
{
    push_escaped(text, slot.object())?;
    write!(text, " {}", slot.version())
}

/// Appends the words of a fate, a space before each.
pub(crate) fn push_fate(text: &mut String, fate: Fate) -> Result<(), AllocError>
    ensures { Pushes result text.old text.new
        (spaced_words (map printed_token (fate_tokens fate))) }
{
    match fate {
        Fate::Whole => Ok(()),
        Fate::StopsIn(device, kept) => write!(text, " stop {} {kept}", device_word(device)),
        Fate::StopsAfter(sent) => write!(text, " stop 3 {sent}"),
        Fate::FailsIn(device, kept) => write!(text, " fail {} {kept}", device_word(device)),
    }
}

fn device_word(device: DeviceCall) -> &'static str
    ensures { result.now ≡ printed_token (device_token device) }
{
    match device {
        DeviceCall::Append => "1",
        DeviceCall::Sync => "2",
    }
}
