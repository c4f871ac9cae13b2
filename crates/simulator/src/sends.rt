//! Datagrams that are sent: each gets a number, and a line.

ghost use Rattle.std.specs.Prelude.{◌≡◌, ◌++◌, ◌+◌, ◌∷◌, [], length, map, OnOk, get_or};
ghost use Rattle.site.specs.Datagrams.{handed_out};
ghost use Rattle.sim_stations.specs.DatagramNumbers.{RepresentsSame};
ghost use Rattle.simulator.specs.Sent.{line_sent, lines_sent, places_from, SENDER_PLACE};

use lines::{Line, SentBytes};
use sim_stations::Datagrams;
use site::Outgoing;
use std::alloc::AllocError;

/// The place of the sender's byte in a datagram: after the magic, the layout, the kind and the
/// federation.
const SENDER_PLACE: usize = 12;

/// Sends these datagrams, in order.
pub(crate) fn send_all(
    lines: &mut Vec<Line>,
    sent: &mut Datagrams<usize>,
    sends: Vec<Outgoing>,
) -> Result<(), AllocError>
    ensures lines { OnOk result (lines.new.items ≡ lines.old.items
        ++ lines_sent (length sent.old.sent + 1) (map handed_out sends.items)) }
    ensures sent { OnOk result (sent.new.sent ≡ sent.old.sent
        ++ places_from (length lines.old.items) (length sends.items)) }
    ensures named { OnOk result (RepresentsSame sent.old sent.new) }
{
    for sealed in sends {
        send(lines, sent, sealed)?;
    }
    Ok(())
}

// Sends a datagram.
fn send(
    lines: &mut Vec<Line>,
    sent: &mut Datagrams<usize>,
    sealed: Outgoing,
) -> Result<(), AllocError>
    ensures lines { OnOk result (lines.new.items ≡ lines.old.items
        ++ line_sent (length sent.old.sent + 1) (handed_out sealed) ∷ []) }
    ensures sent { OnOk result (sent.new.sent ≡ sent.old.sent ++ length lines.old.items ∷ []) }
    ensures named { OnOk result (RepresentsSame sent.old sent.new) }
{
    sent.push(lines.len())?;
    lines.push(line_sent(sent.len(), sealed))?;
    Ok(())
}

// The line of a datagram.
fn line_sent(number: usize, sealed: Outgoing) -> Line
    ensures { result ≡ line_sent number (handed_out sealed) }
{
    let Outgoing { to, bytes } = sealed;
    Line::Sent {
        number,
        from: sender_byte(&bytes),
        to: to.number(),
        bytes: SentBytes::new(bytes),
    }
}

// The sender's byte.
fn sender_byte(bytes: &[u8]) -> u8
    ensures { result ≡ get_or bytes.now SENDER_PLACE 0 }
{
    bytes.get(SENDER_PLACE).copied().unwrap_or(0)
}
