//! A site that serves, turn by turn.

ghost use Rattle.std.specs.Prelude.{◌≡◌, ◌⊎◌, ◌+◌, ◌≤◌, ◌<◌, ℕ, List, take};
ghost use Rattle.std.specs.Prelude.{OnOk, OnErr, IfOk, IfErr, string_bytes};
ghost use Rattle.std.specs.List.{flat_map, list_any};
ghost use Rattle.std.specs.Io.KnownBytes.{Appends};
ghost use Rattle.cell_device.specs.Calls.{HasCause};
ghost use Rattle.proposer.specs.VolatileStates.{VolatileState};
ghost use Rattle.lines.specs.Texts.{line_text};
ghost use Rattle.udp_site.specs.Failures.{OnlyByFailing};
ghost use Rattle.udp_site.specs.Served.{Serves, Turned, outside, by_identity};
ghost use Rattle.udp_site.specs.Turns.{Serving, IsServing, begins, turn_of};
ghost use Rattle.udp_site.specs.inner.OneTurn.{OneTurn};
ghost use Rattle.udp_site.specs.inner.Receipts.{Receives};
ghost use Rattle.udp_site.specs.inner.Servers.{Keeps, Stands};
ghost use Rattle.udp_site.specs.inner.StopLines.{line_of_the_cell};
ghost use Rattle.udp_site.specs.inner.SlotRecords.{AreSettled};

use crate::fault::ServeFault;
use crate::idle_turns::IdleProgress;
use crate::port::Port;
use crate::port_fault::PortFault;
use crate::server::Server;
use crate::turn::Turn;
use addresses::Address;
use bag_folders::Folders;
use cell_device::Cell;
use lines::{Line, Options, push_line};
use outcomes::write_all;
use site::{Site, SiteFault};
use std::alloc::{AllocError, Global};
use std::io::Write;

/// Serves `turns` turns. Each receives once; what came is taken in, its datagrams are handed out,
/// and its lines are written. `addresses` are those of the sites, site 1's first.
pub fn serve<C: Cell, P: Port, F: Folders, W: Write>(
    alloc: Global,
    site: &mut Site<C>,
    port: &mut P,
    folders: &mut F,
    addresses: &[Address],
    turns: u32,
    output: &mut W,
) -> Result<(), ServeFault>
    ensures served { (volatile : VolatileState) → IsServing (begins site.old volatile)
        → (end : Serving C) × (done : List Turned) × (end.site ≡ site.new)
        × Serves (turn_of C.device addresses.now (F.gives folders.old))
        (outside (P.traffic port.old) (W.contents output.old))
        (outside (P.traffic port.new) (W.contents output.new))
        (begins site.old volatile) end turns done result }
    ensures port { OnlyByFailing ServeFault.Port (P.failures port.old) (P.failures port.new)
        result }
    ensures kept { F.gives folders.new ≡ F.gives folders.old }
{
    let mut lines = Vec::new(alloc);
    let mut server = Server {
        alloc,
        site,
        port,
        folders,
        addresses,
        progress: IdleProgress {
            idle: 0,
            tried: 0,
            settled: 0,
        },
        lines: &mut lines,
    };
    'turns: for _ in 0..turns {
        server.one_turn(output)?;
    }
    Ok(())
}

impl<C: Cell, P: Port, F: Folders> Server<'_, '_, '_, '_, '_, C, P, F> {
    // One turn.
    fn one_turn<W: Write>(&mut self, output: &mut W) -> Result<(), ServeFault>
        requires { self.old.progress.idle < 4294967295 }
        ensures keeps { Keeps P.failures F.gives self.old self.new }
        ensures turn { (s : Serving C) → Stands s self.old.site.now self.old.progress
            → OneTurn (turn_of C.device self.old.addresses.now (F.gives self.old.folders.now))
            (outside (P.traffic self.old.port.now) (W.contents output.old))
            (outside (P.traffic self.new.port.now) (W.contents output.new))
            s self.new.site.now self.new.progress.idle self.new.progress.tried result }
        ensures count { self.new.progress.idle ≤ self.old.progress.idle + 1 }
        ensures settled { OnOk result ((s : Serving C)
            → Stands s self.old.site.now self.old.progress
            → AreSettled self.new.site.now.book.records self.new.progress.settled) }
        ensures port { OnlyByFailing ServeFault.Port (P.failures self.old.port.now)
            (P.failures self.new.port.now) result }
    {
        self.lines.clear();
        let turn = receive(self.port)?;
        self.handle_turn(&turn)?;
        let written = write_lines(self.alloc, self.lines, output);
        // A cell that failed is the answer also where that can't be written.
        if is_refused(self.lines) {
            return Err(ServeFault::Cell);
        }
        written
    }
}

/// Receives once.
pub(crate) fn receive<P: Port>(port: &mut P) -> Result<Turn, ServeFault>
    ensures received { Receives (P.traffic port.old) (P.traffic port.new) result }
    ensures cause { HasCause ServeFault.Port (P.failures port.old) (P.failures port.new) result }
{
    match port.receive() {
        Ok(turn) => Ok(turn),
        Err(PortFault::Device) => Err(ServeFault::Port),
        Err(PortFault::Memory) => Err(ServeFault::Memory),
    }
}

/// Writes the lines.
pub(crate) fn write_lines<W: Write>(
    alloc: Global,
    lines: &[Line],
    output: &mut W,
) -> Result<(), ServeFault>
    ensures whole { OnOk result (Appends (W.contents output.old) (W.contents output.new)
        (flat_map (line_text by_identity) lines.now)) }
    ensures part { OnErr result ((count : ℕ) × Appends (W.contents output.old)
        (W.contents output.new) (take count (flat_map (line_text by_identity) lines.now))) }
    ensures none { IfErr result (λ f. f ≡ ServeFault.Memory
        → W.contents output.new ≡ W.contents output.old) }
    ensures fault { IfErr result (λ f. (f ≡ ServeFault.Output) ⊎ (f ≡ ServeFault.Memory)) }
{
    if lines.is_empty() {
        return Ok(());
    }
    let text = text_of(alloc, lines)?;
    match write_all(output, text.as_bytes()) {
        Ok(()) => Ok(()),
        Err(_) => Err(ServeFault::Output),
    }
}

// The lines' text, with bags by their identities.
fn text_of(alloc: Global, lines: &[Line]) -> Result<String, AllocError>
    ensures { IfOk result (λ text. string_bytes text ≡ flat_map (line_text by_identity) lines.now) }
{
    let options = Options {
        sent: false,
        identities: true,
    };
    let mut text = String::new(alloc);
    for line in lines {
        push_line(alloc, &mut text, options, line)?;
    }
    Ok(text)
}

// Whether a line says that a call was refused since the site's device failed. A site that needs
// opening serves until a call says so: noise, and idle turns without a proposal, pass.
fn is_refused(lines: &[Line]) -> bool
    ensures { result ≡ list_any line_of_the_cell lines.now }
{
    lines.iter().any(|line| is_of_the_cell(line))
}

fn is_of_the_cell(line: &Line) -> bool
    ensures { result ≡ line_of_the_cell line.now }
{
    matches!(
        line,
        Line::Refused {
            fault: SiteFault::Device | SiteFault::NeedsOpen,
            ..
        }
    )
}
