//! What is written of how sites stand.

ghost use Rattle.std.specs.Prelude.{◌≡◌, ◌++◌, [], ◌∷◌, IfOk, string_bytes};
ghost use Rattle.cell_device.specs.Calls.{HasCause};
ghost use Rattle.standings.specs.Reports.{report, AreReported};
ghost use Rattle.standings.specs.inner.{IsTold};

use crate::asking::ask_all;
use crate::polled::Polled;
use crate::site_lines::{most_known, push_federation, push_sites, well};
use crate::stopwatch::Stopwatch;
use counted_writes::{CountedWrite, write_output};
use outcomes::ProgramFault;
use std::alloc::{AllocError, Global};
use std::time::Clock;
use udp_site::Port;

/// Asks the sites how they stand, and writes a line for each: `site S up MS records R known K
/// pending P alone A lacks L`, with what it answers after MS milliseconds, and how many bags at
/// least another site or the files know and it doesn't; or `site S silent`. At last it writes how
/// many sites are well: `federation F K of N`. The status is 0 where all are, and else 1. So many
/// bags are known by files, or none. Where memory runs out nothing is written but the line
/// `memory`, and the status is 1.
pub fn report_standings<P: Port, C: Clock, W: CountedWrite>(
    alloc: Global,
    clock: &C,
    port: &mut P,
    federation: u64,
    by_files: u64,
    sites: &mut [Polled],
    output: &mut W,
) -> Result<u8, ProgramFault>
    ensures told { AreReported federation by_files sites.old (P.traffic port.old)
        (P.traffic port.new) (W.contents output.old) (W.contents output.new) result }
    ensures cause { HasCause ProgramFault.Output (W.failures output.old) (W.failures output.new)
        result }
{
    match ask_and_tell(alloc, clock, port, federation, by_files, sites) {
        Ok((status, text)) => write_output(output, status, text.as_str()),
        Err(AllocError) => write_output(output, 1, "memory\n"),
    }
}

// Asks, and gives the status and the lines.
fn ask_and_tell<P: Port, C: Clock>(
    alloc: Global,
    clock: &C,
    port: &mut P,
    federation: u64,
    by_files: u64,
    sites: &mut [Polled],
) -> Result<(u8, String), AllocError>
    ensures { IfOk result (λ told. IsTold federation by_files sites.old (P.traffic port.old)
        (P.traffic port.new) told.0 (string_bytes told.1)) }
{
    let watch = Stopwatch::new(clock);
    ask_all(alloc, &watch, port, federation, sites)?;
    tell(alloc, federation, by_files, sites)
}

// The status and the lines of these sites.
fn tell(
    alloc: Global,
    federation: u64,
    by_files: u64,
    sites: &[Polled],
) -> Result<(u8, String), AllocError>
    ensures { IfOk result (λ told. (told.0 ≡ (report federation by_files sites.now).status)
        × (string_bytes told.1 ≡ (report federation by_files sites.now).text)) }
{
    let most = most_known(by_files, sites);
    let well = well(most, sites);
    let mut text = String::new(alloc);
    push_sites(&mut text, most, sites)?;
    push_federation(&mut text, federation, well, sites.len())?;
    let status = if well == sites.len() { 0 } else { 1 };
    Ok((status, text))
}
