//! One site that serves.

ghost use Rattle.std.specs.Prelude.{◌≡◌, false, IfOk, Err, string_bytes};
ghost use Rattle.book.specs.Batches.{BatchCell, HoldsFirst};
ghost use Rattle.proposer.specs.VolatileStates.{new_volatile};
ghost use Rattle.site.specs.Batches.{no_cell};
ghost use Rattle.site.specs.Sites.{OpenSite, Represents};
ghost use Rattle.book.specs.declared.waiting.Waiting.{Waiting as declared_waiting};
ghost use Rattle.udp_site.specs.BatchTurns.{begins_with};
ghost use Rattle.udp_site.specs.Served.{outside};
ghost use Rattle.udp_site.specs.Turns.{turn_of};
ghost use Rattle.site_commands.specs.Services.{OpensAndServes, ServedBy, IsParted, IsConcluded};
ghost use Rattle.site_commands.specs.Services.{unopened, stopped};

use crate::site_arguments::Turns;
use addresses::Address;
use bag_folders::Folders;
use book::{OpenFault, SyncedCell, Waiting};
use cell_device::Cell;
use fed_types::{Members, SiteNo, members_are_well_formed};
use outcomes::ProgramFault;
use records::Owner;
use site::Site;
use site_client::{Stop, write_numbered, write_stop};
use site_log::SiteLog;
use std::alloc::{AllocError, Global};
use std::io::Write;
use udp_site::{Port, ServeFault, serve_batches};

/// How a site serves.
#[derive(Clone, Copy)]
pub struct Service<'a> {
    /// The addresses of all sites, that of site 1 first.
    pub addresses: &'a [Address],
    pub turns: Turns,
    /// The log that is told when it begins, if there is one.
    pub log: Option<&'a SiteLog<'a>>,
}

/// Opens the site of this number, and serves its turns, in batches: what has come is taken in
/// together, and its records are synced together, before anything of it is answered. Its lines are
/// written, and the exit status is 0; or it is 1, and a last line says why: `not a member`,
/// `open N` with the number of the `OpenFault`, or `stopped N` with that of the `ServeFault`.
pub fn open_and_serve<C: Cell + Drop, P: Port, F: Folders, W: Write>(
    alloc: Global,
    cell: C,
    members: Members,
    number: SiteNo,
    port: &mut P,
    folders: &mut F,
    service: Service<'_>,
    output: &mut W,
) -> Result<u8, ProgramFault>
    ensures { OpensAndServes C.device
        (turn_of no_cell service.entry.addresses.now (F.gives folders.old))
        (record { members = members; site = number }) service.entry.turns cell
        (outside (P.traffic port.old) (W.contents output.old))
        (outside (P.traffic port.new) (W.contents output.new)) result }
{
    if !members.has(number) {
        return write_stop(alloc, output, Stop::NotAMember);
    }
    members_are_well_formed(&members);
    let site = number;
    match Site::open(alloc, cell, Owner { members, site }) {
        Ok(site) => serve_as(alloc, site, port, folders, service, output),
        Err((_, fault)) => write_numbered(output, open_line(alloc, fault)),
    }
}

// Says that it begins, and serves.
fn serve_as<C: Cell + Drop, P: Port, F: Folders, W: Write>(
    alloc: Global,
    opened: Site<C>,
    port: &mut P,
    folders: &mut F,
    service: Service<'_>,
    output: &mut W,
) -> Result<u8, ProgramFault>
    ensures { Represents opened new_volatile → (site : OpenSite declared_waiting)
        × (held : BatchCell C) × IsParted opened site held × ServedBy C.device
        (turn_of no_cell service.entry.addresses.now (F.gives folders.old)) service.entry.turns
        (outside (P.traffic port.old) (W.contents output.old))
        (outside (P.traffic port.new) (W.contents output.new))
        (begins_with site held new_volatile) result }
{
    let (mut site, mut held) = opened.part();
    if let Some(log) = service.log {
        log.begins(site.records());
    }
    let addresses = service.addresses;
    let (site, held) = (&mut site, &mut held);
    match service.turns {
        Turns::Count(turns) => {
            serve_for(alloc, site, held, port, folders, addresses, turns, output)
        }
        Turns::Forever => serve_forever(alloc, site, held, port, folders, addresses, output),
    }
}

// Serves this many turns, and says why it stopped before them.
fn serve_for<C: Cell, P: Port, F: Folders, W: Write>(
    alloc: Global,
    site: &mut Site<Waiting>,
    held: &mut SyncedCell<C>,
    port: &mut P,
    folders: &mut F,
    addresses: &[Address],
    turns: u32,
    output: &mut W,
) -> Result<u8, ProgramFault>
    requires held { HoldsFirst C.device held.old site.old.book }
    requires waits { site.old.book.needs_opening ≡ false }
    ensures { Represents site.old new_volatile → ServedBy C.device
        (turn_of no_cell addresses.now (F.gives folders.old)) (Turns.Count turns)
        (outside (P.traffic port.old) (W.contents output.old))
        (outside (P.traffic port.new) (W.contents output.new))
        (begins_with site.old held.old new_volatile) result }
{
    match serve_batches(alloc, site, held, port, folders, addresses, turns, output) {
        Ok(()) => Ok(0),
        Err(fault) => write_stopped(alloc, output, fault),
    }
}

// Serves until something stops it: as many turns as can be served in one call, again and again.
fn serve_forever<C: Cell, P: Port, F: Folders, W: Write>(
    alloc: Global,
    site: &mut Site<Waiting>,
    held: &mut SyncedCell<C>,
    port: &mut P,
    folders: &mut F,
    addresses: &[Address],
    output: &mut W,
) -> Result<u8, ProgramFault>
    requires held { HoldsFirst C.device held.old site.old.book }
    requires waits { site.old.book.needs_opening ≡ false }
    ensures { Represents site.old new_volatile → ServedBy C.device
        (turn_of no_cell addresses.now (F.gives folders.old)) Turns.Forever
        (outside (P.traffic port.old) (W.contents output.old))
        (outside (P.traffic port.new) (W.contents output.new))
        (begins_with site.old held.old new_volatile) result }
{
    'calls: for _ in 0..u64::MAX {
        match serve_batches(
            alloc,
            site,
            held,
            port,
            folders,
            addresses,
            u32::MAX,
            output,
        ) {
            Ok(()) => {}
            Err(fault) => return write_stopped(alloc, output, fault),
        }
    }
    Ok(0)
}

// Says why the site stopped serving, unless that is because nothing can be written.
fn write_stopped<W: Write>(
    alloc: Global,
    output: &mut W,
    fault: ServeFault,
) -> Result<u8, ProgramFault>
    ensures { IsConcluded (W.contents output.old) (W.contents output.new) (Err fault) result }
{
    match fault {
        ServeFault::Output => Err(ProgramFault::Output),
        _ => write_numbered(output, stopped_line(alloc, fault)),
    }
}

fn open_line(alloc: Global, fault: OpenFault) -> Result<String, AllocError>
    ensures { IfOk result (λ line. string_bytes line ≡ (unopened fault).text) }
{
    let number = fault.number();
    format!(in alloc; "open {number}\n")
}

fn stopped_line(alloc: Global, fault: ServeFault) -> Result<String, AllocError>
    ensures { IfOk result (λ line. string_bytes line ≡ (stopped fault).text) }
{
    let number = fault.number();
    format!(in alloc; "stopped {number}\n")
}
