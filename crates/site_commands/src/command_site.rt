//! The command `site`: a site of the members file, over a file and a socket.

ghost use Rattle.std.specs.Prelude.{◌≡◌, IfOk};

use crate::apart_files::{ERRORS, NamedFile, OUTPUT, expect_apart, say_output};
use crate::cell_opening::cell_of;
use crate::folders_below::FoldersBelow;
use crate::noted_ending::note_ending;
use crate::own_address::{addresses_with, origins_of, own_address};
use crate::site_arguments::SiteTask;
use crate::site_output::SiteOutput;
use crate::site_process::{Service, open_and_serve};
use crate::standard_streams::HeldStreams;
use addresses::Address;
use bag_folders::{Folders, RememberingFolders};
use cell_file::{DiskCell, path_beside};
use code_words::{Asked, AskedSpeaker, SpokenLines};
use fed_types::Members;
use outcomes::ProgramFault;
use records::Owner;
use site_client::{Stop, expect_listed, members_at, site_keys_for, site_socket, write_stop};
use site_log::{LoggedFolders, LoggedOutput, LoggedPort, SiteLog, Watch, WatchedPort};
use std::alloc::AllocError;
use std::fs;
use std::io::{self, ErrorKind, Write};
use system_files::is_same_file;
use udp_site::{Port, UdpPort};

/// Serves as the arguments say. The lines are written to standard output. Where a log is asked for,
/// it is opened before all else, so that it has what ends the site.
pub fn serve_site<'a>(rt: &'a HostRuntime, task: &SiteTask<'a>) -> Result<u8, ProgramFault> {
    let _held = HeldStreams::places(rt);
    match refuses_outputs(rt, task) {
        Ok(false) => serve(rt, task),
        Ok(true) => Ok(1),
        Err(AllocError) => write_stop(rt.alloc(), &mut output_of(rt, task, None), Stop::Memory),
    }
}

// Says of a file that is called `-` that it is one, and no stream.
fn say_hyphens(rt: &HostRuntime, task: &SiteTask<'_>) {
    if task.log == Some("-") {
        let _ = rt.eprintln("--log -: it is the name of a file here, and not standard output");
    }
    if task.cell == "-" {
        let _ = rt.eprintln("--cell -: it is the name of a file here, and not standard input");
    }
}

// Whether an output is the cell, into which each line would go. The other output says so; where
// both are the cell, nobody is told.
fn refuses_outputs(rt: &HostRuntime, task: &SiteTask<'_>) -> Result<bool, AllocError> {
    let output = is_cell(rt, OUTPUT, task)?;
    let errors = is_cell(rt, ERRORS, task)?;
    if output && !errors {
        say_output(rt, task.cell);
    }
    if errors && !output && !task.quiet {
        let _ = write_stop(rt.alloc(), &mut io::writer(rt), Stop::SameFile);
    }
    Ok(output || errors)
}

// Whether this output is the file of the cell.
fn is_cell(rt: &HostRuntime, output: &str, task: &SiteTask<'_>) -> Result<bool, AllocError> {
    match fs::metadata(rt, output) {
        Ok(found) if found.is_file() => is_same_file(rt, output, task.cell),
        _ => Ok(false),
    }
}

fn serve<'a>(rt: &'a HostRuntime, task: &SiteTask<'a>) -> Result<u8, ProgramFault> {
    if task.words {
        say_hyphens(rt, task);
    }
    let Some(path) = task.log else {
        return equip_and_serve(rt, task, None, &mut output_of(rt, task, None));
    };
    if let Err(stop) = expect_log_apart(rt, task, path) {
        return write_stop(rt.alloc(), &mut output_of(rt, task, None), stop);
    }
    let log = SiteLog::open(rt, path, task.number);
    let mut output = LoggedOutput::new(&log, output_of(rt, task, Some(&log)));
    let answer = equip_and_serve(rt, task, Some(&log), &mut output);
    note_ending(rt.alloc(), &log, answer);
    answer
}

// Refuses a log that is the cell, the file beside it, the members file or the key file, before it
// is made or written.
fn expect_log_apart(rt: &HostRuntime, task: &SiteTask<'_>, path: &str) -> Result<(), Stop> {
    let option = "--log";
    expect_apart(rt, cell_named(task), NamedFile { option, path })?;
    expect_apart_from_lengths(rt, task, NamedFile { option, path })?;
    expect_apart(rt, members_named(task), NamedFile { option, path })?;
    expect_key_apart(rt, task, NamedFile { option, path })
}

// Refuses a file that is the one beside the cell, in which the site says how much is synced.
fn expect_apart_from_lengths(
    rt: &HostRuntime,
    task: &SiteTask<'_>,
    other: NamedFile<'_>,
) -> Result<(), Stop> {
    match path_beside(rt.alloc(), task.cell) {
        Ok(beside) => {
            let option = "--cell's own";
            let path = beside.as_str();
            expect_apart(rt, NamedFile { option, path }, other)
        }
        Err(AllocError) => Err(Stop::Memory),
    }
}

// Refuses a key file that is one of the others.
fn expect_key_apart(
    rt: &HostRuntime,
    task: &SiteTask<'_>,
    other: NamedFile<'_>,
) -> Result<(), Stop> {
    let Some(path) = task.key else {
        return Ok(());
    };
    let option = "--key";
    match expect_apart(rt, NamedFile { option, path }, other) {
        Err(Stop::SameFile) => Err(Stop::KeySameFile),
        answer => answer,
    }
}

fn cell_named<'a>(task: &SiteTask<'a>) -> NamedFile<'a> {
    NamedFile {
        option: "--cell",
        path: task.cell,
    }
}

fn members_named<'a>(task: &SiteTask<'a>) -> NamedFile<'a> {
    NamedFile {
        option: "--members",
        path: task.members,
    }
}

// Serves, or says what is missing.
fn equip_and_serve<W: Write>(
    rt: &HostRuntime,
    task: &SiteTask<'_>,
    log: Option<&SiteLog<'_>>,
    output: &mut W,
) -> Result<u8, ProgramFault> {
    match equip(rt, task) {
        Ok(means) => serve_with(rt, task, means, log, output),
        Err(stop) => write_stop(rt.alloc(), output, stop),
    }
}

// Standard output; after each line that has a code words on standard error, where they are asked
// for.
fn output_of<'a, 'l, 's>(
    rt: &'a HostRuntime,
    task: &SiteTask<'a>,
    log: Option<&'l SiteLog<'s>>,
) -> SpokenLines<SiteOutput<'a, 'l, 's>, AskedSpeaker<'a>> {
    let asked = Asked {
        key: task.key,
        site: task.number.number(),
        cell: Some(task.cell),
        existing: task.existing,
        listens: task.listen,
        bags: task.bags,
        wait: task.waits.first,
        ..Asked::of_members(task.members)
    };
    let speaker = AskedSpeaker::if_asked(rt, task.words, asked);
    SpokenLines::new(rt.alloc(), speaker, SiteOutput::new(rt, task.quiet, log))
}

/// What a site serves with.
#[derive(Drop)]
struct Means<P, F> {
    members: Members,
    addresses: Vec<Address>,
    folders: F,
    cell: DiskCell,
    port: P,
}

/// The folders that clients may have deposited.
type BagFolders<'a> = FoldersBelow<'a, RememberingFolders<HostRuntime>>;

// All that is needed, in the order in which it is looked for.
fn equip<'a>(rt: &HostRuntime, task: &SiteTask<'a>) -> Result<Means<UdpPort, BagFolders<'a>>, Stop>
    ensures { IfOk result (λ means. means.folders.top ≡ task.now.bags) }
{
    expect_apart(rt, cell_named(task), members_named(task))?;
    expect_key_apart(rt, task, cell_named(task))?;
    expect_key_apart(rt, task, members_named(task))?;
    let file = members_at(rt, task.members)?;
    if task.listed {
        expect_listed(rt.alloc(), &file)?;
    }
    let at = own_address(rt.alloc(), &file, task)?;
    let addresses = addresses_with(rt.alloc(), &file, task.number, at)?;
    let members = file.members();
    let keys = site_keys_for(rt, task.key)?;
    let folders = folders_of(rt, task)?;
    let site = task.number;
    let cell = cell_of(rt, task, &Owner { members, site })?;
    let origins = origins_of(rt.alloc(), &file, &addresses)?;
    let port = site_socket(rt, members, site, at, origins, task.waits, keys)?;
    Ok(Means {
        members,
        addresses,
        folders,
        cell,
        port,
    })
}

// Serves, with the log, if there is one.
fn serve_with<W: Write>(
    rt: &HostRuntime,
    task: &SiteTask<'_>,
    means: Means<UdpPort, BagFolders<'_>>,
    log: Option<&SiteLog<'_>>,
    output: &mut W,
) -> Result<u8, ProgramFault> {
    match log {
        Some(log) => serve_logged(rt, task, means, log, output),
        None => serve_by(rt, task, means, None, output),
    }
}

// Serves, while the log is told of all that comes or can't be read.
fn serve_logged<'a, W: Write>(
    rt: &HostRuntime,
    task: &SiteTask<'_>,
    means: Means<UdpPort, BagFolders<'_>>,
    log: &'a SiteLog<'a>,
    output: &mut W,
) -> Result<u8, ProgramFault> {
    let Means {
        members,
        addresses,
        folders,
        cell,
        port,
    } = means;
    log.is_at(members, port.address(), port.buffer(), port.key_names());
    let means = Means {
        members,
        addresses,
        folders: LoggedFolders::new(log, folders),
        cell,
        port: LoggedPort::new(log, port),
    };
    serve_by(rt, task, means, Some(log), output)
}

// Serves by these means.
fn serve_by<P: Port + Drop, F: Folders + Drop, W: Write>(
    rt: &HostRuntime,
    task: &SiteTask<'_>,
    means: Means<P, F>,
    log: Option<&SiteLog<'_>>,
    output: &mut W,
) -> Result<u8, ProgramFault> {
    let Means {
        members,
        addresses,
        mut folders,
        cell,
        port,
    } = means;
    let watch = Watch::new(rt, members, task.number, &addresses, log, task.words);
    let mut port = WatchedPort::new(&watch, port);
    let service = Service {
        addresses: &addresses,
        turns: task.turns,
        log,
    };
    let number = task.number;
    open_and_serve(
        rt.alloc(),
        cell,
        members,
        number,
        &mut port,
        &mut folders,
        service,
        output,
    )
}

// The folders that clients may have deposited: those below the one that is asked for, if one is.
fn folders_of<'a>(rt: &HostRuntime, task: &SiteTask<'a>) -> Result<BagFolders<'a>, Stop>
    ensures { IfOk result (λ folders. folders.top ≡ task.now.bags) }
{
    if let Some(top) = task.bags {
        find_folder(rt, top)?;
    }
    let most_bytes = task.most_bytes.unwrap_or(u64::MAX);
    let folders = RememberingFolders::new(disk(rt)?, most_bytes);
    Ok(FoldersBelow::new(rt.alloc(), task.bags, folders))
}

fn find_folder(rt: &HostRuntime, path: &str) -> Result<(), Stop> {
    match fs::metadata(rt, path) {
        Ok(found) if found.is_dir() => Ok(()),
        Ok(_) => Err(Stop::BagsUnread),
        Err(error) if error.kind() == ErrorKind::OutOfMemory => Err(Stop::Memory),
        Err(_) => Err(Stop::BagsUnread),
    }
}

fn disk(rt: &HostRuntime) -> Result<HostRuntime, Stop> {
    match rt.clone() {
        Ok(disk) => Ok(disk),
        Err(_) => Err(Stop::Memory),
    }
}
