//! The command `send`: a client of a site of the members file.

use crate::send_arguments::SendTask;
use code_words::{Asked, AskedSpeaker, SpokenLines};
use dgram::FolderPath;
use fed_types::Slot;
use outcomes::ProgramFault;
use site_client::{
    Request, Stop, address_of, addresses_of, client_socket, keys_for, members_at, send_on,
    send_until_known, write_stop,
};
use std::alloc::{AllocError, Global};
use std::io;
use std::io::{Printer, Write};
use udp_site::Waits;

/// Asks as the arguments say. The answer is written to standard output.
pub fn send_to_site(rt: &HostRuntime, task: &SendTask<'_>) -> Result<u8, ProgramFault> {
    let mut output = output_of(rt, task);
    match try_to_send(rt, task, &mut output) {
        Ok(answer) => answer,
        Err(stop) => write_stop(rt.alloc(), &mut output, stop),
    }
}

// Standard output; after its line words on standard error, where they are asked for.
fn output_of<'a>(
    rt: &'a HostRuntime,
    task: &SendTask<'a>,
) -> SpokenLines<Printer<'a, HostRuntime>, AskedSpeaker<'a>> {
    let asked = Asked {
        key: task.key,
        site: task.to.number(),
        path: task.path,
        wait: task.wait,
        until_known: task.until_known,
        ..Asked::of_members(task.members)
    };
    let speaker = AskedSpeaker::if_asked(rt, task.words, asked);
    SpokenLines::new(rt.alloc(), speaker, io::writer(rt))
}

// What came of it, or why nothing was sent.
fn try_to_send<W: Write>(
    rt: &HostRuntime,
    task: &SendTask<'_>,
    output: &mut W,
) -> Result<Result<u8, ProgramFault>, Stop> {
    let members = members_at(rt, task.members)?;
    let target = address_of(&members, task.to)?;
    let keys = keys_for(rt, task.key)?;
    let slot = slot_of(rt.alloc(), task)?;
    let path = path_of(rt.alloc(), task)?;
    let addresses = addresses_of(rt.alloc(), &members)?;
    let federation = members.members().federation();
    let mut port = client_socket(rt, &members, target, Waits::always(task.wait), keys)?;
    let request = Request {
        federation,
        to: task.to,
        target,
        slot: &slot,
        addresses: &addresses,
        asked: 0,
    };
    Ok(match task.until_known {
        Some(seconds) => {
            let alloc = rt.alloc();
            send_until_known(alloc, rt, &mut port, &request, path, seconds, output)
        }
        None => send_on(rt.alloc(), &mut port, &request, path, output),
    })
}

// The slot, which the arguments name within its limits.
fn slot_of(alloc: Global, task: &SendTask<'_>) -> Result<Slot, Stop> {
    match String::from_str(alloc, task.object) {
        Ok(object) => Slot::new(object, task.version).or(Err(Stop::Memory)),
        Err(AllocError) => Err(Stop::Memory),
    }
}

// The folder's path, if the arguments name one, within its limits.
fn path_of(alloc: Global, task: &SendTask<'_>) -> Result<Option<FolderPath>, Stop> {
    match task.path {
        Some(path) => match String::from_str(alloc, path) {
            Ok(path) => Ok(FolderPath::new(path)),
            Err(AllocError) => Err(Stop::Memory),
        },
        None => Ok(None),
    }
}
