//! The key files of the command `members`: the names of a file's keys, and a new file.

use crate::members_arguments::MembersTask;
use crate::printed_members::{no_random_numbers, print_text};
use code_words::push_name;
use key_file::{KEY_BYTES, new_key_text};
use outcomes::ProgramFault;
use site_client::{Stop, keys_at};
use std::alloc::{AllocError, Global};
use std::fs::{self, File, OpenOptions};
use std::io::{self, ErrorKind, Write};
use std::os::unix::fs::OpenOptionsExt;
use std::random::RandomSource;
use system_files::expect_room;
use tags::{KeyRing, TagKey};

/// Prints the names of the keys in the file of this path.
pub(crate) fn print_keys(
    rt: &HostRuntime,
    task: &MembersTask<'_>,
    path: &str,
) -> Result<u8, ProgramFault> {
    print_text(rt, task, names_at(rt, path))
}

/// Writes a new key file, which nobody else may read, and prints the names of its keys. A file that
/// is there stays as it is.
pub(crate) fn make_keys(
    rt: &HostRuntime,
    task: &MembersTask<'_>,
    path: &str,
) -> Result<u8, ProgramFault> {
    let mut sites = [0; KEY_BYTES];
    let mut clients = [0; KEY_BYTES];
    let filled = rt.fill_bytes(&mut sites).is_ok() && rt.fill_bytes(&mut clients).is_ok();
    if !filled {
        return no_random_numbers(rt);
    }
    match make_file(rt, path, &sites, &clients) {
        Ok(()) => {
            let answer = print_keys(rt, task, path);
            if answer.is_err() {
                say_made(rt, path);
            }
            answer
        }
        Err(stop) => print_text(rt, task, Err(stop)),
    }
}

// Says that the file is there, though the names of its keys couldn't be printed. Where there is no
// memory for the words, nobody is told.
fn say_made(rt: &HostRuntime, path: &str) {
    let mut name = String::new(rt.alloc());
    if push_name(&mut name, path).is_ok() {
        let _ = eprintln!(rt;
            "bagpaxos: {name} is written; its keys' names, which couldn't be printed, are those \
            of: bagpaxos members --key {name}"
        );
    }
}

fn make_file(
    rt: &HostRuntime,
    path: &str,
    sites: &[u8; KEY_BYTES],
    clients: &[u8; KEY_BYTES],
) -> Result<(), Stop> {
    let Ok(text) = new_key_text(rt.alloc(), sites, clients) else {
        return Err(Stop::Memory);
    };
    let mut file = match new_file(rt, path) {
        Ok(file) => file,
        Err(error) => return Err(unmade(&error)),
    };
    match write_synced(&mut file, text.as_str()) {
        Ok(()) => Ok(()),
        Err(_) => {
            // What was written is no key file.
            let _ = fs::remove_file(rt, path);
            Err(Stop::KeyUnwritten)
        }
    }
}

fn new_file(rt: &HostRuntime, path: &str) -> io::Result<File> {
    OpenOptions::new()
        .write(true)
        .create_new(true)
        .mode(0o600)
        .open(rt, path)
}

fn unmade(error: &io::Error) -> Stop {
    match error.kind() {
        ErrorKind::AlreadyExists => Stop::KeyExists,
        ErrorKind::OutOfMemory => Stop::Memory,
        _ => Stop::KeyUnwritten,
    }
}

fn write_synced(file: &mut File, text: &str) -> io::Result<()> {
    expect_room(file, text.len() as u64)?;
    file.write_all(text.as_bytes())?;
    file.sync_all()
}

fn names_at(rt: &HostRuntime, path: &str) -> Result<String, Stop> {
    let keys = keys_at(rt, path)?;
    match names_of(rt.alloc(), &keys) {
        Ok(text) => Ok(text),
        Err(AllocError) => Err(Stop::Memory),
    }
}

// A line for each key, of each kind the one that is sent with first.
fn names_of(alloc: Global, keys: &KeyRing) -> Result<String, AllocError> {
    let mut text = String::new(alloc);
    push_names(&mut text, "sites", keys.sites())?;
    push_names(&mut text, "clients", keys.clients())?;
    Ok(text)
}

fn push_names(text: &mut String, kind: &str, keys: &[TagKey]) -> Result<(), AllocError> {
    for key in keys {
        let name = key.name();
        write!(text, "key {kind} {name:08x}\n")?;
    }
    Ok(())
}
