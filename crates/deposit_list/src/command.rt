//! The command `send` where it has `--deposits`.

use crate::aim::Aim;
use crate::arguments::DepositsTask;
use crate::deposit::Deposit;
use crate::deposit_lines::{ListFault, deposits_in};
use crate::deposit_speaker::DepositSpeaker;
use crate::progress::Progress;
use crate::send_all::send_all_on;
use catch_up::{ClockTimer, SiteToAsk, Sites, Target, sites_for};
use code_words::{Asked, AskedSpeaker, SpokenLines};
use counted_writes::CountedWriter;
use file_words::say_no_line;
use outcomes::{ProgramFault, ReadFault, read_all, write_output};
use site_client::{Stop, write_stop};
use std::fs::File;
use std::io::{self, ErrorKind, IsTerminal, Printer, Write};

/// Sends the deposits of a file as the arguments say. The lines are written to standard output, and
/// said in words on standard error, if that is asked for; else progress is said there, if it is a
/// terminal.
pub fn send_deposits(rt: &HostRuntime, task: &DepositsTask<'_>) -> Result<u8, ProgramFault> {
    match list_bytes(rt, task.file) {
        Ok(bytes) => {
            let answer = send_list(rt, task, bytes.as_slice());
            if task.words && bytes.is_empty() {
                say_no_line(rt, task.file);
            }
            answer
        }
        Err(ReadFault::Input) => {
            write_output(&mut output_of(rt, task, &[]), 1, "deposits unread\n")
        }
        Err(ReadFault::Memory) => write_output(&mut output_of(rt, task, &[]), 1, "memory\n"),
    }
}

// Standard output; after the lines of this list words on standard error, if they are asked for.
fn output_of<'a>(
    rt: &'a HostRuntime,
    task: &'a DepositsTask<'a>,
    list: &'a [u8],
) -> SpokenLines<Printer<'a, HostRuntime>, DepositSpeaker<'a>> {
    let speaker = DepositSpeaker::if_asked(rt, task, list);
    SpokenLines::new(rt.alloc(), speaker, io::writer(rt))
}

// The file's bytes. A pipe is read to its end.
fn list_bytes(rt: &HostRuntime, path: &str) -> Result<Vec<u8>, ReadFault> {
    if path == "-" {
        return read_all(rt.alloc(), &mut rt.reader());
    }
    match File::open(rt, path) {
        Ok(mut file) => read_all(rt.alloc(), &mut file),
        Err(error) if error.kind() == ErrorKind::OutOfMemory => Err(ReadFault::Memory),
        Err(_) => Err(ReadFault::Input),
    }
}

fn send_list(rt: &HostRuntime, task: &DepositsTask<'_>, list: &[u8]) -> Result<u8, ProgramFault> {
    let mut output = output_of(rt, task, list);
    match deposits_in(rt.alloc(), list) {
        Ok(deposits) => send_to_site(rt, task, deposits.as_slice(), output),
        Err(ListFault::Memory) => write_output(&mut output, 1, "memory\n"),
        Err(ListFault::Line(line)) => match format!(in rt.alloc(); "deposits line {line}\n") {
            Ok(text) => write_output(&mut output, 1, text.as_str()),
            Err(_) => write_output(&mut output, 1, "memory\n"),
        },
    }
}

fn send_to_site<W: Write + Drop>(
    rt: &HostRuntime,
    task: &DepositsTask<'_>,
    deposits: &[Deposit],
    output: W,
) -> Result<u8, ProgramFault> {
    let to_ask = SiteToAsk {
        members: task.members,
        key: task.key,
        to: task.to,
        wait: task.wait,
    };
    match sites_for(rt, &to_ask) {
        Ok(sites) => send_to(rt, task, sites, deposits, output),
        Err(stop) => refuse(rt, task, stop),
    }
}

// Writes why nothing can be sent, and says it in words if they are asked for.
fn refuse(rt: &HostRuntime, task: &DepositsTask<'_>, stop: Stop) -> Result<u8, ProgramFault> {
    let asked = Asked {
        key: task.key,
        site: task.to.number(),
        ..Asked::of_members(task.members)
    };
    let speaker = AskedSpeaker::if_asked(rt, task.words, asked);
    write_stop(
        rt.alloc(),
        &mut SpokenLines::new(rt.alloc(), speaker, io::writer(rt)),
        stop,
    )
}

fn send_to<W: Write + Drop>(
    rt: &HostRuntime,
    task: &DepositsTask<'_>,
    sites: Sites,
    deposits: &[Deposit],
    output: W,
) -> Result<u8, ProgramFault> {
    let Sites {
        federation,
        target,
        addresses,
        mut port,
    } = sites;
    let asked = Target {
        federation,
        to: task.to,
        target,
        addresses: &addresses,
        round: 0,
    };
    let aim = match task.until_known {
        Some(seconds) => Aim::Known(seconds),
        None => Aim::Registered,
    };
    let alloc = rt.alloc();
    let timer = &mut ClockTimer::new(rt);
    let watch = &mut Progress::new(rt, is_progress_said(rt, task));
    let output = &mut CountedWriter::new(output);
    send_all_on(
        alloc, timer, &mut port, &asked, aim, deposits, watch, output,
    )
}

// Whether a person may read progress, and nothing else is written there.
fn is_progress_said(rt: &HostRuntime, task: &DepositsTask<'_>) -> bool {
    rt.stderr().is_terminal() && !rt.stdout().is_terminal() && !task.words
}
