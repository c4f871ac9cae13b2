//! The command `catch-up`.

use crate::arguments::CatchUpTask;
use crate::clock_timer::ClockTimer;
use crate::rounds::{Target, catch_up_on};
use crate::sites::{SiteToAsk, Sites, sites_for};
use crate::version_speaker::VersionSpeaker;
use code_words::{Asked, AskedSpeaker, SpokenLines};
use counted_writes::CountedWriter;
use json_lines::JsonLines;
use known_bags::{DiskSources, KnownBag, push_sources, write_fault};
use outcomes::ProgramFault;
use site_client::{Stop, write_stop};
use std::io;
use std::io::Write;

/// Asks as the arguments say. The lines are written to standard output, and said in words on
/// standard error, if that is asked for.
pub fn catch_up_site(rt: &HostRuntime, task: &CatchUpTask<'_>) -> Result<u8, ProgramFault> {
    let speaker = VersionSpeaker::if_asked(rt, task);
    let output = JsonLines::new(rt.alloc(), task.json, io::writer(rt));
    let output = SpokenLines::new(rt.alloc(), speaker, output);
    let mut versions = Vec::new(rt.alloc());
    match push_sources(rt.alloc(), &DiskSources { rt }, &mut versions, &task.files) {
        Ok(()) => {}
        Err(fault) => return write_fault(rt.alloc(), &mut CountedWriter::new(output), fault),
    }
    let to_ask = SiteToAsk {
        members: task.members,
        key: task.key,
        to: task.to,
        wait: task.wait,
    };
    match sites_for(rt, &to_ask) {
        Ok(sites) => ask_all(rt, task, sites, &mut versions, output),
        Err(stop) => refuse(rt, task, stop),
    }
}

// Writes why nobody can be asked, and says it in words if they are asked for.
fn refuse(rt: &HostRuntime, task: &CatchUpTask<'_>, stop: Stop) -> Result<u8, ProgramFault> {
    let asked = Asked {
        key: task.key,
        site: task.to.number(),
        ..Asked::of_members(task.members)
    };
    let speaker = AskedSpeaker::if_asked(rt, task.words, asked);
    let output = JsonLines::new(rt.alloc(), task.json, io::writer(rt));
    write_stop(
        rt.alloc(),
        &mut SpokenLines::new(rt.alloc(), speaker, output),
        stop,
    )
}

fn ask_all<W: Write + Drop>(
    rt: &HostRuntime,
    task: &CatchUpTask<'_>,
    sites: Sites,
    versions: &mut Vec<KnownBag>,
    output: W,
) -> Result<u8, ProgramFault> {
    let Sites {
        federation,
        target,
        addresses,
        mut port,
    } = sites;
    let asked = Target {
        federation,
        to: task.to,
        target,
        addresses: &addresses,
        round: 0,
    };
    let alloc = rt.alloc();
    let timer = &mut ClockTimer::new(rt);
    let output = &mut CountedWriter::new(output);
    catch_up_on(
        alloc,
        timer,
        &mut port,
        &asked,
        versions,
        task.seconds,
        output,
    )
}
