//! What a line of `site` or `send` says.

use crate::asked::Asked;
use crate::cell_reason::{other_file, push_cell_reason, push_other};
use crate::deposited::push_deposited;
use crate::file_kind::{FileKind, kind_at};
use crate::file_reason::{is_empty, is_piped, push_file_reason};
use crate::key_reason::{is_unlike_key, key_reason};
use crate::meaning::Meaning;
use crate::members_reason::{place_of, push_line_reason, push_stranger};
use crate::name::push_name;
use crate::of_line::meaning_of_line;
use crate::place_pair::push_listened;
use members_file::Place;
use std::alloc::{AllocError, Global};

/// What is said of an address at which no socket can be had.
const NOT_HAD: &str =
    " can't be had: another process has it, this machine hasn't that address, or the system \
    refuses it; `ss -lunp` and `ip address` say which";

/// What is said of a file to which others have rights, if no line of it is like those of a key
/// file.
const UNLIKE_A_KEY: &str =
    " doesn't look like a key file: look at the path; if it holds keys, `chmod 600` it and make \
    new ones";

/// Appends what a line says, if it has a code.
pub(crate) fn push_reason(
    rt: &HostRuntime,
    text: &mut String,
    asked: &Asked<'_>,
    line: &str,
) -> Result<(), AllocError> {
    if let Some(number) = line.strip_prefix("members line ") {
        return push_line_reason(rt, text, asked, number);
    }
    match line {
        "members unread" => push_file_reason(rt, text, asked.members),
        "key unread" => push_key(rt, text, asked),
        "key open to others" => push_open_key(rt, text, asked, line),
        "not a member" => push_stranger(text, asked),
        "bags unread" => push_bags(rt, text, asked),
        "no answer" => push_silence(rt, text, asked),
        "socket" => push_socket(rt, text, asked),
        "open 4" => push_cell(rt, text, asked),
        _ if is_reply(line, "pending") => push_in_vain(text, asked),
        _ if is_reply(line, "nothing") => push_unheard(text, asked, line),
        _ if is_reply(line, "known") || is_deposited(asked, line) => push_escaped(text, line),
        _ => push_meaning(rt, text, asked, line),
    }
}

// Appends what the line's code says, after the name of what it is about, if it has one.
fn push_meaning(
    rt: &HostRuntime,
    text: &mut String,
    asked: &Asked<'_>,
    line: &str,
) -> Result<(), AllocError> {
    let Some(meaning) = meaning_of_line(rt.alloc(), line)? else {
        return Ok(());
    };
    push_subject(text, asked, line, meaning)?;
    match reason_for(rt, asked, line)? {
        Some(reason) => {
            text.push_str(meaning.words)?;
            push_other(rt, text, asked.cell.unwrap_or(""), reason)
        }
        None => {
            meaning.push(text)?;
            push_hint(text, asked, meaning)
        }
    }
}

// What is said in place of what to do, where more is known of the file: what is no cell isn't the
// cell of a site that is lost.
fn reason_for(
    rt: &HostRuntime,
    asked: &Asked<'_>,
    line: &str,
) -> Result<Option<&'static str>, AllocError> {
    if line.starts_with("open ") {
        return Ok(match asked.cell {
            Some(cell) => other_file(rt, cell),
            None => None,
        });
    }
    match (line.strip_prefix("key line "), asked.key) {
        (Some(number), Some(key)) => key_reason(rt, key, number.parse::<usize>().unwrap_or(1)),
        _ => Ok(None),
    }
}

// Appends how to learn where a bag is at fault.
fn push_hint(text: &mut String, asked: &Asked<'_>, meaning: &Meaning) -> Result<(), AllocError> {
    if meaning.code == "unread 4" {
        text.push_str("; or it has more bytes than the site takes, by its option --most-bytes")?;
    }
    if let Some(path) = asked.path {
        if meaning.code == "unread 1" && path.starts_with('/') {
            text.push_str("; or the site takes only paths below the folder of its option --bags")?;
        }
        if meaning.code == "unread 1" && path.split('/').any(|part| part == "..") {
            text.push_str("; or it has the option --bags, and takes no path with a part ..")?;
        }
    }
    if asked.path.is_some() && is_of_folder(meaning) {
        return text.push_str("; `bagpaxos check --words` of that folder says where");
    }
    Ok(())
}

// Appends the name of the cell, or of the folder, and a colon.
fn push_subject(
    text: &mut String,
    asked: &Asked<'_>,
    line: &str,
    meaning: &Meaning,
) -> Result<(), AllocError> {
    if line.starts_with("open ") || line.starts_with("stopped 2") {
        return push_named(text, asked.cell.unwrap_or("the cell"));
    }
    if line.starts_with("members ") {
        return push_named(text, asked.members);
    }
    if line.starts_with("key ") {
        return push_named(text, asked.key.unwrap_or("the key file"));
    }
    match asked.path {
        Some(path) if is_of_folder(meaning) => push_deposited(text, asked.site, path),
        _ => Ok(()),
    }
}

fn is_of_folder(meaning: &Meaning) -> bool {
    meaning.code.starts_with("invalid ") || meaning.code.starts_with("unread ")
}

fn push_named(text: &mut String, name: &str) -> Result<(), AllocError> {
    push_name(text, name)?;
    text.push_str(": ")
}

fn push_key(rt: &HostRuntime, text: &mut String, asked: &Asked<'_>) -> Result<(), AllocError> {
    match asked.key {
        Some(key) if is_piped(rt, key) => {
            push_name(text, key)?;
            text.push_str(" isn't a file, as a key file is")
        }
        Some(key) => push_file_reason(rt, text, key),
        None => Ok(()),
    }
}

// Appends that others have rights to the key file, or that the file seems to be none at all.
fn push_open_key(
    rt: &HostRuntime,
    text: &mut String,
    asked: &Asked<'_>,
    line: &str,
) -> Result<(), AllocError> {
    if let Some(key) = asked.key {
        match kind_at(rt, key) {
            Some(kind) if kind.is_no_key() => return push_no_key(text, key, kind),
            _ if is_empty(rt, key) => return push_no_key(text, key, FileKind::Empty),
            _ if is_unlike_key(rt, key) => {
                push_name(text, key)?;
                return text.push_str(UNLIKE_A_KEY);
            }
            _ => {}
        }
    }
    push_meaning(rt, text, asked, line)
}

// Appends of which kind the file of this name is, in place of a key file.
fn push_no_key(text: &mut String, name: &str, kind: FileKind) -> Result<(), AllocError> {
    push_name(text, name)?;
    let kind = kind.name();
    write!(text, " isn't a key file: it is {kind}")
}

fn push_bags(rt: &HostRuntime, text: &mut String, asked: &Asked<'_>) -> Result<(), AllocError> {
    let Some(bags) = asked.bags else {
        return Ok(());
    };
    match std::fs::metadata(rt, bags) {
        Ok(found) if !found.is_dir() => {
            push_name(text, bags)?;
            text.push_str(" isn't a folder")
        }
        _ => push_file_reason(rt, text, bags),
    }
}

fn push_silence(rt: &HostRuntime, text: &mut String, asked: &Asked<'_>) -> Result<(), AllocError> {
    let site = asked.site;
    let wait = asked.wait;
    write!(text, "site {site} didn't answer in {wait} ms")?;
    let place = place_of(rt, asked);
    match &place {
        Some(Place::Port(port)) => write!(text, " at port {port}")?,
        Some(Place::Address(address)) => write!(text, " at {address}")?,
        None => {}
    }
    if asked.path.is_some() {
        text.push_str(
            "; it is down, or the site may still be reading the bag: ask, don't deposit again",
        )?;
    } else {
        text.push_str(
            "; it is down, or may be reading a large bag: see whether it runs, and ask again",
        )?;
    }
    text.push_str(refused_way(&place))?;
    text.push_str(
        "; or its members file is of another federation, or it has another key, or only one of the \
        two has a key: `bagpaxos members` and `bagpaxos members --key` say which they are",
    )
}

// Why nothing may come to a site at this place, or back, though it runs. Sites at ports are on this
// machine.
fn refused_way(place: &Option<Place>) -> &'static str {
    match place {
        Some(Place::Port(_)) => "; or a packet filter of this machine refuses the datagrams",
        _ => {
            "; or a packet filter of this machine or of the site's refuses the datagrams, or this \
            machine has no way to the site's address"
        }
    }
}

// Whether a site replies this of a version.
fn is_reply(line: &str, what: &str) -> bool {
    line.starts_with("reply ") && line.split(' ').nth(4) == Some(what)
}

// Whether a client's deposit is registered, and not one of a site's lines says so.
fn is_deposited(asked: &Asked<'_>, line: &str) -> bool {
    asked.cell.is_none() && line.starts_with("registered ")
}

// Appends why a site may know no bag of a version of which it has heard nothing, where it was asked
// until it knows one: most likely nobody has deposited one.
fn push_unheard(text: &mut String, asked: &Asked<'_>, line: &str) -> Result<(), AllocError> {
    if let Some(seconds) = asked.until_known {
        let site = asked.site;
        write!(
            text,
            "site {site} answers, and no bag was known after {seconds} s: it has no deposit of \
            this version, and has heard of no bag; look at the name and the version, and see by \
            bagpaxos status whether sites with more than half of all weight run"
        )?;
    }
    push_escaped(text, line)
}

// Appends that a name is taken as it is, if it has a percent sign and two digits of hex: a line
// writes the percent sign as `%25`.
fn push_escaped(text: &mut String, line: &str) -> Result<(), AllocError> {
    let name = line.split(' ').nth(2).unwrap_or("");
    if !name.split("%25").skip(1).any(|rest| starts_with_hex(rest)) {
        return Ok(());
    }
    if !text.is_empty() {
        text.push_str("; ")?;
    }
    text.push_str(
        "the object's name is taken as it is, and `%20` in it stands for no blank: give the name \
        in quotes, with its blanks",
    )
}

fn starts_with_hex(text: &str) -> bool {
    match text.as_bytes() {
        [first, second, ..] => first.is_ascii_hexdigit() && second.is_ascii_hexdigit(),
        _ => false,
    }
}

// Appends why a site may know no bag that was deposited, where it was asked until it does.
fn push_in_vain(text: &mut String, asked: &Asked<'_>) -> Result<(), AllocError> {
    let Some(seconds) = asked.until_known else {
        return Ok(());
    };
    let site = asked.site;
    write!(
        text,
        "site {site} answers, and no bag was known after {seconds} s: sites with more than half of \
        all weight have to run and to hear each other; its log says since when it heard no \
        majority; or it has only now read the bag: ask again"
    )
}

fn push_socket(rt: &HostRuntime, text: &mut String, asked: &Asked<'_>) -> Result<(), AllocError> {
    if asked.cell.is_some() {
        if let Some(place) = place_of(rt, asked) {
            return push_refused_place(rt.alloc(), text, &place, asked.listens);
        }
    }
    text.push_str("the system gives no port for the answer")
}

// Appends why a site may get no socket at its place.
fn push_refused_place(
    alloc: Global,
    text: &mut String,
    place: &Place,
    listens: Option<&str>,
) -> Result<(), AllocError> {
    match (place, listens) {
        (Place::Port(_), Some(_)) => text.push_str(
            "--listen is for a members file with addresses, and this one has ports: leave it out",
        ),
        (Place::Port(port), None) => write!(
            text,
            "port {port} can't be had: another process has it, or the system refuses it; \
            `ss -lunp` says which"
        ),
        (Place::Address(_), Some(listens)) => push_refused_address(alloc, text, place, listens),
        (Place::Address(address), None) => {
            write!(text, "{address}")?;
            text.push_str(NOT_HAD)
        }
    }
}

// Appends why a site of this place may get no socket at the address that --listen names.
fn push_refused_address(
    alloc: Global,
    text: &mut String,
    place: &Place,
    listens: &str,
) -> Result<(), AllocError> {
    match Place::parse(alloc, listens.as_bytes())? {
        Some(other) if other.kind() != place.kind() => {
            return push_listened(text, &other, place);
        }
        _ => {}
    }
    push_name(text, listens)?;
    text.push_str(NOT_HAD)
}

fn push_cell(rt: &HostRuntime, text: &mut String, asked: &Asked<'_>) -> Result<(), AllocError> {
    match asked.cell {
        Some(cell) => push_cell_reason(rt, text, cell, asked.existing),
        None => Ok(()),
    }
}
