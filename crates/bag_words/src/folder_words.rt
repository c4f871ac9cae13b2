//! All words on a folder.

use crate::bag::Bag;
use crate::counts::{Counts, push_counts};
use crate::empty_folders::push_empty_folders;
use crate::finding::{Finding, findings_in};
use crate::lenient::{Gathered, gather};
use crate::list_kind::{Names, Source, kind_with, said_of};
use crate::listed::TextLines;
use crate::near_names::NearNames;
use crate::oxum::push_oxum;
use crate::place_words::push_place;
use crate::rfc::push_rfc;
use crate::spoken_folders::Wanted;
use crate::tag_files::push_tag_files;
use crate::twins::push_twins;
use crate::unread::{UnreadPaths, push_unread_places};
use bag_check::FilesByPath;
use bag_explain::{explain, explain_gaps};
use bag_tree::{Facts, TreeFault};
use code_words::{FileKind, invalid, unread};
use std::alloc::{AllocError, Global};

/// Appends the words on a folder that was read, each line ended by LF: each place where a fault
/// holds, below what the fault says; warnings; and counts.
pub(crate) fn push_read_words(
    rt: &HostRuntime,
    text: &mut String,
    folder: &str,
    facts: &Facts,
    wanted: Wanted,
) -> Result<(), AllocError> {
    let unread = UnreadPaths::of(rt.alloc(), &[])?;
    let lines = lines_of(rt.alloc(), facts, wanted)?;
    let is_whole = wanted == Wanted::All;
    let counts = Counts::default();
    push_facts_words(
        rt,
        text,
        folder,
        facts,
        is_whole,
        lines.as_str(),
        &unread,
        counts,
    )
}

/// Appends the words on a folder that can't be read, for this reason: each place that can't be
/// read, and the words on what can. Of a list that has its name, what it is if it is none of
/// folders, and this wasn't said before.
pub(crate) fn push_unread_words(
    rt: &HostRuntime,
    text: &mut String,
    folder: &str,
    fault: TreeFault,
    wanted: Wanted,
    source: &mut Source,
) -> Result<(), AllocError> {
    if let Some(meaning) = unread(fault.number()) {
        let code = meaning.code;
        write!(text, "{code}: ")?;
        meaning.push(text)?;
        match source.names {
            Names::Given => push_given_fault(text, folder)?,
            Names::Listed => push_line_fault(text, folder, &mut source.kind)?,
            Names::Mistaken => {}
        }
        text.push('\n')?;
    }
    let Gathered { facts, places } = gather(rt, folder, wanted == Wanted::All)?;
    push_unread_places(text, folder, places.as_slice())?;
    let unread = UnreadPaths::of(rt.alloc(), places.as_slice())?;
    let counts = Counts {
        unread: places.len(),
        ..Counts::default()
    };
    match facts {
        Some(facts) => {
            let lines = lines_of(rt.alloc(), &facts, wanted)?;
            push_facts_words(
                rt,
                text,
                folder,
                &facts,
                false,
                lines.as_str(),
                &unread,
                counts,
            )
        }
        None => Ok(()),
    }
}

// Appends why a name that is an argument may be that of no folder.
fn push_given_fault(text: &mut String, folder: &str) -> Result<(), AllocError> {
    if folder.is_empty() {
        return text.push_str("; its name is empty");
    }
    if folder.ends_with('\r') {
        return text.push_str("; its name ends with a carriage return");
    }
    Ok(())
}

// Appends of which other kind the list is that has this name as a line, once; or else why the name
// may be that of no folder.
fn push_line_fault(
    text: &mut String,
    folder: &str,
    list: &mut Option<FileKind>,
) -> Result<(), AllocError> {
    let kind = kind_with(folder);
    match kind {
        // What is left of such a list at its end is a zero byte.
        None if *list == Some(FileKind::Utf16) => Ok(()),
        None => push_line_end(text, folder),
        _ if *list == kind => Ok(()),
        Some(found) => {
            *list = kind;
            text.push_str(said_of(found))
        }
    }
}

// Appends why a name may be that of no folder: it was read from a list with line ends of Windows,
// or with an empty line.
fn push_line_end(text: &mut String, folder: &str) -> Result<(), AllocError> {
    if folder.is_empty() {
        return text.push_str("; its name is empty, as that of an empty line of a list");
    }
    if folder.contains('\0') {
        return text.push_str("; its name has zero bytes: use --from0");
    }
    if folder.contains('\n') {
        return text.push_str("; its name has line ends: use --from");
    }
    if folder.starts_with('\u{feff}') {
        return text.push_str("; its name begins with a byte order mark: save the list without");
    }
    if folder.ends_with('\r') {
        return text.push_str(
            "; its name ends with a carriage return: a list has to have a line feed alone after \
            each name",
        );
    }
    if is_answer(folder) {
        return text.push_str(
            "; it ends as a line of `check --named` does, and a list has names alone",
        );
    }
    Ok(())
}

// Whether a name ends as a line with the answer of a check.
fn is_answer(name: &str) -> bool {
    let Some((front, last)) = name.rsplit_once(' ') else {
        return false;
    };
    match front.rsplit(' ').next() {
        Some("valid" | "complete") => last.len() == 128,
        Some("invalid" | "unread") => last.parse::<u8>().is_ok(),
        _ => false,
    }
}

// The lines of what is wrong, as far as it is wanted.
fn lines_of(alloc: Global, facts: &Facts, wanted: Wanted) -> Result<String, AllocError> {
    match wanted {
        Wanted::Nothing => Ok(String::new(alloc)),
        Wanted::Gaps => explain_gaps(alloc, facts),
        Wanted::All => explain(alloc, facts),
    }
}

fn push_facts_words<'a>(
    rt: &'a HostRuntime,
    text: &mut String,
    folder: &'a str,
    facts: &'a Facts,
    is_known_whole: bool,
    lines: &str,
    unread: &UnreadPaths<'_>,
    counts: Counts,
) -> Result<(), AllocError> {
    let files = FilesByPath::new(rt.alloc(), facts.files())?;
    let bag = Bag {
        rt,
        folder,
        facts,
        files: &files,
        is_known_whole,
    };
    push_bag_words(text, &bag, lines, unread, counts)
}

fn push_bag_words(
    text: &mut String,
    bag: &Bag<'_, '_>,
    lines: &str,
    unread: &UnreadPaths<'_>,
    counts: Counts,
) -> Result<(), AllocError> {
    let mut counts = counts;
    let findings = findings_in(bag.rt.alloc(), lines, unread)?;
    push_findings(text, bag, findings.as_slice(), &mut counts)?;
    push_rfc(text, bag, findings.as_slice())?;
    push_warnings(text, bag, &mut counts)?;
    push_counts(text, bag, &counts)
}

// Appends each place, those of a fault below what it says.
fn push_findings(
    text: &mut String,
    bag: &Bag<'_, '_>,
    findings: &[Finding<'_>],
    counts: &mut Counts,
) -> Result<(), AllocError> {
    let near = NearNames::of(bag, findings)?;
    let mut texts = TextLines::new(bag);
    let mut number = 0;
    for finding in findings {
        if finding.number != number {
            number = finding.number;
            push_heading(text, number)?;
            counts.faults = counts.faults.saturating_add(1);
        }
        push_place(text, bag, &near, &mut texts, finding)?;
        counts.places = counts.places.saturating_add(1);
    }
    Ok(())
}

fn push_heading(text: &mut String, number: u8) -> Result<(), AllocError> {
    let Some(meaning) = invalid(number) else {
        return Ok(());
    };
    let code = meaning.code;
    write!(text, "{code}: ")?;
    meaning.push(text)?;
    text.push('\n')
}

fn push_warnings(
    text: &mut String,
    bag: &Bag<'_, '_>,
    counts: &mut Counts,
) -> Result<(), AllocError> {
    push_oxum(text, bag, counts)?;
    push_twins(text, bag, counts)?;
    push_empty_folders(text, bag, counts)?;
    push_tag_files(text, bag, counts)
}
