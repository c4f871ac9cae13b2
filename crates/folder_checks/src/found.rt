//! What a check of a folder found.

ghost use Rattle.std.specs.Prelude.{◌≡◌, ℕ, List, Ok, Option, None, option_map};
ghost use Rattle.std.specs.Prelude.{IfOk, IfSome, string_bytes, option_copied};
ghost use Rattle.folder_checks.specs.Explanations.{lines_by, unread_line};
ghost use Rattle.folder_checks.specs.declared.verdict.Verdict.TheVariants.{Unread};
ghost use Rattle.folder_checks.specs.Names.{read_of, place_of};
ghost use Rattle.folder_checks.specs.Json.{IsFound, asked_lines};

use crate::explanation::{explain_by, place_line};
use crate::measure::{Measure, Measured};
use crate::report::{Detail, Report};
use crate::verdict::{Verdict, verdict_of};
use bag_folders::Folders;
use bag_tree::{Algorithms, Facts, TreeFault};
use std::alloc::{AllocError, Global};
use std::str;

/// What a check of a folder found.
#[derive(Drop)]
pub(crate) struct Found {
    pub verdict: Verdict,
    /// How many files there are, if they were read.
    pub files: Option<u64>,
    pub measure: Measure,
    /// The lines that explain the verdict, if they are asked for.
    pub lines: Option<String>,
}

/// What a check of the folder of this name finds. A name that isn't UTF-8 is that of a folder that
/// can't be listed.
pub(crate) fn found_by_name<F: Folders + Measured>(
    alloc: Global,
    folders: &mut F,
    name: &[u8],
    report: Report,
) -> Result<Found, AllocError>
    ensures ok { IfOk result (λ found. IfSome (F.gives folders.old) (λ gives.
        IsFound report (read_of gives name.now) (place_of (F.fails_at folders.old) name.now)
        found.verdict found.files (option_map string_bytes found.lines))) }
    ensures kept { F.gives folders.new ≡ F.gives folders.old }
    ensures place { F.fails_at folders.new ≡ F.fails_at folders.old }
{
    match str::from_utf8(name) {
        Ok(path) => found_at(alloc, folders, path, report),
        Err(_) => unread_found(
            alloc,
            TreeFault::Listing,
            Some("."),
            Measure::unknown(),
            report,
        ),
    }
}

// What a check of the folder of this path finds.
fn found_at<F: Folders + Measured>(
    alloc: Global,
    folders: &mut F,
    path: &str,
    report: Report,
) -> Result<Found, AllocError>
    ensures ok { IfOk result (λ found. IfSome (F.gives folders.old) (λ gives.
        IsFound report (gives path.now) (F.fails_at folders.old)
        found.verdict found.files (option_map string_bytes found.lines))) }
    ensures kept { F.gives folders.new ≡ F.gives folders.old }
    ensures place { F.fails_at folders.new ≡ F.fails_at folders.old }
{
    match folders.read(path) {
        Ok(mut facts) => {
            prepare(&mut facts, report);
            read_found(alloc, &facts, folders.measure(), report)
        }
        Err(fault) => {
            let measure = folders.measure();
            unread_found(alloc, fault, folders.failed_at(), measure, report)
        }
    }
}

// Computes the digests of the texts, if all that is wrong is asked for: a text may be listed astray
// as often as an adversary likes.
fn prepare(facts: &mut Facts, report: Report)
    ensures { facts.new ≡ facts.old }
{
    if report.detail == Detail::Explained {
        facts.compute_digests(Algorithms::all());
    }
}

// What a check of a tree of these facts finds.
fn read_found(
    alloc: Global,
    facts: &Facts,
    measure: Measure,
    report: Report,
) -> Result<Found, AllocError>
    ensures { IfOk result (λ found. (known : Option (List ℕ)) → IsFound report (Ok facts.now) known
        found.verdict found.files (option_map string_bytes found.lines)) }
{
    let lines = explained(alloc, facts, report)?;
    Ok(Found {
        verdict: verdict_of(alloc, facts, report.question),
        files: Some(facts.files().len() as u64),
        measure,
        lines,
    })
}

// The lines of what is wrong, if they are asked for.
fn explained(alloc: Global, facts: &Facts, report: Report) -> Result<Option<String>, AllocError>
    ensures { IfOk result (λ lines.
        option_map string_bytes lines ≡ asked_lines report (lines_by report.question facts.now)) }
{
    match report.detail {
        Detail::Brief => Ok(None),
        Detail::Explained => Ok(Some(explain_by(alloc, facts, report.question)?)),
    }
}

// What is found of a folder that can't be read.
fn unread_found(
    alloc: Global,
    fault: TreeFault,
    place: Option<&str>,
    measure: Measure,
    report: Report,
) -> Result<Found, AllocError>
    ensures { IfOk result (λ found. (found.verdict ≡ Unread fault) × (found.files ≡ None)
        × (option_map string_bytes found.lines
        ≡ asked_lines report (unread_line fault (option_copied place.entry)))) }
{
    let lines = match report.detail {
        Detail::Brief => None,
        Detail::Explained => Some(place_line(alloc, fault, place)?),
    };
    Ok(Found {
        verdict: Verdict::Unread(fault),
        files: None,
        measure,
        lines,
    })
}
