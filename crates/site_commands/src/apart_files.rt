//! Options that have to name different files.

use code_words::push_name;
use site_client::Stop;
use std::alloc::AllocError;
use system_files::is_same_file;

/// An option, and the path that it names.
#[derive(Clone, Copy)]
pub(crate) struct NamedFile<'a> {
    pub(crate) option: &'static str,
    pub(crate) path: &'a str,
}

/// Refuses two options that name one file, over links too, before either is written. Standard error
/// says which they are.
pub(crate) fn expect_apart(
    rt: &HostRuntime,
    one: NamedFile<'_>,
    other: NamedFile<'_>,
) -> Result<(), Stop> {
    match is_same_file(rt, one.path, other.path) {
        Ok(false) => Ok(()),
        Ok(true) => {
            say(rt, one, other);
            Err(Stop::SameFile)
        }
        Err(AllocError) => Err(Stop::Memory),
    }
}

/// What standard output and standard error are.
pub(crate) const OUTPUT: &str = "/proc/self/fd/1";

pub(crate) const ERRORS: &str = "/proc/self/fd/2";

/// Says on standard error that standard output is the cell of this path.
pub(crate) fn say_output(rt: &HostRuntime, cell: &str) {
    let mut name = String::new(rt.alloc());
    if push_name(&mut name, cell).is_ok() {
        let _ = eprintln!(rt; "bagpaxos: standard output is the cell {name}: send it elsewhere");
    }
}

// Where there is no memory for the words, or no standard error, nobody is told.
fn say(rt: &HostRuntime, one: NamedFile<'_>, other: NamedFile<'_>) {
    if let Ok(text) = same_file_text(rt, one, other) {
        let _ = rt.eprintln(text.as_str());
    }
}

fn same_file_text(
    rt: &HostRuntime,
    one: NamedFile<'_>,
    other: NamedFile<'_>,
) -> Result<String, AllocError> {
    let mut text = String::from_str(rt.alloc(), "bagpaxos: ")?;
    push_named(&mut text, one)?;
    text.push_str(" and ")?;
    push_named(&mut text, other)?;
    text.push_str(" are one file; give each a file of its own")?;
    Ok(text)
}

fn push_named(text: &mut String, file: NamedFile<'_>) -> Result<(), AllocError> {
    text.push_str(file.option)?;
    text.push(' ')?;
    push_name(text, file.path)
}
