//! What is said of a version that the site doesn't know as a file does, and of a file that can't be
//! used.

use crate::arguments::CatchUpTask;
use code_words::{LineSpeaker, meaning_of_line, push_name, say_text};
use file_words::{first_piped, push_empty, push_file_words, push_gone};
use known_bags::{DiskSources, push_source};
use std::alloc::AllocError;

/// What says the lines of versions.
#[derive(Clone, Copy)]
pub(crate) struct VersionSpeaker<'a> {
    rt: &'a HostRuntime,
    /// The paths of cells and lists.
    files: &'a [&'a str],
    /// The number of the site that is asked.
    site: u8,
    /// For how many seconds it is asked.
    seconds: u32,
}

impl<'a> VersionSpeaker<'a> {
    /// What says them, if words are asked for.
    pub(crate) fn if_asked(
        rt: &'a HostRuntime,
        task: &'a CatchUpTask<'a>,
    ) -> Option<VersionSpeaker<'a>> {
        if !task.words {
            return None;
        }
        Some(VersionSpeaker {
            rt,
            files: task.files.as_slice(),
            site: task.to.number(),
            seconds: task.seconds,
        })
    }

    fn words_of(&self, line: &str) -> Result<String, AllocError> {
        let mut text = String::new(self.rt.alloc());
        let words = line.split(' ').collect::<Vec<&str>>(self.rt.alloc())?;
        match words.as_slice() {
            ["other", object, version, ..] => {
                self.push_other(&mut text, object, version)?;
            }
            ["open", object, version] => self.push_open(&mut text, object, version)?,
            ["0", "of", "0"] => self.push_none(&mut text)?,
            ["memory"] => push_code(self.rt, &mut text, line)?,
            _ => self.push_file(&mut text, line)?,
        }
        Ok(text)
    }

    // Appends that there was nothing to ask for.
    fn push_none(&self, text: &mut String) -> Result<(), AllocError> {
        text.push_str("no file knows a bag, so nobody was asked")?;
        push_empty(self.rt, text, self.files)
    }

    // Appends what a line says of the first file that can't be used, if one can't. What came
    // through a pipe isn't looked at again: it is gone.
    fn push_file(&self, text: &mut String, line: &str) -> Result<(), AllocError> {
        let Some(meaning) = meaning_of_line(self.rt.alloc(), line)? else {
            return Ok(());
        };
        for path in self.files {
            if first_piped(self.rt, &[*path]).is_some() {
                continue;
            }
            let bags = &mut Vec::new(self.rt.alloc());
            if push_source(self.rt.alloc(), &DiskSources { rt: self.rt }, bags, path).is_err() {
                return push_file_words(self.rt, text, path, line);
            }
        }
        match first_piped(self.rt, self.files) {
            Some(path) => {
                meaning.push(text)?;
                text.push_str("; ")?;
                push_gone(text, path)
            }
            None => Ok(()),
        }
    }

    fn push_other(&self, text: &mut String, object: &str, version: &str) -> Result<(), AllocError> {
        let site = self.site;
        push_slot(text, object, version)?;
        write!(
            text,
            "site {site} knows the first bag and the file the second: a cell was lost, replaced or \
            altered, or the file is of another federation; audit the cells, as docs/AUDIT.md says"
        )
    }

    fn push_open(&self, text: &mut String, object: &str, version: &str) -> Result<(), AllocError> {
        let site = self.site;
        let seconds = self.seconds;
        push_slot(text, object, version)?;
        write!(
            text,
            "site {site} named no bag, though it was asked for {seconds} s or longer: it is down, \
            doesn't hear sites with more than half of all weight, or has other keys, or the file \
            is of another federation; see whether the sites run, and give --for more"
        )
    }
}

impl LineSpeaker for VersionSpeaker<'_> {
    fn say(&mut self, line: &str) {
        say_text(self.rt, self.words_of(line));
    }
}

// Appends the version, and a colon.
fn push_slot(text: &mut String, object: &str, version: &str) -> Result<(), AllocError> {
    push_name(text, object)?;
    write!(text, " {version}: ")
}

fn push_code(rt: &HostRuntime, text: &mut String, line: &str) -> Result<(), AllocError> {
    match meaning_of_line(rt.alloc(), line)? {
        Some(meaning) => meaning.push(text),
        None => Ok(()),
    }
}
