//! Why a site isn't well, and why a file can't be used.

use crate::arguments::StatusTask;
use crate::files::push_file;
use code_words::{LineSpeaker, meaning_of_line, push_name, say_text};
use file_words::{first_piped, push_empty, push_file_words, push_gone, push_source_name};
use site_client::members_at;
use std::alloc::AllocError;

/// What says the lines of sites.
#[derive(Clone, Copy)]
pub(crate) struct StandingSpeaker<'a> {
    rt: &'a HostRuntime,
    /// The path of the members file.
    members: &'a str,
    /// The paths of cells and lists.
    files: &'a [&'a str],
    /// How many milliseconds an answer may take.
    wait: u32,
    /// Whether they are asked again and again.
    watches: bool,
}

impl<'a> StandingSpeaker<'a> {
    /// What says them, if words are asked for.
    pub(crate) fn if_asked(
        rt: &'a HostRuntime,
        task: &'a StatusTask<'a>,
    ) -> Option<StandingSpeaker<'a>> {
        if !task.words {
            return None;
        }
        Some(StandingSpeaker {
            rt,
            members: task.members,
            files: task.files.as_slice(),
            wait: task.wait,
            watches: task.watch.is_some(),
        })
    }

    fn words_of(&self, line: &str) -> Result<String, AllocError> {
        let mut text = String::new(self.rt.alloc());
        let words = line.split(' ').collect::<Vec<&str>>(self.rt.alloc())?;
        match words.as_slice() {
            ["site", site, "silent"] => self.push_silent(&mut text, site)?,
            [
                "site",
                site,
                "up",
                _,
                _,
                _,
                _,
                _,
                _,
                pending,
                _,
                alone,
                _,
                lacks,
            ] => {
                self.push_up(&mut text, site, pending, alone, lacks)?;
            }
            ["federation", ..] => push_empty(self.rt, &mut text, self.files)?,
            ["memory"] => self.push_code(&mut text, line)?,
            ["open", "1"] => self.push_foreign(&mut text, line)?,
            ["open", "4"] => self.push_unread(&mut text, line)?,
            _ => self.push_file(&mut text, line)?,
        }
        Ok(text)
    }

    fn push_silent(&self, text: &mut String, site: &str) -> Result<(), AllocError> {
        let wait = self.wait;
        write!(
            text,
            "site {site}: three questions had no answer in {wait} ms each: start it, with \
            --existing, if it is down; or it is reading a large bag, or hasn't ended its first \
            turn; or its members file is of another federation, or it has another key, or only one \
            of the two has a key; or its program is older"
        )
    }

    // Appends what isn't well with a site that answers.
    fn push_up(
        &self,
        text: &mut String,
        site: &str,
        pending: &str,
        alone: &str,
        lacks: &str,
    ) -> Result<(), AllocError> {
        if pending != "0" && alone != "0" {
            write!(
                text,
                "site {site}: it has heard no majority for {alone} ms, and of its deposits this \
                many wait for one: {pending}; sites with more than half of all weight have to run \
                and to hear each other"
            )?;
        }
        if lacks != "0" {
            if !text.is_empty() {
                text.push('\n')?;
            }
            write!(
                text,
                "site {site}: bags that are known elsewhere, and not to it: {lacks}; if that lasts, \
                and its cell has all that older lists of it have, `bagpaxos catch-up --members "
            )?;
            push_name(text, self.members)?;
            write!(
                text,
                " --to {site}` with a list of `ledger` or a cell of another site brings it up to date"
            )?;
        }
        Ok(())
    }

    // Appends which file can't be read, or can't be read each time.
    fn push_unread(&self, text: &mut String, line: &str) -> Result<(), AllocError> {
        if self.watches {
            if let Some(path) = first_piped(self.rt, self.files) {
                push_source_name(text, path)?;
                return text.push_str(
                    " comes through a pipe, and --watch reads it each time: give a file",
                );
            }
        }
        self.push_file(text, line)
    }

    // Appends what a line says of the first file that can't be used, if one can't. What came
    // through a pipe isn't looked at again: it is gone.
    fn push_file(&self, text: &mut String, line: &str) -> Result<(), AllocError> {
        let Some(meaning) = meaning_of_line(self.rt.alloc(), line)? else {
            return Ok(());
        };
        for path in self.files {
            if first_piped(self.rt, &[*path]).is_some() {
                continue;
            }
            let bags = &mut Vec::new(self.rt.alloc());
            if push_file(self.rt, bags, path).is_err() {
                return push_file_words(self.rt, text, path, line);
            }
        }
        match first_piped(self.rt, self.files) {
            Some(path) => {
                meaning.push(text)?;
                text.push_str("; ")?;
                push_gone(text, path)
            }
            None => Ok(()),
        }
    }

    // Appends which cell is of another federation than the members file.
    fn push_foreign(&self, text: &mut String, line: &str) -> Result<(), AllocError> {
        let Ok(members) = members_at(self.rt, self.members) else {
            return self.push_code(text, line);
        };
        let number = members.members().federation();
        for path in self.files {
            if first_piped(self.rt, &[*path]).is_some() {
                continue;
            }
            let bags = &mut Vec::new(self.rt.alloc());
            match push_file(self.rt, bags, path) {
                Ok(Some(federation)) if federation != number => {
                    return push_file_words(self.rt, text, path, line);
                }
                _ => {}
            }
        }
        self.push_code(text, line)
    }

    fn push_code(&self, text: &mut String, line: &str) -> Result<(), AllocError> {
        match meaning_of_line(self.rt.alloc(), line)? {
            Some(meaning) => meaning.push(text),
            None => Ok(()),
        }
    }
}

impl LineSpeaker for StandingSpeaker<'_> {
    fn say(&mut self, line: &str) {
        say_text(self.rt, self.words_of(line));
    }
}
