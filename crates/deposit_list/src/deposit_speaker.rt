//! What is said of deposits that didn't come to what was to come of them, and of a list that can't
//! be used.

use crate::arguments::DepositsTask;
use crate::line_fault::push_line_fault;
use crate::listed_path::path_in;
use code_words::{LineSpeaker, meaning_of_line, push_deposited, push_error, push_name, say_text};
use std::alloc::AllocError;
use std::fs::{self, File};

/// What says the lines of deposits.
#[derive(Clone, Copy)]
pub(crate) struct DepositSpeaker<'a> {
    rt: &'a HostRuntime,
    task: &'a DepositsTask<'a>,
    /// The list; empty if it can't be read.
    list: &'a [u8],
}

impl<'a> DepositSpeaker<'a> {
    /// What says them, if words are asked for.
    pub(crate) fn if_asked(
        rt: &'a HostRuntime,
        task: &'a DepositsTask<'a>,
        list: &'a [u8],
    ) -> Option<DepositSpeaker<'a>> {
        if task.words {
            Some(DepositSpeaker { rt, task, list })
        } else {
            None
        }
    }

    fn words_of(&self, line: &str) -> Result<String, AllocError> {
        let mut text = String::new(self.rt.alloc());
        let words = line.split(' ').collect::<Vec<&str>>(self.rt.alloc())?;
        match words.as_slice() {
            ["refused", _, code, object, version] => {
                self.push_refused(&mut text, code, object, version)?;
            }
            ["registered", _, object, version, _] => {
                self.push_in_vain(&mut text, object, version)?;
            }
            ["open", object, version] => self.push_open(&mut text, object, version)?,
            ["other", object, version, _, _] => push_other(&mut text, object, version)?,
            ["deposits", "line", number] => self.push_line(&mut text, number)?,
            ["deposits", "unread"] => self.push_unread(&mut text)?,
            _ => self.push_code(&mut text, line)?,
        }
        Ok(text)
    }

    // Appends why the site has refused a deposit.
    fn push_refused(
        &self,
        text: &mut String,
        code: &str,
        object: &str,
        version: &str,
    ) -> Result<(), AllocError> {
        let site = self.task.to.number();
        let line = format!(in self.rt.alloc(); "refused {site} {code}")?;
        let Some(meaning) = meaning_of_line(self.rt.alloc(), line.as_str())? else {
            return Ok(());
        };
        push_slot(text, object, version)?;
        if meaning.code.starts_with("refused ") {
            return meaning.push(text);
        }
        self.push_folder(text, object, version)?;
        meaning.push(text)?;
        if meaning.code == "unread 4" {
            text.push_str(
                "; or it has more bytes than the site takes, by its option --most-bytes",
            )?;
        }
        text.push_str("; `bagpaxos check --words` of that folder says where")
    }

    // Appends the folder that the list has for a version, and who reads it.
    fn push_folder(
        &self,
        text: &mut String,
        object: &str,
        version: &str,
    ) -> Result<(), AllocError> {
        let Some(path) = path_in(self.rt.alloc(), self.list, object, version)? else {
            return Ok(());
        };
        push_deposited(text, self.task.to.number(), path.as_str())
    }

    // Appends why a bag that is registered may not be known, if it was waited for.
    fn push_in_vain(
        &self,
        text: &mut String,
        object: &str,
        version: &str,
    ) -> Result<(), AllocError> {
        let Some(seconds) = self.task.until_known else {
            return Ok(());
        };
        let site = self.task.to.number();
        push_slot(text, object, version)?;
        write!(
            text,
            "site {site} has registered it, and no bag was known after {seconds} s: sites with \
            more than half of all weight have to run and to hear each other; its log says since \
            when it heard no majority"
        )
    }

    // Appends why the answer to a deposit may be missing.
    fn push_open(&self, text: &mut String, object: &str, version: &str) -> Result<(), AllocError> {
        let site = self.task.to.number();
        let wait = self.task.wait;
        push_slot(text, object, version)?;
        write!(
            text,
            "site {site} didn't say in {wait} ms that it has registered the bag: it is down, or \
            takes longer to read the bag; send the same list again, and give --wait more; or its \
            members file is of another federation, or it has another key, or only one of the two \
            has a key: `bagpaxos members` and `bagpaxos members --key` say which they are"
        )
    }

    // Appends what is wrong with the line of this number.
    fn push_line(&self, text: &mut String, number: &str) -> Result<(), AllocError> {
        self.push_list(text)?;
        write!(text, ", line {number}: ")?;
        let number = number.parse::<usize>().unwrap_or(1);
        push_line_fault(self.rt.alloc(), text, self.list, number)
    }

    // Appends why the list can't be read.
    fn push_unread(&self, text: &mut String) -> Result<(), AllocError> {
        self.push_list(text)?;
        if self.task.file == "-" {
            return text.push_str(" can't be read");
        }
        match fs::metadata(self.rt, self.task.file) {
            Ok(found) if found.is_dir() => return text.push_str(
                " is a folder, and a list is a file",
            ),
            _ => {}
        }
        match File::open(self.rt, self.task.file) {
            Ok(_) => text.push_str(" can't be read to its end"),
            Err(error) => push_error(self.rt, text, self.task.file, &error),
        }
    }

    // Appends the name of the list.
    fn push_list(&self, text: &mut String) -> Result<(), AllocError> {
        if self.task.file == "-" {
            text.push_str("standard input")
        } else {
            push_name(text, self.task.file)
        }
    }

    // Appends what a line of another kind says, if it has a code.
    fn push_code(&self, text: &mut String, line: &str) -> Result<(), AllocError> {
        match meaning_of_line(self.rt.alloc(), line)? {
            Some(meaning) => meaning.push(text),
            None => Ok(()),
        }
    }
}

impl LineSpeaker for DepositSpeaker<'_> {
    fn say(&mut self, line: &str) {
        say_text(self.rt, self.words_of(line));
    }
}

// Appends what to do where another bag is known.
fn push_other(text: &mut String, object: &str, version: &str) -> Result<(), AllocError> {
    push_slot(text, object, version)?;
    text.push_str("another bag is known as this version; deposit yours as another version")
}

// Appends the version, and a colon.
fn push_slot(text: &mut String, object: &str, version: &str) -> Result<(), AllocError> {
    push_name(text, object)?;
    write!(text, " {version}: ")
}
