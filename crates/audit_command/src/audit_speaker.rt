//! What an audit's lines say, in words.

use crate::arguments::AuditTask;
use crate::conflict_cells::{Conflict, push_names};
use crate::foreign_cell::{foreign_at, push_foreign};
use code_words::{LineSpeaker, OTHERS, push_name, say_text};
use file_words::push_other_file;
use ledger::LiveCell;
use std::alloc::AllocError;
use tokens::push_escaped;

/// Of so many conflicts the cells are named. Each time all cells are read once more, and whoever
/// hands in a cell chooses how many conflicts there are.
const MOST_NAMED: u32 = 20;

/// What says an audit's lines.
#[derive(Drop)]
pub(crate) struct AuditSpeaker<'a> {
    rt: &'a HostRuntime,
    /// The path of the members file.
    members: &'a str,
    /// The paths of the cells of which something may be counted.
    cells: Vec<&'a str>,
    /// How many conflicts were said.
    conflicts: u32,
}

impl<'a> AuditSpeaker<'a> {
    /// What says them, if words are asked for, and there is memory for them.
    pub(crate) fn if_asked(rt: &'a HostRuntime, task: &AuditTask<'a>) -> Option<AuditSpeaker<'a>> {
        let mut cells = Vec::new(rt.alloc());
        if !task.words || cells.extend_from_slice(task.cells.as_slice()).is_err() {
            return None;
        }
        Some(AuditSpeaker {
            rt,
            members: task.members,
            cells,
            conflicts: 0,
        })
    }

    fn words_of(&mut self, line: &str) -> Result<String, AllocError> {
        let mut text = String::new(self.rt.alloc());
        let words = line.split(' ').collect::<Vec<&str>>(self.rt.alloc())?;
        match words.as_slice() {
            ["unread", cell] => self.push_unread(&mut text, cell)?,
            ["foreign", cell] => {
                self.push_foreign(&mut text, cell)?;
                self.leave_out(cell)?;
            }
            ["damaged", cell, _] => {
                push_code(&mut text, self.path_of(cell)?, "damaged CELL OFFSET")?;
            }
            ["conflict", object, version, one, other] => {
                let conflict = Conflict {
                    object,
                    version,
                    one,
                    other,
                };
                self.push_conflict(&mut text, &conflict)?;
            }
            _ => {}
        }
        Ok(text)
    }

    // Appends which cells name the bags of a conflict, or, where there were too many before, that
    // none are named.
    fn push_conflict(
        &mut self,
        text: &mut String,
        conflict: &Conflict<'_>,
    ) -> Result<(), AllocError> {
        let before = self.conflicts;
        self.conflicts = before.saturating_add(1);
        if before < MOST_NAMED {
            return push_names(self.rt, text, self.cells.as_slice(), conflict);
        }
        if before == MOST_NAMED {
            let most = MOST_NAMED;
            write!(
                text,
                "cells are named for the first {most} conflicts alone; `bagpaxos journal` lists \
                the records of a cell"
            )?;
        }
        Ok(())
    }

    // Appends why nothing of a cell is counted, where its opening has said nothing of that.
    fn push_unread(&mut self, text: &mut String, cell: &str) -> Result<(), AllocError> {
        if let Some(path) = self.path_of(cell)? {
            if LiveCell::open(self.rt, path).is_ok() {
                push_code(text, Some(path), "unread CELL")?;
                push_other_file(self.rt, text, path)?;
            }
        }
        self.leave_out(cell)
    }

    // Appends why a cell isn't counted that was made with other members. What came through a pipe
    // is gone, and so no more is said of it.
    fn push_foreign(&self, text: &mut String, cell: &str) -> Result<(), AllocError> {
        let path = self.path_of(cell)?;
        if let Some(path) = path {
            if let Some(foreign) = foreign_at(self.rt, self.members, path)? {
                push_name(text, path)?;
                text.push_str(": ")?;
                return push_foreign(text, &foreign);
            }
        }
        push_code(text, path, "foreign CELL")
    }

    // The path of the cell that a line names.
    fn path_of(&self, cell: &str) -> Result<Option<&'a str>, AllocError> {
        for path in &self.cells {
            let mut escaped = String::new(self.rt.alloc());
            push_escaped(&mut escaped, path)?;
            if escaped.as_str() == cell {
                return Ok(Some(path));
            }
        }
        Ok(None)
    }

    // Nothing of the cell that a line names is counted.
    fn leave_out(&mut self, cell: &str) -> Result<(), AllocError> {
        let path = self.path_of(cell)?;
        let mut left = Vec::new(self.rt.alloc());
        for other in &self.cells {
            if Some(*other) != path {
                left.push(*other)?;
            }
        }
        self.cells = left;
        Ok(())
    }
}

impl LineSpeaker for AuditSpeaker<'_> {
    fn say(&mut self, line: &str) {
        let words = self.words_of(line);
        say_text(self.rt, words);
    }
}

// Appends what a code says of the cell of this path.
fn push_code(text: &mut String, path: Option<&str>, code: &str) -> Result<(), AllocError> {
    let Some(path) = path else {
        return Ok(());
    };
    let Some(meaning) = OTHERS.iter().find(|m| m.code == code) else {
        return Ok(());
    };
    push_name(text, path)?;
    text.push_str(": ")?;
    meaning.push(text)
}
