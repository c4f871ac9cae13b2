//! The command `journal`: over the file of a cell.

use crate::journal::journal_on;
use crate::journal_arguments::JournalTask;
use code_words::SpokenLines;
use file_words::{FileSpeaker, say_if_empty};
use json_lines::JsonLines;
use ledger::LiveCell;
use outcomes::{ProgramFault, write_output};
use std::io;
use std::io::{ErrorKind, Write};

const UNREAD: &str = "open 4\n";

/// Prints what the cell says, to standard output; if it can't be read, `open 4`, as `site` does. In
/// words, if they are asked for, standard error says what is amiss.
pub fn print_journal(rt: &HostRuntime, task: &JournalTask<'_>) -> Result<u8, ProgramFault> {
    let speaker = FileSpeaker::if_asked(rt, task.words, task.cell);
    let output = JsonLines::new(rt.alloc(), task.json, io::writer(rt));
    let mut output = SpokenLines::new(rt.alloc(), speaker, output);
    match LiveCell::open(rt, task.cell) {
        Ok(mut cell) => match journal_on(rt.alloc(), &mut cell, &mut output) {
            Err(ProgramFault::Input) => write_output(&mut output, 1, UNREAD),
            answer => {
                say_if_empty(rt, task.words, task.cell);
                answer
            }
        },
        Err(error) if error.kind() == ErrorKind::OutOfMemory => {
            write_output(&mut output, 1, "memory\n")
        }
        Err(_) => write_output(&mut output, 1, UNREAD),
    }
}
