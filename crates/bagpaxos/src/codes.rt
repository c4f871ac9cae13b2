//! The help on what the program prints by a number or a word.

use crate::narrow_table::push_table;
use outcomes::{ProgramFault, write_output};
use std::alloc::AllocError;
use std::io;

/// Whether these words, of which the first is the program's own name, are `help codes`, and maybe a
/// code.
pub fn ask_for_codes(words: &[String]) -> bool {
    match words {
        [_, help, codes, ..] => {
            help.as_str() == "help" && matches!(codes.as_str(), "codes" | "code")
        }
        _ => false,
    }
}

/// Prints each code, what it says and what to do.
pub fn print_codes(rt: &HostRuntime) -> Result<u8, ProgramFault> {
    let mut output = io::writer(rt);
    let mut text = String::new(rt.alloc());
    match push_table(&mut text) {
        Ok(()) => write_output(&mut output, 0, text.as_str()),
        Err(AllocError) => write_output(&mut output, 1, "memory\n"),
    }
}
