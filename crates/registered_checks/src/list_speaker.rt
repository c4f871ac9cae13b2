//! Why a list or a cell can't be compared with.

use code_words::{LineSpeaker, meaning_of_line, say_text};
use file_words::push_file_words;
use std::alloc::AllocError;

/// What says the line of a list or cell that can't be used, and that memory ran out. The lines of
/// folders are said elsewhere.
#[derive(Clone, Copy)]
pub(crate) struct ListSpeaker<'a> {
    rt: &'a HostRuntime,
    /// The path of the list or cell.
    list: &'a str,
}

impl<'a> ListSpeaker<'a> {
    /// What says it, if words are asked for.
    pub(crate) fn if_asked(
        rt: &'a HostRuntime,
        words: bool,
        list: &'a str,
    ) -> Option<ListSpeaker<'a>> {
        if words {
            Some(ListSpeaker { rt, list })
        } else {
            None
        }
    }

    fn words_of(&self, line: &str) -> Result<String, AllocError> {
        let mut text = String::new(self.rt.alloc());
        let words = line.split(' ').collect::<Vec<&str>>(self.rt.alloc())?;
        match words.as_slice() {
            ["open", "4"] | ["damaged", _] | ["ledger", "line", _] => {
                push_file_words(self.rt, &mut text, self.list, line)?;
            }
            // It may have run out for the folders, too, so the list isn't named.
            ["memory"] => {
                if let Some(meaning) = meaning_of_line(self.rt.alloc(), line)? {
                    meaning.push(&mut text)?;
                }
            }
            _ => {}
        }
        Ok(text)
    }
}

impl LineSpeaker for ListSpeaker<'_> {
    fn say(&mut self, line: &str) {
        say_text(self.rt, self.words_of(line));
    }
}
