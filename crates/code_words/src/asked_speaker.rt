//! What says the lines of `site` and `send`.

ghost use Rattle.std.specs.Prelude.{◌≡◌, Some, None, if◌then◌else◌};

use crate::asked::Asked;
use crate::line_reason::push_reason;
use crate::line_speaker::{LineSpeaker, say_text};
use std::alloc::AllocError;

/// What says the lines of a command that was asked this.
#[derive(Clone, Copy)]
pub struct AskedSpeaker<'a> {
    rt: &'a HostRuntime,
    asked: Asked<'a>,
}

impl<'a> AskedSpeaker<'a> {
    /// What speaks of what was asked, if words are asked for.
    pub fn if_asked(rt: &'a HostRuntime, words: bool, asked: Asked<'a>) -> Option<AskedSpeaker<'a>>
        ensures { result
            ≡ if words then Some (record { rt = rt.entry; asked = asked.entry }) else None }
    {
        if words {
            Some(AskedSpeaker { rt, asked })
        } else {
            None
        }
    }

    fn words_of(&self, line: &str) -> Result<String, AllocError> {
        let mut text = String::new(self.rt.alloc());
        push_reason(self.rt, &mut text, &self.asked, line)?;
        Ok(text)
    }
}

impl LineSpeaker for AskedSpeaker<'_> {
    fn say(&mut self, line: &str) {
        say_text(self.rt, self.words_of(line));
    }
}
