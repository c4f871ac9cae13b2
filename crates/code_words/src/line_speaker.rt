//! What says lines in words.

use std::alloc::AllocError;

/// What says lines in words, on standard error.
pub trait LineSpeaker {
    /// Says what this line says, which has no end. If there is nothing to say, or memory or
    /// standard error fails, it says nothing.
    fn say(&mut self, line: &str);
}

/// Says this text as a line, if it isn't empty, and there was memory for it.
pub fn say_text(rt: &HostRuntime, text: Result<String, AllocError>) {
    if let Ok(text) = text {
        if !text.is_empty() {
            let _ = rt.eprintln(text.as_str());
        }
    }
}
