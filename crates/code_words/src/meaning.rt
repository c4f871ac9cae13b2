//! What a code says.

ghost use Rattle.std.specs.Prelude.{◌≡◌, ◌++◌, OnOk, string_bytes};
ghost use Rattle.code_words.specs.Meanings.{advice_text, sentence};

use std::alloc::AllocError;

/// A code, what it says, and what to do about it.
#[derive(Clone, Copy, Debug, PartialEq, Eq)]
pub struct Meaning {
    /// The code as it is printed, with a capital for what is filled in, as `schedule line N`.
    pub code: &'static str,
    /// What is so.
    pub words: &'static str,
    /// What to do about it; empty where nothing is to be done.
    pub advice: &'static str,
}

impl Meaning {
    /// Appends what it says and what to do, as a sentence without its end.
    #[tactic(auto, using(std::proofs::Common::append_assoc))]
    pub fn push(&self, text: &mut String) -> Result<(), AllocError>
        ensures { OnOk result (string_bytes text.new ≡ string_bytes text.old ++ sentence self.now) }
    {
        text.push_str(self.words)?;
        self.push_advice(text)
    }

    /// Appends a semicolon and what to do, where something is.
    #[tactic(auto, using(std::proofs::Common::append_assoc))]
    pub fn push_advice(&self, text: &mut String) -> Result<(), AllocError>
        ensures { OnOk result
            (string_bytes text.new ≡ string_bytes text.old ++ advice_text self.now) }
    {
        if self.advice.is_empty() {
            return Ok(());
        }
        text.push_str("; ")?;
        text.push_str(self.advice)
    }
}
