//! What is said after a check.

ghost use Rattle.std.specs.Prelude.{string_bytes};
ghost use Rattle.registered_checks.specs.Checks.{IsSaid};

use bag_folders::Folders;
use bag_words::SpokenFolders;
use counted_writes::CountedWrite;
use outcomes::ProgramOutput;

/// Folders that may have something left to say once they are checked.
pub trait Says {
    /// Says it.
    fn say(&mut self);
}

impl<F: Folders> Says for SpokenFolders<'_, F> {
    fn say(&mut self) {
        SpokenFolders::say(self);
    }
}

/// Says the comparison. The status is the answer's, but 1 if not all of it can be written. If there
/// is nothing to say, nothing is written.
pub fn say_on<W: CountedWrite>(answer: &ProgramOutput, output: &mut W) -> u8
    ensures { IsSaid (W.contents output.old) (W.contents output.new) (W.failures output.old)
        (W.failures output.new) answer.now.status result (string_bytes answer.now.text) }
{
    let text = answer.text.as_bytes();
    if text.is_empty() {
        return answer.status;
    }
    match output.write_whole(text) {
        Ok(()) => answer.status,
        Err(_) => 1,
    }
}
