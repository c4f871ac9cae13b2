//! Checks of folders against a file, where both could be opened.

ghost use Rattle.std.specs.Prelude.{◌≡◌, List, [], map, IfOk, IfErr, OnErr, IfSome, IsErrOf};
ghost use Rattle.std.specs.Prelude.{IsTrue, string_bytes};
ghost use Rattle.known_bags.specs.declared.known_bag.KnownBag.{KnownBag};
ghost use Rattle.known_bags.specs.Faults.{AnswersFault};
ghost use Rattle.known_bags.specs.Sources.{Knows};
ghost use Rattle.cell_device.specs.Calls.{HasCause};
ghost use Rattle.outcomes.specs.Outcomes.{WritesPrefix};
ghost use Rattle.registered_checks.specs.Checks.{Ends, agree};
ghost use Rattle.registered_checks.specs.Lists.{AnswersTo, AnswersFirst, WhereOpened};

use crate::list_checks::check_list_on;
use crate::said_checks::Says;
use bag_folders::Folders;
use counted_writes::CountedWrite;
use folder_checks::Detail;
use known_bags::{SourceFault, write_fault};
use outcomes::{ProgramFault, ProgramOutput};
use std::alloc::{AllocError, Global};

/// Checks the folders of these paths, as `check_list_on` does, against the bags that the bytes of a
/// file know; then the folders say what is left to say of them. If these couldn't be read, or there
/// was no memory for the folders, no folder is checked: a line says so, there is nothing to say
/// about bags, and the status is 1.
pub fn check_source_on<F: Folders + Says + Drop, W: CountedWrite>(
    alloc: Global,
    source: Result<Vec<u8>, SourceFault>,
    folders: Result<F, AllocError>,
    paths: &[&str],
    detail: Detail,
    output: &mut W,
) -> Result<ProgramOutput, ProgramFault>
    ensures ok { IfOk result (λ answer. WhereOpened source folders
        (λ bytes them. AnswersTo bytes.items detail (F.gives them) (F.fails_at them)
        (map (λ path. path.now) paths.now)
        (Ends (W.contents output.old) (W.contents output.new) answer.status
        (string_bytes answer.text)))
        (λ outcome. Ends (W.contents output.old) (W.contents output.new) answer.status
        (string_bytes answer.text) outcome [])) }
    // The status 0 means that both could be opened, that each folder is a valid bag, and that these
    // are the known bags.
    ensures zero { IfOk result (λ answer. answer.status ≡ 0 → WhereOpened source folders
        (λ bytes them. (known : List KnownBag) × Knows bytes.items known
        × IfSome (F.gives them) (λ gives.
        IsTrue (agree gives (map (λ path. path.now) paths.now) known)))
        (λ outcome. ⊥)) }
    ensures output { IsErrOf result ProgramFault.Output → WhereOpened source folders
        (λ bytes them. AnswersFirst bytes.items detail (F.gives them) (F.fails_at them)
        (map (λ path. path.now) paths.now)
        (WritesPrefix (W.contents output.old) (W.contents output.new)))
        (WritesPrefix (W.contents output.old) (W.contents output.new)) }
    ensures fault { IfErr result (λ fault. fault ≡ ProgramFault.Output) }
    ensures cause { HasCause ProgramFault.Output (W.failures output.old) (W.failures output.new)
        result }
{
    match source {
        Ok(bytes) => match folders {
            Ok(folders) => {
                let source = bytes.as_slice();
                let mut checked = check_list_on(alloc, source, folders, paths, detail, output)?;
                checked.folders.say();
                Ok(checked.answer)
            }
            Err(AllocError) => refuse(alloc, output, SourceFault::Memory),
        },
        Err(fault) => refuse(alloc, output, fault),
    }
}

// Writes why no folder is checked. There is nothing to say of bags then.
fn refuse<W: CountedWrite>(
    alloc: Global,
    output: &mut W,
    fault: SourceFault,
) -> Result<ProgramOutput, ProgramFault>
    ensures ok { IfOk result (λ answer. AnswersFault fault (λ outcome.
        Ends (W.contents output.old) (W.contents output.new) answer.status
        (string_bytes answer.text) outcome [])) }
    ensures output { OnErr result (AnswersFault fault
        (WritesPrefix (W.contents output.old) (W.contents output.new))) }
    ensures fault { IfErr result (λ fault. fault ≡ ProgramFault.Output) }
    ensures cause { HasCause ProgramFault.Output (W.failures output.old) (W.failures output.new)
        result }
{
    let status = write_fault(alloc, output, fault)?;
    let text = String::new(alloc);
    Ok(ProgramOutput { status, text })
}
