//! Checks of folders against the bags that a source knows: a cell, or a list.

ghost use Rattle.std.specs.Prelude.{◌≡◌, List, map, IfOk, IfErr, IfSome, IsErrOf, IsTrue};
ghost use Rattle.std.specs.Prelude.{string_bytes};
ghost use Rattle.known_bags.specs.declared.known_bag.KnownBag.{KnownBag};
ghost use Rattle.known_bags.specs.Sources.{Knows};
ghost use Rattle.cell_device.specs.Calls.{HasCause};
ghost use Rattle.outcomes.specs.Outcomes.{WritesPrefix};
ghost use Rattle.registered_checks.specs.Checks.{Ends, agree};
ghost use Rattle.registered_checks.specs.Lists.{AnswersTo, AnswersFirst};

use crate::known_checks::{Checked, check_known_on};
use bag_folders::Folders;
use counted_writes::CountedWrite;
use folder_checks::Detail;
use known_bags::{push_known, write_fault};
use outcomes::{ProgramFault, ProgramOutput};
use std::alloc::Global;

/// Checks the folders of these paths, as `check_known_on` does, against the bags that these bytes
/// know: the bytes of a cell or of a list that `ledger` printed. If they are neither, no folder is
/// checked: a line says why, there is nothing to say about bags, and the status is 1.
pub fn check_list_on<F: Folders + Drop, W: CountedWrite>(
    alloc: Global,
    source: &[u8],
    folders: F,
    paths: &[&str],
    detail: Detail,
    output: &mut W,
) -> Result<Checked<F>, ProgramFault>
    ensures ok { IfOk result (λ checked.
        AnswersTo source.now detail (F.gives folders) (F.fails_at folders)
        (map (λ path. path.now) paths.now)
        (Ends (W.contents output.old) (W.contents output.new) checked.answer.status
        (string_bytes checked.answer.text))) }
    // The status 0 means that each folder is a valid bag, and that these are the known bags.
    ensures zero { IfOk result (λ checked. checked.answer.status ≡ 0
        → (known : List KnownBag) × Knows source.now known
        × IfSome (F.gives folders) (λ gives.
        IsTrue (agree gives (map (λ path. path.now) paths.now) known))) }
    ensures output { IsErrOf result ProgramFault.Output
        → AnswersFirst source.now detail (F.gives folders) (F.fails_at folders)
        (map (λ path. path.now) paths.now)
        (WritesPrefix (W.contents output.old) (W.contents output.new)) }
    ensures kept { IfOk result (λ checked. F.gives checked.folders ≡ F.gives folders) }
    ensures fault { IfErr result (λ fault. fault ≡ ProgramFault.Output) }
    ensures cause { HasCause ProgramFault.Output (W.failures output.old) (W.failures output.new)
        result }
{
    let mut known = Vec::new(alloc);
    match push_known(alloc, &mut known, source) {
        Ok(()) => check_known_on(alloc, folders, paths, detail, known.as_slice(), output),
        Err(fault) => {
            let status = write_fault(alloc, output, fault)?;
            let text = String::new(alloc);
            Ok(Checked {
                folders,
                answer: ProgramOutput { status, text },
            })
        }
    }
}
