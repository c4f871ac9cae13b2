//! Checks of folders against a file, as the arguments ask for.

ghost use Rattle.std.specs.Prelude.{◌≡◌, List, map, IfOk, IfErr, OnErr, IfSome, IsErrOf, IsTrue};
ghost use Rattle.std.specs.Prelude.{string_bytes};
ghost use Rattle.known_bags.specs.declared.known_bag.KnownBag.{KnownBag};
ghost use Rattle.known_bags.specs.Sources.{Knows};
ghost use Rattle.cell_device.specs.Calls.{one_more};
ghost use Rattle.outcomes.specs.Outcomes.{WritesPrefix};
ghost use Rattle.registered_checks.specs.Checks.{IsQuiet, agree};
ghost use Rattle.registered_checks.specs.Lists.{AnswersFirst};
ghost use Rattle.registered_checks.specs.Files.{WhereRead, AnswersToFile, IsSaidOn, EndsOn};

use crate::said_checks::{Says, say_on};
use crate::source_checks::check_source_on;
use bag_folders::Folders;
use counted_writes::CountedWrite;
use folder_checks::CheckTask;
use known_bags::SourceFiles;
use outcomes::{ProgramFault, ProgramOutput};
use std::alloc::{AllocError, Global};

/// Checks the folders of the task, as `check_source_on` does, against the bags that the file of
/// this path knows. Then the comparison is said, as by `say_on`: if the task asks for versions, on
/// the output, after the folders' lines; and else on `errors`.
pub fn check_registered_on<
    S: SourceFiles,
    F: Folders + Says + Drop,
    W: CountedWrite,
    E: CountedWrite,
>(
    alloc: Global,
    task: &CheckTask<'_>,
    files: &S,
    list: &str,
    folders: Result<F, AllocError>,
    output: &mut W,
    errors: &mut E,
) -> Result<u8, ProgramFault>
    ensures ok { IfOk result (λ status. AnswersToFile (S.bytes_at files.now list.now) folders
        F.gives F.fails_at task.now.detail
        (map (λ path. path.now) task.now.paths.items)
        (EndsOn task.now.versions (W.contents output.old) (W.contents output.new)
        (W.failures output.old) (W.failures output.new) (E.contents errors.old)
        (E.contents errors.new) (E.failures errors.old) (E.failures errors.new) status)) }
    // The status 0 means that both could be opened, that each folder is a valid bag, and that these
    // are the known bags.
    ensures zero { IfOk result (λ status. status ≡ 0
        → WhereRead (S.bytes_at files.now list.now) folders
        (λ bytes them. (known : List KnownBag) × Knows bytes known
        × IfSome (F.gives them) (λ gives.
        IsTrue (agree gives (map (λ path. path.now) task.now.paths.items) known)))
        (λ outcome. ⊥)) }
    ensures output { IsErrOf result ProgramFault.Output
        → WhereRead (S.bytes_at files.now list.now) folders
        (λ bytes them. AnswersFirst bytes task.now.detail (F.gives them) (F.fails_at them)
        (map (λ path. path.now) task.now.paths.items)
        (WritesPrefix (W.contents output.old) (W.contents output.new)))
        (WritesPrefix (W.contents output.old) (W.contents output.new)) }
    ensures quiet { OnErr result (IsQuiet (E.contents errors.old) (E.contents errors.new)
        (E.failures errors.old) (E.failures errors.new)) }
    ensures fault { IfErr result (λ fault. fault ≡ ProgramFault.Output) }
    ensures cause { OnErr result (W.failures output.new ≡ one_more (W.failures output.old)) }
{
    let source = files.source_bytes(list);
    let paths = task.paths.as_slice();
    let answer = check_source_on(alloc, source, folders, paths, task.detail, output)?;
    Ok(say_as_asked(task.versions, &answer, output, errors))
}

// Says the comparison: on the output if versions are asked for, and else on `errors`.
fn say_as_asked<W: CountedWrite, E: CountedWrite>(
    versions: bool,
    answer: &ProgramOutput,
    output: &mut W,
    errors: &mut E,
) -> u8
    ensures { IsSaidOn versions (W.contents output.old) (W.contents output.new)
        (W.failures output.old) (W.failures output.new) (E.contents errors.old)
        (E.contents errors.new) (E.failures errors.old) (E.failures errors.new) answer.now.status
        result (string_bytes answer.now.text) }
{
    if versions {
        say_on(answer, output)
    } else {
        say_on(answer, errors)
    }
}
