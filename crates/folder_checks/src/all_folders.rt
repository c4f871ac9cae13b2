//! Checks of all folders that are asked for, one or many.

ghost use Rattle.std.specs.Prelude.{◌≡◌, map, IfErr, IfOk, IfSome, IsErrOf};
ghost use Rattle.outcomes.specs.Outcomes.{Writes, WritesPrefix};
ghost use Rattle.cell_device.specs.Calls.{HasCause};
ghost use Rattle.folder_checks.specs.Reports.{ReportsOn, ReportsFirst};

use crate::explanation::explain_on;
use crate::report::{Detail, Report};
use crate::several_folders::check_each_on;
use crate::verdict::check_on;
use bag_folders::Folders;
use counted_writes::CountedWrite;
use outcomes::ProgramFault;
use std::alloc::Global;

/// Checks the folders of these paths. One folder is checked as by `check_on` or `explain_on`, for a
/// brief or an explained report, and several as by `check_each_on`.
pub fn check_all_on<F: Folders, W: CountedWrite>(
    alloc: Global,
    folders: &mut F,
    paths: &[&str],
    report: Report,
    output: &mut W,
) -> Result<u8, ProgramFault>
    ensures ok { IfOk result (λ status. IfSome (F.gives folders.old) (λ gives.
        ReportsOn report gives (F.fails_at folders.old) (map (λ path. path.now) paths.now)
        (Writes (W.contents output.old) (W.contents output.new) status))) }
    ensures output { IsErrOf result ProgramFault.Output → IfSome (F.gives folders.old) (λ gives.
        ReportsFirst report gives (F.fails_at folders.old) (map (λ path. path.now) paths.now)
        (WritesPrefix (W.contents output.old) (W.contents output.new))) }
    ensures kept { F.gives folders.new ≡ F.gives folders.old }
    ensures fault { IfErr result (λ fault. fault ≡ ProgramFault.Output) }
    ensures cause { HasCause ProgramFault.Output (W.failures output.old) (W.failures output.new)
        result }
{
    match paths {
        [path] => match report.detail {
            Detail::Brief => check_on(alloc, folders, path, report.question, output),
            Detail::Explained => explain_on(alloc, folders, path, report.question, output),
        },
        _ => check_each_on(alloc, folders, paths, report, output),
    }
}
