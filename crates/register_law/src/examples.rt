ghost use Rattle.std.specs.Prelude.{◌≡◌, true, IfOk};
ghost use Rattle.fed_types.specs.Lists.{is_in};
ghost use Rattle.fed_types.specs.Sites.{members_of};
ghost use Rattle.register_law.specs.Examples.{ABagIsDeposited, ARegisterIsDecided};
ghost use Rattle.register_law.specs.ExamplesCarried.{CarriedSitesReport};
ghost use Rattle.register_law.specs.ExamplesOverlapped.{TurnsOverlap};
ghost use Rattle.register_law.specs.FileCells.{BeginsAHistory, TellTheirBytes};

use book::OpenFault;
use cell_device::{Cell, FileCell, MemoryFile};
use records::Owner;
use site::Site;
use std::alloc::Global;

// A function here does nothing but where it says so: its contract is an example, computed.

/// There is a valid bag, and a request to deposit it.
pub fn a_bag_is_deposited()
    ensures { ABagIsDeposited }
{}

/// A register is open at first, is decided for such a bag, and then it is reported.
pub fn a_register_is_decided()
    ensures { ARegisterIsDecided }
{}

/// A run decides a register, and sites go on from its cells: one reports the bag, which the run has
/// reported, and which its cells show as chosen.
pub fn carried_sites_report()
    ensures { CarriedSitesReport }
{}

/// Turns overlap: one begins while another still hands out its datagrams, and takes one of them.
pub fn turns_overlap()
    ensures { TurnsOverlap }
{}

/// A cell in a file of which all is known tells its bytes, so the laws are about it too.
pub fn file_cells_tell_their_bytes()
    ensures { TellTheirBytes ⟦<FileCell<MemoryFile> as Cell>⟧.device }
{}

/// Starts a member's site over a cell in a new file in memory: so there are histories over such
/// cells. `Device` comes where the file's length can't be had; the other faults are those of the
/// opening.
pub fn starts_over_a_file(
    alloc: Global,
    owner: Owner,
) -> Result<Site<FileCell<MemoryFile>>, OpenFault>
    requires member { is_in (members_of owner.members) owner.site ≡ true }
    ensures begins { IfOk result (λ site.
        BeginsAHistory ⟦<FileCell<MemoryFile> as Cell>⟧.device owner site) }
{
    let file = MemoryFile::new(alloc, Vec::new(alloc), 0);
    let Ok(cell) = FileCell::over(file) else {
        return Err(OpenFault::Device);
    };
    match Site::open(alloc, cell, owner) {
        Ok(site) => Ok(site),
        Err((_, fault)) => Err(fault),
    }
}
