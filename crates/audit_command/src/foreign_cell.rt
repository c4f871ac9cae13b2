//! Why a cell isn't that of a member.

use fed_types::Members;
use file_words::is_piped;
use ledger::read_contents;
use records::Owner;
use site_client::members_at;
use std::alloc::AllocError;
use std::fs::File;
use std::io::Read;

/// So many bytes of a cell have its header, and more.
const FRONT: usize = 128;

/// A cell's owner, by its header, and the members of the file.
#[derive(Clone, Copy)]
pub(crate) struct Foreign {
    owner: Owner,
    members: Members,
}

/// What the header of the cell at this path says, and what the members file does; none where one of
/// them can't be read once more.
pub(crate) fn foreign_at(
    rt: &HostRuntime,
    members: &str,
    path: &str,
) -> Result<Option<Foreign>, AllocError> {
    if is_piped(rt, members) || is_piped(rt, path) {
        return Ok(None);
    }
    let Ok(file) = members_at(rt, members) else {
        return Ok(None);
    };
    let members = file.members();
    let mut front = [0u8; FRONT];
    let Ok(mut cell) = File::open(rt, path) else {
        return Ok(None);
    };
    let Ok(count) = cell.read(&mut front) else {
        return Ok(None);
    };
    match read_contents(rt.alloc(), &front[..count])? {
        Some(contents) => Ok(Some(Foreign {
            owner: contents.owner,
            members,
        })),
        None => Ok(None),
    }
}

/// Appends in what the cell's header differs from the members file.
pub(crate) fn push_foreign(text: &mut String, foreign: &Foreign) -> Result<(), AllocError> {
    let own = foreign.owner.members.federation();
    let other = foreign.members.federation();
    let site = foreign.owner.site.number();
    let count = foreign.members.count();
    if own != other {
        write!(
            text,
            "the cell is of federation {own}, and the members file of federation {other}"
        )?;
    } else if site > count {
        write!(
            text,
            "the cell is that of site {site}, and the members file has {count} sites; both are of \
            federation {own}"
        )?;
    } else {
        write!(
            text,
            "the cell's members have other weights than those of the members file; both are of \
            federation {own}"
        )?;
    }
    text.push_str("; compare the members file with those of the sites")
}
