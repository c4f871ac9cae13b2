//! Why the program doesn't begin what it was asked for.

ghost use Rattle.std.specs.Prelude.{◌≡◌};
ghost use Rattle.site_client.specs.Answers.{IsWritten, not_a_member};
ghost use Rattle.site_client.specs.inner.Written.{outcome_of_line};

use outcomes::{ProgramFault, write_output};
use std::alloc::{AllocError, Global};
use std::io::Write;

/// Why a site doesn't serve, or nothing is sent.
#[derive(Clone, Copy, Debug, PartialEq, Eq)]
pub enum Stop {
    /// The members file can't be read.
    MembersUnread,
    /// This line of the members file is the first at fault.
    MembersLine(usize),
    /// The federation's number doesn't come from the list of its members.
    OtherList,
    /// No member has the site's number.
    NotAMember,
    /// Two of the cell, the members file and the log are one file.
    SameFile,
    /// The key file can't be read.
    KeyUnread,
    /// Others than the owner of the key file have rights to it.
    KeyOpenToOthers,
    /// This line of the key file is the first at fault.
    KeyLine(usize),
    /// A site's key file has no key of messages between sites.
    KeyLacksSites,
    /// The key file is the cell, the members file or the log.
    KeySameFile,
    /// Where a key file is to be made there is a file.
    KeyExists,
    /// The new key file can't be written.
    KeyUnwritten,
    /// The folder below which bags are read isn't one.
    BagsUnread,
    /// The file of the cell can't be opened.
    CellUnopened,
    /// The socket can't be opened.
    Socket,
    /// An allocation failed.
    Memory,
}

/// Writes why, as a line, and gives the status 1.
pub fn write_stop<W: Write>(alloc: Global, output: &mut W, stop: Stop) -> Result<u8, ProgramFault>
    ensures no_member { stop ≡ Stop.NotAMember
        → IsWritten (W.contents output.old) (W.contents output.new) result not_a_member }
{
    match stop {
        Stop::MembersUnread => write_output(output, 1, "members unread\n"),
        Stop::MembersLine(line) => write_numbered(output, members_line(alloc, line)),
        Stop::OtherList => write_output(output, 1, "members other list\n"),
        Stop::NotAMember => write_output(output, 1, "not a member\n"),
        Stop::SameFile => write_output(output, 1, "same file\n"),
        Stop::KeyUnread => write_output(output, 1, "key unread\n"),
        Stop::KeyOpenToOthers => write_output(output, 1, "key open to others\n"),
        Stop::KeyLine(line) => write_numbered(output, key_line(alloc, line)),
        Stop::KeyLacksSites => write_output(output, 1, "key lacks sites\n"),
        Stop::KeySameFile => write_output(output, 1, "key same file\n"),
        Stop::KeyExists => write_output(output, 1, "key exists\n"),
        Stop::KeyUnwritten => write_output(output, 1, "key unwritten\n"),
        Stop::BagsUnread => write_output(output, 1, "bags unread\n"),
        Stop::CellUnopened => write_output(output, 1, "open 4\n"),
        Stop::Socket => write_output(output, 1, "socket\n"),
        Stop::Memory => write_output(output, 1, "memory\n"),
    }
}

/// Writes this line, or that there was no memory for it, and gives the status 1.
pub fn write_numbered<W: Write>(
    output: &mut W,
    line: Result<String, AllocError>,
) -> Result<u8, ProgramFault>
    ensures { IsWritten (W.contents output.old) (W.contents output.new) result
        (outcome_of_line line) }
{
    match line {
        Ok(line) => write_output(output, 1, line.as_str()),
        Err(AllocError) => write_output(output, 1, "memory\n"),
    }
}

fn members_line(alloc: Global, line: usize) -> Result<String, AllocError> {
    format!(in alloc; "members line {line}\n")
}

fn key_line(alloc: Global, line: usize) -> Result<String, AllocError> {
    format!(in alloc; "key line {line}\n")
}
