use crate::call::Call;
use crate::fate::Fate;
use crate::file_path::FilePath;
use crate::hex_bytes::HexBytes;
use crate::tree_no::TreeNo;
use fed_types::Slot;

/// A command of a schedule, after the one that names the federation. A site is named by any number
/// that fits a byte: whether it is a member is checked when the schedule runs.
#[derive(Debug, Drop)]
pub enum Command {
    /// `tree T` declares an empty tree.
    Tree {
        tree: TreeNo,
    },
    /// `folder T` adds the tree's payload folder `data`.
    Folder {
        tree: TreeNo,
    },
    /// `file T PATH HEX` adds a file to the tree.
    File {
        tree: TreeNo,
        path: FilePath,
        content: HexBytes,
    },
    /// A call, as a deposit or an arrival, and the fate that ends it.
    Call {
        call: Call,
        fate: Fate,
    },
    /// `query S OBJ V` asks the site which bag it knows for the slot.
    Query {
        site: u8,
        slot: Slot,
    },
    /// `raw S HEX`: bytes arrive at the site that no site sent.
    Raw {
        site: u8,
        bytes: HexBytes,
    },
    /// `pump N`: N turns. Each delivers the datagram with the least number that no `deliver` and no
    /// turn has named, if there is one.
    Pump {
        turns: u32,
    },
    /// `stop S` stops the site between calls.
    Stop {
        site: u8,
    },
    /// `start S` opens the site's cell again.
    Start {
        site: u8,
    },
}
