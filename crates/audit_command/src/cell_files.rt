use std::alloc::AllocError;
use std::hash::RandomState;

/// Where cells are read from: a disk, or memory.
///
/// What is counted in a cell has to outlive a crash. So an implementation has these duties, which
/// no clause can state:
///
/// - If a cell isn't in use, then once `sync` has said so, it is on the disk as it is read, and no
///   site can open it until it is dropped here.
/// - If a cell is in use, no byte is read that was appended after `open` returned. So all records
///   that are read were synced, except as many of the last as a site may not have synced.
/// - What `synced` says was said before that by the site that holds the cell, and holds it still: so
///   many of the bytes that are read were synced then.
pub trait CellFiles {
    ghost use Rattle.std.specs.Prelude.{◌≡◌, ◌≤◌, ℕ, List, Option, Some, None, IfOk, IfSome};
    ghost use Rattle.std.specs.Prelude.{length, option_map};
    ghost use Rattle.audit_command.specs.Files.{FileBytes, Gives};

    /// A cell that was opened, as far as it was read.
    type Cell: Drop;

    // What the file of each path gives, where that is known; none inside where it can't be opened.
    ghost bytes_at: { Self → List ℕ → Option (Option FileBytes) } = { λ _ _. None };

    // What reading a cell gives from here on, where that is known.
    ghost left: { Self.Cell → Option FileBytes } = { λ _. None };

    /// How what cells say is found: by a seed that the writer of a cell doesn't know.
    fn hashing(&self) -> RandomState;

    /// Opens the file of this path; none where that can't be done. It fails only where memory runs
    /// out.
    fn open(&self, path: &str) -> Result<Option<Self::Cell>, AllocError>
        ensures { IfOk result (λ cell. IfSome (bytes_at self.now path.now)
            (λ file. option_map left cell ≡ option_map (λ it. Some it) file)) };

    /// Whether the cell was in use when it was opened: a site held it.
    fn is_in_use(&self, cell: &Self::Cell) -> bool
        ensures { IfSome (left cell.now) (λ file. result ≡ file.in_use) };

    /// How many of the first bytes are synced of a cell in use, if its site says so.
    fn synced(&self, cell: &Self::Cell) -> Option<u64>
        ensures { IfSome (left cell.now) (λ file. result ≡ file.synced) };

    /// Syncs a cell that isn't in use, of this path, before it is read, and says whether that was
    /// done.
    fn sync(&self, cell: &Self::Cell, path: &str) -> bool
        ensures { IfSome (left cell.now) (λ file. result ≡ file.can_sync) };

    /// Reads the next bytes of a cell into a piece that isn't empty, and gives how many: 0 at its
    /// end, and none where reading fails.
    fn read(&self, cell: &mut Self::Cell, piece: &mut [u8]) -> Option<usize>
        ensures bound { IfSome result (λ count. count ≤ length piece.new) }
        ensures bytes { IfSome (left cell.old)
            (λ file. Gives file piece.new result (left cell.new)) };
}
