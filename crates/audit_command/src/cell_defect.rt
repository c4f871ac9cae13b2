/// What is wrong with a cell.
#[derive(Clone, Copy, Debug, PartialEq, Eq)]
pub enum CellDefect {
    /// It can't be read, or begins with no header.
    Unread,
    /// It is of another federation, of no member, or of other weights.
    Foreign,
    /// From this byte on it is damaged.
    Damaged(usize),
}
