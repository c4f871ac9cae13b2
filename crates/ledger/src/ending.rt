/// How the bytes of a cell end.
#[derive(Clone, Copy, Debug, PartialEq, Eq)]
pub enum Ending {
    /// With a whole record, or a whole header.
    Whole,
    /// With this many bytes of a record or a header that was cut short.
    Torn(usize),
    /// From this byte on, counted from the start, they are neither a record nor a part of one.
    Damaged(usize),
}
