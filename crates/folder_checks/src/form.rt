use crate::report::Report;

/// In which form checks are reported.
#[derive(Clone, Copy, Debug, PartialEq, Eq)]
pub enum Form {
    /// In lines, each with the folder's name before it.
    Lines(Report),
    /// In one line of JSON.
    Json(Report),
}
