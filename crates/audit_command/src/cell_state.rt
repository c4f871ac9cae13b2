use crate::cell_defect::CellDefect;

/// What is known of a cell, apart from its records.
#[derive(Clone, Copy, Debug)]
pub(crate) struct CellState {
    /// Whether a site holds it.
    pub(crate) in_use: bool,
    /// What is wrong with it, if anything is.
    pub(crate) fault: Option<CellDefect>,
}
