use thiserror::Error;

/// Why no ballot is begun.
#[derive(Clone, Copy, Debug, PartialEq, Eq, Error)]
pub enum ProposeFault {
    /// The slot has no round left.
    #[error("no round is left")]
    RoundsSpent,
    /// An allocation failed.
    #[error("out of memory")]
    Memory,
}
