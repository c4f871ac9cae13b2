use audit::Finding;
use fed_types::Slot;

/// A version, and what the cells say together of it.
#[derive(Debug, Drop)]
pub(crate) struct Version {
    pub(crate) slot: Slot,
    pub(crate) finding: Finding,
}
