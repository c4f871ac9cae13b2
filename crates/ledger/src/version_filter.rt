ghost use Rattle.std.specs.Prelude.{◌≡◌};
ghost use Rattle.ledger.specs.Ledgers.{is_listed};

use crate::standing::Standing;

/// Which versions are listed: all where neither is asked for.
#[derive(Clone, Copy, Debug, PartialEq, Eq)]
pub struct VersionFilter {
    /// The versions with a known bag.
    pub known: bool,
    /// The versions that are pending.
    pub pending: bool,
}

impl VersionFilter {
    /// Whether a version is listed of which this is said.
    pub fn has(self, standing: Standing) -> bool
        ensures { result ≡ is_listed self standing }
    {
        match standing {
            Standing::Known(_) => self.known || !self.pending,
            Standing::Pending(_) => self.pending || !self.known,
            Standing::Voted(_) | Standing::Asked => !self.known && !self.pending,
        }
    }
}
