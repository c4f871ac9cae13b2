use dgram::FolderPath;
use fed_types::Slot;

/// A folder that is to be deposited as a version of an object.
#[derive(Debug, Drop)]
pub struct Deposit {
    pub slot: Slot,
    /// The path, as the site names it.
    pub path: FolderPath,
}
