use crate::ending::Ending;
use records::{Owner, Record};

/// What the bytes of a cell say.
#[derive(Debug, Drop)]
pub struct Contents {
    /// The federation and the site that its header names, and the members' weights. If no header
    /// names these, there is a single member of weight 1.
    pub owner: Owner,
    /// Whether a header names the weights.
    pub names_weights: bool,
    /// Its records, in order.
    pub records: Vec<Record>,
    pub ending: Ending,
}
