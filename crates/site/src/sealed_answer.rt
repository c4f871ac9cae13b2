//! What a call of a batch answers.

use crate::answer::{Answer, Reply};
use crate::fault::SiteFault;

/// What a call, or a query, of a batch answers. `Batch::sync` hands it out.
#[derive(Debug, Drop)]
pub enum SealedAnswer {
    /// A call's answer, as the site's call of the same name gives it.
    Called(Result<Answer, SiteFault>),
    /// The reply to a query.
    Replied(Result<Reply, SiteFault>),
}
