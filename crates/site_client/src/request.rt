ghost use Rattle.std.specs.Prelude.{◌≡◌};
ghost use Rattle.site_client.specs.Replies.{question_of};
ghost use Rattle.site_client.specs.Recoveries.{question_at, next_question};

use addresses::Address;
use fed_types::{SiteNo, Slot};

/// Whom a client asks for what.
#[derive(Clone, Copy)]
pub struct Request<'a> {
    pub federation: u64,
    /// The site, and its address.
    pub to: SiteNo,
    pub target: Address,
    pub slot: &'a Slot,
    /// The addresses of all sites, that of site 1 first: one of them may have to recover.
    pub addresses: &'a [Address],
    /// How many questions about the slot came before.
    pub asked: u32,
}

impl<'a> Request<'a> {
    /// The same question where so many came before.
    pub(crate) fn at(&self, asked: u32) -> Request<'a>
        ensures { question_of result ≡ question_at (question_of self.now) asked }
    {
        Request {
            federation: self.federation,
            to: self.to,
            target: self.target,
            slot: self.slot,
            addresses: self.addresses,
            asked,
        }
    }

    /// The next question about the same.
    pub(crate) fn next(&self) -> Request<'a>
        ensures { question_of result ≡ next_question (question_of self.now) }
    {
        self.at(self.asked.saturating_add(1))
    }
}
