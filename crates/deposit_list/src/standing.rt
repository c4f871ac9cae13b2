//! How a deposit stands with a site.

ghost use Rattle.std.specs.Prelude.{◌≡◌};
ghost use Rattle.site.specs.Faults.{number_of};
ghost use Rattle.deposit_list.specs.Standings.{by_deposit};

use crate::aim::Aim;
use dgram::{DepositAnswer, QueryAnswer};
use fed_types::BagId;
use site::SiteFault;
use site_client::ClientReply;

/// How a deposit stands with a site, by its replies.
#[derive(Clone, Copy, Debug)]
pub enum Standing {
    /// It has to be sent: it wasn't yet, or the site hasn't got it.
    Unsent,
    /// It was sent, and nothing has come of it yet.
    Unanswered,
    /// The site has registered this bag.
    Registered(BagId),
    /// The site has refused it, for the reason of this code.
    Refused(u8),
    /// The site knows the first bag, and has registered the second.
    Known(BagId, BagId),
}

impl Standing {
    ghost use Rattle.std.specs.Prelude.{◌≡◌};
    ghost use Rattle.deposit_list.specs.Standings.{unanswered, where_known, where_pending};
    ghost use Rattle.deposit_list.specs.Standings.{by_query};
    ghost use Rattle.deposit_list.specs.Standings.{after, is_settled, is_registered, is_known};
    ghost use Rattle.deposit_list.specs.Standings.{is_reached};

    /// How it stands after this reply, or after none.
    pub(crate) fn after(self, reply: Option<ClientReply>) -> Standing
        ensures { result ≡ after self reply }
    {
        match reply {
            None => self.unanswered(),
            Some(ClientReply::ToDeposit(answer)) => by_deposit(answer),
            Some(ClientReply::ToQuery(answer)) => self.by_query(answer),
        }
    }

    // How it stands where it was sent and nothing came, or nothing that says more.
    fn unanswered(self) -> Standing
        ensures { result ≡ unanswered self }
    {
        match self {
            Standing::Unsent => Standing::Unanswered,
            _ => self,
        }
    }

    // How it stands by the answer to a query. Where the site answers and hasn't said that it has
    // registered the deposit, or says that it has nothing, it has to be sent again.
    fn by_query(self, answer: QueryAnswer) -> Standing
        ensures { result ≡ by_query self answer }
    {
        match answer {
            QueryAnswer::Known(known) => self.where_known(known),
            QueryAnswer::Pending(_) => self.where_pending(),
            QueryAnswer::NeedsOpen => self.where_pending(),
            QueryAnswer::Nothing => Standing::Unsent,
        }
    }

    // How it stands where the site knows this bag.
    fn where_known(self, known: BagId) -> Standing
        ensures { result ≡ where_known self known }
    {
        match self {
            Standing::Registered(bag) => Standing::Known(known, bag),
            _ => Standing::Unsent,
        }
    }

    // How it stands where the site knows none, and has a deposit.
    fn where_pending(self) -> Standing
        ensures { result ≡ where_pending self }
    {
        match self {
            Standing::Registered(_) => self,
            _ => Standing::Unsent,
        }
    }

    /// Whether nothing else is to be waited for.
    pub(crate) fn is_settled(self) -> bool
        ensures { result ≡ is_settled self }
    {
        matches!(self, Standing::Refused(_) | Standing::Known(_, _))
    }

    /// Whether what was to come of it has come.
    pub(crate) fn reaches(self, aim: Aim) -> bool
        ensures { result ≡ is_reached aim self }
    {
        match aim {
            Aim::Registered => self.is_registered(),
            Aim::Known(_) => self.is_known(),
        }
    }

    fn is_registered(self) -> bool
        ensures { result ≡ is_registered self }
    {
        matches!(self, Standing::Registered(_))
    }

    // Whether the bag that was deposited is known.
    fn is_known(self) -> bool
        ensures { result ≡ is_known self }
    {
        match self {
            Standing::Known(known, bag) => known == bag,
            _ => false,
        }
    }
}

// How it stands by the answer to it.
fn by_deposit(answer: DepositAnswer) -> Standing
    ensures { result ≡ by_deposit answer }
{
    match answer {
        DepositAnswer::Registered(bag) => Standing::Registered(bag),
        DepositAnswer::OtherDeposit(bag) => refused(SiteFault::OtherDeposit(bag)),
        DepositAnswer::OtherKnown(bag) => refused(SiteFault::OtherKnown(bag)),
        DepositAnswer::Device => refused(SiteFault::Device),
        DepositAnswer::Memory => refused(SiteFault::Memory),
        DepositAnswer::NeedsOpen => refused(SiteFault::NeedsOpen),
        DepositAnswer::Tree(fault) => Standing::Refused(20 + fault.number()),
        DepositAnswer::Bag(fault) => Standing::Refused(40 + fault.number()),
    }
}

fn refused(fault: SiteFault) -> Standing
    ensures { result ≡ Standing.Refused (number_of fault) }
{
    Standing::Refused(fault.number())
}
