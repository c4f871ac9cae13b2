//! What a site answers its clients.

ghost use Rattle.std.specs.Prelude.{◌≡◌};
ghost use Rattle.udp_site.specs.Replies.{bag_answer, deposit_answer, tree_answer, query_answer};

use bag_check::BagFault;
use bag_tree::TreeFault;
use dgram::{BagFaultNo, DepositAnswer, QueryAnswer, TreeFaultNo};
use site::{Answer, Line, Reply, SiteFault};

/// What a client is answered of its deposit.
pub(crate) fn deposit_answer(answer: &Result<Answer, SiteFault>) -> Option<DepositAnswer>
    ensures { result ≡ deposit_answer answer.now }
{
    match answer {
        Ok(Answer { line, .. }) => match line {
            Some(Line::Registered(bag)) => Some(DepositAnswer::Registered(*bag)),
            _ => None,
        },
        Err(fault) => match *fault {
            SiteFault::InvalidBag(fault) => bag_answer(fault),
            SiteFault::OtherDeposit(bag) => Some(DepositAnswer::OtherDeposit(bag)),
            SiteFault::OtherKnown(bag) => Some(DepositAnswer::OtherKnown(bag)),
            SiteFault::Device => Some(DepositAnswer::Device),
            SiteFault::Memory => Some(DepositAnswer::Memory),
            SiteFault::NeedsOpen => Some(DepositAnswer::NeedsOpen),
            SiteFault::NoDeposit | SiteFault::RoundsSpent => None,
            SiteFault::AlreadyKnown | SiteFault::NothingToRecover => None,
        },
    }
}

// The fault of a folder that is no valid bag.
fn bag_answer(fault: BagFault) -> Option<DepositAnswer>
    ensures { result ≡ bag_answer fault }
{
    match fault {
        BagFault::Memory => None,
        fault => Some(DepositAnswer::Bag(BagFaultNo::new(fault.number())?)),
    }
}

/// What a client is answered whose folder can't be read.
pub(crate) fn tree_answer(fault: TreeFault) -> Option<DepositAnswer>
    ensures { result ≡ tree_answer fault }
{
    match fault {
        TreeFault::Memory => Some(DepositAnswer::Memory),
        TreeFault::BadPath => None,
        fault => Some(DepositAnswer::Tree(TreeFaultNo::new(fault.number())?)),
    }
}

/// What a client is answered of its query.
pub(crate) fn query_answer(reply: Result<Reply, SiteFault>) -> QueryAnswer
    ensures { result ≡ query_answer reply }
{
    match reply {
        Ok(Reply::Known(bag)) => QueryAnswer::Known(bag),
        Ok(Reply::Pending(bag)) => QueryAnswer::Pending(bag),
        Ok(Reply::Nothing) => QueryAnswer::Nothing,
        Err(_) => QueryAnswer::NeedsOpen,
    }
}
