use crate::fault::ToolFault;
use dgram::Body;
use fed_types::{BagId, Ballot, SiteNo, Vote};

const BAG: BagId = BagId([0xaa; 64]);

/// A kind of message that site 1 takes in for each slot.
#[derive(Clone, Copy)]
pub(crate) enum Kind {
    Prepare,
    Promise,
    Accept,
    Accepted,
    Refused,
    Ask,
    Known,
}

impl Kind {
    /// All kinds, in the order of a round.
    pub(crate) fn all() -> [Kind; 7] {
        [
            Kind::Prepare,
            Kind::Promise,
            Kind::Accept,
            Kind::Accepted,
            Kind::Refused,
            Kind::Ask,
            Kind::Known,
        ]
    }

    pub(crate) fn name(self) -> &'static str {
        match self {
            Kind::Prepare => "Prepare",
            Kind::Promise => "Promise",
            Kind::Accept => "Accept",
            Kind::Accepted => "Accepted",
            Kind::Refused => "Refused",
            Kind::Ask => "Ask",
            Kind::Known => "Known",
        }
    }

    /// What it says: of the ballot (1, 1), and sent by site 2 where that isn't asked by site 1.
    pub(crate) fn body(self) -> Result<Body, ToolFault> {
        let from = SiteNo::new(2)?;
        let ballot = Ballot::new(1, SiteNo::new(1)?)?;
        let standing = Ballot::new(2, from)?;
        Ok(self.body_of(from, ballot, standing))
    }

    fn body_of(self, from: SiteNo, ballot: Ballot, standing: Ballot) -> Body {
        let vote = Vote { ballot, bag: BAG };
        match self {
            Kind::Prepare => Body::Prepare { ballot },
            Kind::Promise => Body::Promise {
                from,
                ballot,
                prior: None,
            },
            Kind::Accept => Body::Accept { vote },
            Kind::Accepted => Body::Accepted { from, vote },
            Kind::Refused => Body::Refused {
                from,
                asked: ballot,
                standing,
            },
            Kind::Ask => Body::Ask { from },
            Kind::Known => Body::Known { from, bag: BAG },
        }
    }
}
