use fed_types::{Ballot, Vote};
use records::Entry;

/// What an acceptor answers to the site that asked.
#[derive(Clone, Copy, Debug, PartialEq, Eq)]
pub enum Response {
    /// It promises this ballot; and its vote, if it has one.
    Promised(Ballot, Option<Vote>),
    /// It has cast this vote.
    Accepted(Vote),
    /// It refuses the ballot that was asked for, since it has promised `standing`.
    Refused { asked: Ballot, standing: Ballot },
}

/// What an acceptor decides: what it has to record before it answers, if anything, and its answer.
#[derive(Clone, Copy, Debug, PartialEq, Eq)]
pub struct Decision {
    pub entry: Option<Entry>,
    pub answer: Response,
}
