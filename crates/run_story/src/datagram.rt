use fed_types::Ballot;

/// What a site says to another.
#[derive(Clone, Copy, PartialEq, Eq)]
pub enum Kind {
    Prepare,
    Promise,
    Accept,
    Accepted,
    Refused,
    Ask,
    Known,
}

/// A datagram that was sent.
#[derive(Clone, Copy)]
pub struct Datagram {
    /// The site that sent it.
    pub from: u8,
    /// The site that it goes to.
    pub to: u8,
    /// The place of its slot among those of the story.
    pub slot: Option<usize>,
    /// The place of the event that sent it.
    pub event: usize,
    pub kind: Kind,
    pub ballot: Option<Ballot>,
    /// The ballot of the vote that a promise names, or the one that a refusal says was promised.
    pub other: Option<Ballot>,
    /// The tree of the bag that it names, 0 where it names none.
    pub tree: u32,
}

impl Datagram {
    /// What it is, and in which ballot, with blanks for a scene: `Accept (2, 1)`.
    pub fn head(&self) -> &'static str {
        match self.kind {
            Kind::Prepare => "Prepare$o $b",
            Kind::Promise => "Promise$o $b",
            Kind::Accept => "Accept$o $b",
            Kind::Accepted => "Accepted$o $b",
            Kind::Refused => "Refused$o $b",
            Kind::Ask => "Ask$o",
            Kind::Known => "Known$o",
        }
    }

    /// What else it says, with blanks for a scene: `, bag 1`.
    pub fn tail(&self) -> &'static str {
        match self.kind {
            Kind::Promise if self.other.is_none() => ", no vote",
            Kind::Promise => ", vote $v bag $g",
            Kind::Accept | Kind::Accepted | Kind::Known => ", bag $g",
            Kind::Refused => ", promised $v",
            Kind::Prepare | Kind::Ask => "",
        }
    }
}
