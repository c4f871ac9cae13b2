use lines::Reason;
use records::Entry;
use schedule::Fate;

/// What a command asks for. A turn of a pump is a delivery.
#[derive(Clone, Copy)]
pub enum Deed {
    /// A tree is declared.
    Tree,
    /// A tree gets its payload folder.
    Folder,
    /// A tree gets a file.
    File,
    Deposit,
    Propose,
    Recover,
    Ask,
    Deliver,
    Query,
    /// Bytes arrive that no site sent.
    Raw,
    Stop,
    Start,
}

/// What came of it.
#[derive(Clone, Copy)]
pub enum Outcome {
    /// The call was done, and nothing was printed.
    Done,
    Registered,
    /// The site has learned which bag was chosen.
    Learned,
    /// The site replies that a bag is known, that its deposit is pending, or that it has nothing.
    Known,
    Pending,
    Nothing,
    /// The deposit was no valid bag.
    Invalid,
    /// The site refused for another reason.
    Refused,
    /// The device failed.
    Failed,
    /// The device has failed before.
    Unopened,
    Dropped,
    Skipped(Reason),
    /// The site has stopped.
    Down,
    /// The site was opened again.
    Up,
}

/// An event of a run.
#[derive(Clone, Copy)]
pub struct Event {
    /// The number of the schedule's line, counted from 1.
    pub line: usize,
    pub deed: Deed,
    /// The number of the datagram that is delivered, of the tree that is declared, filled or
    /// deposited, or of the site that is asked.
    pub number: usize,
    /// The place of its path among those of the story, if it adds a file.
    pub path: Option<usize>,
    /// What befell the call.
    pub fate: Fate,
    /// The site where it happened, 0 where that is none.
    pub site: u8,
    /// The place of its slot among those of the story, if it is about one.
    pub slot: Option<usize>,
    pub outcome: Outcome,
    /// The place, among the lines of the story, of the line that it printed.
    pub said: Option<usize>,
    /// How many datagrams had been sent before it, and after it.
    pub sent_before: usize,
    pub sent_after: usize,
    /// What the record says that is in the site's cell since.
    pub record: Option<Entry>,
    /// The place of that record's slot among those of the story. After a failure it may be another
    /// one than the event's.
    pub record_slot: Option<usize>,
    /// The site's device had failed before it: the record belongs to the call that failed.
    pub was_unopened: bool,
    /// The tree of the bag that its record or its line names, 0 if they name none.
    pub tree: u32,
}

impl Event {
    /// It only makes a tree, and no site has part in it.
    pub fn is_of_tree(&self) -> bool {
        matches!(self.deed, Deed::Tree | Deed::Folder | Deed::File)
    }

    /// The site did what it was called to do.
    pub fn is_done(&self) -> bool {
        matches!(self.outcome, Outcome::Done | Outcome::Learned)
    }

    /// Its own call made a record, which is in the site's cell since.
    pub fn has_recorded(&self) -> bool {
        self.record.is_some() && !self.was_unopened
    }

    /// The site forgets what it has heard.
    pub fn is_forgetting(&self) -> bool {
        matches!(self.outcome, Outcome::Down | Outcome::Failed)
    }

    /// How many datagrams it sent.
    pub fn sent(&self) -> usize {
        self.sent_after.saturating_sub(self.sent_before)
    }
}
