//! How many lines of one sender and kind a minute has.

ghost use Rattle.std.specs.Prelude.{◌≡◌, ◌↔◌, ◌<◌, ◌-◌, IsTrue};

use addresses::Address;

/// So many lines of one sender and kind are written in a minute.
pub(crate) const MOST_LINES: u32 = 60;

/// What a line is to the log.
#[derive(Clone, Copy)]
pub(crate) enum Role {
    /// One of many: only so many of its kind are written in a minute.
    Counted(Kind),
    /// A bag has become known, which happens once a version.
    Known,
    /// It ends the site.
    Last,
}

impl Role {
    /// What this line is, by its first word.
    pub(crate) fn of(line: &str) -> Role {
        let word = match line.split_once(' ') {
            Some((word, _)) => word,
            None => line,
        };
        for kind in Kind::ALL {
            if kind.word() == word {
                return Role::Counted(kind);
            }
        }
        if word == "known" {
            Role::Known
        } else {
            Role::Last
        }
    }
}

/// What a line that is counted says.
#[derive(Clone, Copy, Debug, PartialEq, Eq)]
pub(crate) enum Kind {
    Registered,
    Reply,
    Refused,
    Unread,
    Dropped,
}

impl Kind {
    /// All of them.
    pub(crate) const ALL: [Kind; 5] = [
        Kind::Registered,
        Kind::Reply,
        Kind::Refused,
        Kind::Unread,
        Kind::Dropped,
    ];

    /// The first word of such lines.
    pub(crate) fn word(self) -> &'static str {
        match self {
            Kind::Registered => "registered",
            Kind::Reply => "reply",
            Kind::Refused => "refused",
            Kind::Unread => "unread",
            Kind::Dropped => "dropped",
        }
    }
}

/// Who sent what a line is about.
#[derive(Clone, Copy, Debug, PartialEq, Eq)]
pub(crate) enum Sender {
    /// Nobody: the turn was idle.
    Nobody,
    /// Who is at this address.
    At(Address),
    /// All who aren't counted by themselves.
    Others,
}

/// The lines of one sender and kind.
#[derive(Clone, Copy)]
pub(crate) struct Tally {
    pub(crate) sender: Sender,
    pub(crate) kind: Kind,
    lines: u32,
}

impl Tally {
    /// No line yet.
    pub(crate) const fn new(sender: Sender, kind: Kind) -> Tally
        ensures { result.lines ≡ 0 }
    {
        Tally {
            sender,
            kind,
            lines: 0,
        }
    }

    /// Whether it counts these.
    pub(crate) fn is_of(&self, sender: &Sender, kind: Kind) -> bool {
        self.sender == *sender && self.kind == kind
    }

    /// Counts a line: whether it is one of those that are written.
    pub(crate) fn admits(&mut self) -> bool
        ensures { IsTrue result ↔ self.old.lines < 60 }
    {
        let is_written = self.lines < MOST_LINES;
        self.lines = self.lines.saturating_add(1);
        is_written
    }

    /// How many lines weren't written.
    pub(crate) fn left_out(&self) -> u32
        ensures { result ≡ self.now.lines - 60 }
    {
        self.lines.saturating_sub(MOST_LINES)
    }
}
