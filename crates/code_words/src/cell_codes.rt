//! The codes of sites that don't begin to serve, or stop.

use crate::meaning::Meaning;

/// What `open N` says, N from 1 on.
pub static OPEN: [Meaning; 6] = [
    Meaning {
        code: "open 1",
        words: "the cell is that of another federation",
        advice: "see which is wrong, the cell or the members file: `bagpaxos journal CELL` names \
            the cell's federation; never delete the cell; only a site that has never served may \
            begin with a new one",
    },
    Meaning {
        code: "open 2",
        words: "the cell is that of another site",
        advice: "find the right one, and never delete this one; only a site that has never served \
            may begin with a new one",
    },
    Meaning {
        code: "open 3",
        words: "the cell is damaged",
        advice: "keep the file; the site is lost, and the others go on",
    },
    Meaning {
        code: "open 4",
        words: "the cell or the list can't be opened or read, or the cell is in use or has lost its \
            header",
        advice: "look at the path, the rights, the mount, and for a second process",
    },
    Meaning {
        code: "open 5",
        words: "memory ran out while the cell was opened",
        advice: "give the site more, and start it again",
    },
    Meaning {
        code: "open 6",
        words: "the cell has records, and its members were others, or had other weights",
        advice: "compare the members file with those of the other sites",
    },
];

/// What `stopped N` says, N from 1 on.
pub static STOPPED: [Meaning; 3] = [
    Meaning {
        code: "stopped 1",
        words: "the site's port failed",
        advice: "start the site again",
    },
    Meaning {
        code: "stopped 2",
        words: "the cell couldn't be written or synced, or something else has changed it",
        advice: "look at the disk and its room, and at the cell with `bagpaxos journal`, before \
            the site is started again",
    },
    Meaning {
        code: "stopped 3",
        words: "memory ran out",
        advice: "give the site more, and start it again",
    },
];
