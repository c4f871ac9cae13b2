//! The codes of calls that a site refuses.

use crate::meaning::Meaning;

/// The number before the first of them.
pub(crate) const BEFORE_REFUSED: u8 = 9;

/// What `refused S N` says, for N from 10 on. For `refused S 10 N` a fault of the bag says more.
pub static REFUSED: [Meaning; 10] = [
    Meaning {
        code: "refused S 10 N",
        words: "the deposit is no valid bag, for the reason of `invalid N`",
        advice: "",
    },
    Meaning {
        code: "refused S 11",
        words: "the site has another deposit for this version already",
        advice: "ask which bag is known, and deposit yours as another version",
    },
    Meaning {
        code: "refused S 12",
        words: "another bag is known as this version already",
        advice: "deposit yours as another version",
    },
    Meaning {
        code: "refused S 13",
        words: "the site's cell couldn't be written or synced, or something else has changed it",
        advice: "look at its disk, and at the cell with `bagpaxos journal`, before the site is \
            started again",
    },
    Meaning {
        code: "refused S 14",
        words: "the site had no memory for it",
        advice: "give the site more",
    },
    Meaning {
        code: "refused S 15",
        words: "the site's cell failed before, and has to be opened again",
        advice: "start the site again",
    },
    Meaning {
        code: "refused S 16",
        words: "the site has no deposit of this version that it could propose",
        advice: "deposit a bag there first",
    },
    Meaning {
        code: "refused S 17",
        words: "the site has used all ballots of this version",
        advice: "propose it at another site",
    },
    Meaning {
        code: "refused S 18",
        words: "a bag is known as this version, so nothing is to be proposed",
        advice: "",
    },
    Meaning {
        code: "refused S 19",
        words: "the site has neither a vote nor a deposit of this version",
        advice: "recover it at another site, or deposit a bag",
    },
];
