//! The codes of a schedule's commands that can't apply.

use crate::meaning::Meaning;

/// What `skip L REASON` says.
pub static SKIPPED: [Meaning; 7] = [
    Meaning {
        code: "skip L site",
        words: "there is no site of this number",
        advice: "the sites are those of the line `federation`, from 1 on",
    },
    Meaning {
        code: "skip L tree",
        words: "the tree is declared already, or isn't yet",
        advice: "write `tree T` once, before the other commands that name it",
    },
    Meaning {
        code: "skip L path",
        words: "the tree can have no file of this path",
        advice: "check for a duplicate path, a file in place of a folder, or `..`",
    },
    Meaning {
        code: "skip L datagram",
        words: "no datagram of this number was sent",
        advice: "with --sent each that was sent has a line with its number",
    },
    Meaning {
        code: "skip L formed",
        words: "these bytes are a message of the federation",
        advice: "have a site send it: raw is for bytes that are none",
    },
    Meaning {
        code: "skip L down",
        words: "the site is down",
        advice: "start it first",
    },
    Meaning {
        code: "skip L up",
        words: "the site is up already",
        advice: "stop it first, or leave the line out",
    },
];
