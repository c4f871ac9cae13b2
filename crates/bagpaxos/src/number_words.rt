//! Which numbers an argument may be.

/// An argument that is a number, and which it may be.
#[derive(Clone, Copy, Debug)]
pub(crate) struct NumberWords {
    /// What clap writes after a value that isn't one, before it says why.
    pub(crate) after: &'static str,
    pub(crate) words: &'static str,
}

/// Each argument that is a number.
pub(crate) static NUMBERS: [NumberWords; 10] = [
    NumberWords {
        after: "' for '--for <SECONDS>': ",
        words: "seconds are a number from 1 to 4294967295",
    },
    NumberWords {
        after: "' for '--most-bytes <N>': ",
        words: "bytes are a number from 0 to 18446744073709551615",
    },
    NumberWords {
        after: "' for '--number <N>': ",
        words: "a site is a number from 1 to 63",
    },
    NumberWords {
        after: "' for '--to <N>': ",
        words: "a site is a number from 1 to 63",
    },
    NumberWords {
        after: "' for '--turns <T>': ",
        words: "turns are a number from 1 to 4294967295",
    },
    NumberWords {
        after: "' for '--until-known <SECONDS>': ",
        words: "seconds are a number from 1 to 4294967295",
    },
    NumberWords {
        after: "' for '--wait <MS>': ",
        words: "milliseconds are a number from 1 to 60000",
    },
    NumberWords {
        after: "' for '--wait-most <MS>': ",
        words: "milliseconds are a number from 1 to 86400000",
    },
    NumberWords {
        after: "' for '--watch <SECONDS>': ",
        words: "seconds are a number from 1 to 4294967295",
    },
    NumberWords {
        after: "' for '[V]': ",
        words: "a version is a number from 1 to 4294967295",
    },
];
