//! Options that another command has, where this one has something else in their place.

/// What stands for an option that a command doesn't have.
#[derive(Clone, Copy, Debug)]
struct Instead {
    command: &'static str,
    option: &'static str,
    words: &'static str,
}

static OTHERS: [Instead; 6] = [
    Instead {
        command: "catch-up",
        option: "--number",
        words: "here the site is --to <N>",
    },
    Instead {
        command: "catch-up",
        option: "--watch",
        words: "here it is --for <SECONDS>",
    },
    Instead {
        command: "send",
        option: "--number",
        words: "here the site is --to <N>",
    },
    Instead {
        command: "site",
        option: "--to",
        words: "here the site is --number <N>",
    },
    Instead {
        command: "status",
        option: "--number",
        words: "status asks all sites",
    },
    Instead {
        command: "status",
        option: "--to",
        words: "status asks all sites",
    },
];

/// What this command has in place of an option of another one, if that is known.
pub(crate) fn instead_of(command: &str, option: &str) -> Option<&'static str> {
    match OTHERS
        .iter()
        .find(|it| it.command == command && it.option == option)
    {
        Some(it) => Some(it.words),
        None => None,
    }
}
