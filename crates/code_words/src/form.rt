//! The commands of a schedule, and what each takes.

use crate::kind::Kind;

/// A command: its name, and the words after it.
#[derive(Clone, Copy, Debug)]
pub(crate) struct Form {
    pub(crate) name: &'static str,
    /// What it takes, in words.
    pub(crate) takes: &'static str,
    pub(crate) kinds: &'static [Kind],
    /// Whether a fate may follow.
    pub(crate) has_fate: bool,
}

/// Each command but `federation`.
pub(crate) static FORMS: [Form; 13] = [
    Form {
        name: "tree",
        takes: "the number of a tree",
        kinds: &[Kind::Tree],
        has_fate: false,
    },
    Form {
        name: "folder",
        takes: "the number of a tree",
        kinds: &[Kind::Tree],
        has_fate: false,
    },
    Form {
        name: "file",
        takes: "a tree, a path and bytes in hex",
        kinds: &[Kind::Tree, Kind::Path, Kind::Bytes],
        has_fate: false,
    },
    Form {
        name: "deposit",
        takes: "a site, a tree, an object and a version",
        kinds: &[Kind::Site, Kind::Tree, Kind::Object, Kind::Version],
        has_fate: true,
    },
    Form {
        name: "propose",
        takes: "a site, an object and a version",
        kinds: &[Kind::Site, Kind::Object, Kind::Version],
        has_fate: true,
    },
    Form {
        name: "recover",
        takes: "a site, an object and a version",
        kinds: &[Kind::Site, Kind::Object, Kind::Version],
        has_fate: true,
    },
    Form {
        name: "deliver",
        takes: "the number of one datagram",
        kinds: &[Kind::Number],
        has_fate: true,
    },
    Form {
        name: "pump",
        takes: "a number",
        kinds: &[Kind::Number],
        has_fate: false,
    },
    Form {
        name: "ask",
        takes: "a site, the site that it asks, an object and a version",
        kinds: &[Kind::Site, Kind::Site, Kind::Object, Kind::Version],
        has_fate: true,
    },
    Form {
        name: "query",
        takes: "a site, an object and a version",
        kinds: &[Kind::Site, Kind::Object, Kind::Version],
        has_fate: false,
    },
    Form {
        name: "raw",
        takes: "a site and bytes in hex",
        kinds: &[Kind::Site, Kind::Bytes],
        has_fate: false,
    },
    Form {
        name: "stop",
        takes: "a site",
        kinds: &[Kind::Site],
        has_fate: false,
    },
    Form {
        name: "start",
        takes: "a site",
        kinds: &[Kind::Site],
        has_fate: false,
    },
];
