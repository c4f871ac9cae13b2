//! The codes of folders that are no valid bags, or can't be read.

ghost use Rattle.std.specs.Prelude.{◌≡◌, ◌≤◌, ◌↔◌, IsSome, option_map};
ghost use Rattle.std.specs.Option.{option_copied};
ghost use Rattle.code_words.specs.Codes.{invalid_codes, unread_codes};
ghost use Rattle.code_words.specs.Rows.{row, code_of};

use crate::meaning::Meaning;
use crate::row::row;

/// What `invalid N` says, N from 1 on.
pub static INVALID: [Meaning; 15] = [
    Meaning {
        code: "invalid 1",
        words: "there is no bagit.txt",
        advice: "name the bag's own folder, or give it the two lines",
    },
    Meaning {
        code: "invalid 2",
        words: "bagit.txt isn't the two lines of a declaration",
        advice: "write `BagIt-Version: 1.0` and `Tag-File-Character-Encoding: UTF-8`",
    },
    Meaning {
        code: "invalid 3",
        words: "bagit.txt declares another version than 1.0 and 0.97",
        advice: "bring the bag to version 1.0, and declare that",
    },
    Meaning {
        code: "invalid 4",
        words: "bagit.txt declares another encoding than UTF-8",
        advice: "write the tag files anew in UTF-8, and declare that",
    },
    Meaning {
        code: "invalid 5",
        words: "there is a fetch.txt",
        advice: "fetch the files that it lists, check them, and keep it elsewhere",
    },
    Meaning {
        code: "invalid 6",
        words: "there is no folder data",
        advice: "rename it if its name is nearly right, else put it back from a copy",
    },
    Meaning {
        code: "invalid 7",
        words: "there is no manifest-sha512.txt, from which a bag has its identity",
        advice: "rename one whose name is nearly right, or add one: docs/MIGRATION.md",
    },
    Meaning {
        code: "invalid 8",
        words: "there is a manifest of another algorithm than md5, sha1, sha256 and sha512",
        advice: "keep it elsewhere, or rename it if that name is free: `--words` says so",
    },
    Meaning {
        code: "invalid 9",
        words: "a line of a manifest isn't a digest, blanks and a path, so none of its lines is \
            compared",
        advice: "write it as it was meant, and keep the old manifest",
    },
    Meaning {
        code: "invalid 10",
        words: "a manifest lists an unsafe path, or one on the wrong side of data/",
        advice: "list what is below data/ in payload manifests alone",
    },
    Meaning {
        code: "invalid 11",
        words: "a payload manifest lists a path twice",
        advice: "keep the line with the right digest, and the old manifest",
    },
    Meaning {
        code: "invalid 12",
        words: "a listed file isn't there",
        advice: "put it back from a copy; the manifest's line says what was there",
    },
    Meaning {
        code: "invalid 13",
        words: "a file below data/ is in the bag, but not in every payload manifest",
        advice: "list it if it belongs to the bag, or else keep it elsewhere",
    },
    Meaning {
        code: "invalid 14",
        words: "a file isn't the one that was listed: it has another digest",
        advice: "put back the right one from a copy; the manifest's line says which",
    },
    Meaning {
        code: "invalid 15",
        words: "memory ran out, and nothing is known of the bag",
        advice: "try again with more memory",
    },
];

/// What `unread N` says, N from 1 on.
pub static UNREAD: [Meaning; 7] = [
    Meaning {
        code: "unread 1",
        words: "a folder isn't there or can't be listed, or a name in it isn't UTF-8",
        advice: "look at the path, the rights and the names",
    },
    Meaning {
        code: "unread 2",
        words: "an entry is neither a file nor a folder, as a link or a pipe",
        advice: "put a copy of the file in a link's place, or keep it elsewhere",
    },
    Meaning {
        code: "unread 3",
        words: "a path has more than 32 parts",
        advice: "pack the deepest folders into files",
    },
    Meaning {
        code: "unread 4",
        words: "there are more than 100,000 files and folders",
        advice: "make several bags of it",
    },
    Meaning {
        code: "unread 5",
        words: "bagit.txt or a manifest has more than 64 MiB",
        advice: "make several bags of it",
    },
    Meaning {
        code: "unread 6",
        words: "a file can't be read, or was exchanged meanwhile",
        advice: "look at its rights and the disk, and let nobody write meanwhile",
    },
    Meaning {
        code: "unread 7",
        words: "memory ran out, and nothing is known of the folder",
        advice: "try again with more memory",
    },
];

/// What `invalid` with this number says, if there is such a number.
pub fn invalid(number: u8) -> Option<&'static Meaning>
    ensures code { option_map code_of (option_copied result) ≡ row invalid_codes number }
    ensures is { IsSome result ↔ ((1 ≤ number) × (number ≤ 15)) }
{
    row(INVALID.as_slice(), number)
}

/// What `unread` with this number says, if there is such a number.
pub fn unread(number: u8) -> Option<&'static Meaning>
    ensures code { option_map code_of (option_copied result) ≡ row unread_codes number }
    ensures is { IsSome result ↔ ((1 ≤ number) × (number ≤ 7)) }
{
    row(UNREAD.as_slice(), number)
}
