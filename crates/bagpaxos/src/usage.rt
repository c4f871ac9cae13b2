//! How each command is typed.

/// How a command is typed.
#[derive(Clone, Copy, Debug)]
pub(crate) struct Usage {
    pub(crate) command: &'static str,
    /// What one types, a form a line, each after the first below it.
    pub(crate) forms: &'static str,
    /// What clap calls missing where nothing of several things is given.
    pub(crate) missing: &'static str,
    /// All of these, of which one is enough.
    pub(crate) choices: &'static str,
    /// The names of its options that take a value, a blank between two, and of all others.
    pub(crate) valued: &'static str,
    pub(crate) flags: &'static str,
}

impl Usage {
    /// Whether the command has an option of this name, which is without its hyphens.
    pub(crate) fn has_option(&self, name: &str) -> bool {
        self.takes_value(name) || has_word(self.flags, name)
    }

    /// The name of its one option that begins with this letter, if there is just one.
    pub(crate) fn option_of_letter(&self, letter: &str) -> Option<&'static str> {
        if letter.len() != 1 {
            return None;
        }
        let mut names = self
            .valued
            .split(' ')
            .chain(self.flags.split(' '))
            .filter(|name| name.starts_with(letter));
        match (names.next(), names.next()) {
            (Some(name), None) => Some(name),
            _ => None,
        }
    }

    /// Whether it has one that takes a value.
    pub(crate) fn takes_value(&self, name: &str) -> bool {
        has_word(self.valued, name)
    }
}

/// What one types before a command is named.
pub(crate) const ANY: &str = "bagpaxos <COMMAND> [ARGUMENTS]

Commands: audit, catch-up, check, journal, ledger, members, run, send, site,
          status, help";

/// No argument is one of several.
const NONE: &str = "";

static USAGES: [Usage; 10] = [
    Usage {
        command: "audit",
        forms: "bagpaxos audit [OPTIONS] --members <FILE> <CELL>...",
        missing: NONE,
        choices: NONE,
        valued: "members",
        flags: "json words",
    },
    Usage {
        command: "catch-up",
        forms: "bagpaxos catch-up [OPTIONS] --members <FILE> --to <N> <FILE>...",
        missing: NONE,
        choices: NONE,
        valued: "for key members to wait",
        flags: "json words",
    },
    Usage {
        command: "check",
        forms: "bagpaxos check [OPTIONS] <FOLDER>...
       bagpaxos check [OPTIONS] --from <FILE>
       bagpaxos check [OPTIONS] --from0 <FILE>",
        missing: "  <FOLDER>...",
        choices: "  <FOLDER>..., --from <FILE> or --from0 <FILE>",
        valued: "from from0 registered",
        flags: "complete deposits explain json named progress quiet versions words",
    },
    Usage {
        command: "journal",
        forms: "bagpaxos journal [OPTIONS] <CELL>",
        missing: NONE,
        choices: NONE,
        valued: NONE,
        flags: "json words",
    },
    Usage {
        command: "ledger",
        forms: "bagpaxos ledger [OPTIONS] <CELL>",
        missing: NONE,
        choices: NONE,
        valued: NONE,
        flags: "json known pending words",
    },
    Usage {
        command: "members",
        forms: "bagpaxos members [--json] [--words] [--listed] <FILE>
       bagpaxos members --new <PLACE>...
       bagpaxos members [--json] [--words] --key <FILE>
       bagpaxos members [--json] [--words] --new-key <FILE>",
        missing: "  <FILE>",
        choices: "  <FILE>, --new <PLACE>..., --key <FILE> or --new-key <FILE>",
        valued: "key new new-key",
        flags: "json listed words",
    },
    Usage {
        command: "run",
        forms: "bagpaxos run [OPTIONS] [FILE]",
        missing: NONE,
        choices: NONE,
        valued: "draw",
        flags: "identities sent words",
    },
    Usage {
        command: "send",
        forms: "bagpaxos send [OPTIONS] --members <FILE> --to <N> --wait <MS>
                     <OBJ> <V> [PATH]
       bagpaxos send [OPTIONS] --members <FILE> --to <N> --wait <MS>
                     --deposits <FILE>",
        missing: NONE,
        choices: NONE,
        valued: "deposits key members to until-known wait",
        flags: "words",
    },
    Usage {
        command: "site",
        forms: "bagpaxos site [OPTIONS] --members <FILE> --number <N> --cell <FILE>
                     --wait <MS> (--forever | --turns <T>)",
        missing: "  --turns <T>",
        choices: "  --forever or --turns <T>",
        valued: "bags cell key listen log members most-bytes number turns wait wait-most",
        flags: "existing forever listed quiet words",
    },
    Usage {
        command: "status",
        forms: "bagpaxos status [OPTIONS] --members <FILE> [FILE]...",
        missing: NONE,
        choices: NONE,
        valued: "key members wait watch",
        flags: "json words",
    },
];

/// How the command of this name is typed; none where there is no such command.
pub(crate) fn usage_of(command: &str) -> Option<&'static Usage> {
    USAGES.iter().find(|usage| usage.command == command)
}

/// Whether any command has an option of this name, which is without its hyphens.
pub(crate) fn is_any_option(name: &str) -> bool {
    USAGES.iter().any(|usage| usage.has_option(name))
}

// Whether this is one of the words, of which a blank is between two.
fn has_word(words: &str, word: &str) -> bool {
    !word.is_empty() && words.split(' ').any(|it| it == word)
}
