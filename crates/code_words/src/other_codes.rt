//! Lines that say why a command did nothing, or went no further.

use crate::meaning::Meaning;

/// What these lines say.
pub static OTHERS: [Meaning; 33] = [
    Meaning {
        code: "memory",
        words: "memory ran out",
        advice: "try again with more memory",
    },
    Meaning {
        code: "input unread",
        words: "the schedule can't be read",
        advice: "look at the path, or give it as standard input: `bagpaxos run < FILE`",
    },
    Meaning {
        code: "schedule line N",
        words: "the line is neither blank, a comment nor a command in its place",
        advice: "`bagpaxos run --help` lists the commands",
    },
    Meaning {
        code: "dropped S",
        words: "what came was no message of the federation",
        advice: "",
    },
    Meaning {
        code: "down S",
        words: "the site has stopped, and what it would have printed isn't printed",
        advice: "",
    },
    Meaning {
        code: "no answer",
        words: "the site didn't answer in time: it is down, or busy with a bag, or a packet filter \
            refuses the datagrams, or this machine has no way to its address",
        advice: "see whether it runs, and ask again; deposit again only if it then says `nothing`",
    },
    Meaning {
        code: "members unread",
        words: "the members file can't be read",
        advice: "look at the path and the rights",
    },
    Meaning {
        code: "members line N",
        words: "the line of the members file isn't what it has to be",
        advice: "compare the file with those of the other sites",
    },
    Meaning {
        code: "members other list",
        words: "the federation's number doesn't come from this list of sites",
        advice: "the number was chosen by hand, or the file was cut or changed: compare it with \
            the other sites'",
    },
    Meaning {
        code: "not a member",
        words: "the members file has no site of this number",
        advice: "give the site its own number",
    },
    Meaning {
        code: "same file",
        words: "two of --cell, --members and --log name one file, or an output is a file that the \
            command needs",
        advice: "give each a file of its own, and send the output elsewhere",
    },
    Meaning {
        code: "key unread",
        words: "the key file can't be read",
        advice: "look at the path and the rights",
    },
    Meaning {
        code: "key open to others",
        words: "others than the owner of the key file have rights to it",
        advice: "`chmod 600` it; whoever has read it has the keys, so make new ones",
    },
    Meaning {
        code: "key line N",
        words: "the key file's line isn't `sites HEX` or `clients HEX`, or is one too many",
        advice: "copy the file anew; a key has 128 digits, a kind two lines at most",
    },
    Meaning {
        code: "key lacks sites",
        words: "the key file has no key of messages between sites",
        advice: "give the site the file of the other sites, not that of a client",
    },
    Meaning {
        code: "key same file",
        words: "--key names the file of --cell, --members or --log",
        advice: "give the key a file of its own",
    },
    Meaning {
        code: "key exists",
        words: "where the new key file was to be made there is a file",
        advice: "give another path; a key that is in use is never overwritten",
    },
    Meaning {
        code: "key unwritten",
        words: "the new key file can't be written",
        advice: "look at the folder, its rights and its room",
    },
    Meaning {
        code: "bags unread",
        words: "what --bags names isn't a folder that can be read",
        advice: "look at the path and the mount",
    },
    Meaning {
        code: "deposits unread",
        words: "the list of deposits can't be read",
        advice: "look at the path and the rights",
    },
    Meaning {
        code: "deposits line N",
        words: "the line isn't `OBJ V PATH`, or an earlier one has its OBJ and V",
        advice: "write %20 for a blank in a name; give a version one bag",
    },
    Meaning {
        code: "socket",
        words: "the port or the address can't be had: another process has it, or the machine \
            hasn't that address",
        advice: "`ss -lunp` shows the processes, and `ip address` the addresses",
    },
    Meaning {
        code: "torn BYTES",
        words: "the cell ends with so many bytes of a record that was cut short",
        advice: "",
    },
    Meaning {
        code: "damaged OFFSET",
        words: "from this byte on the cell holds no record",
        advice: "keep the file; the site is lost, and the others go on",
    },
    Meaning {
        code: "ledger line N",
        words: "the line of the list is none that `ledger` prints",
        advice: "make the list anew from a cell",
    },
    Meaning {
        code: "in-use CELL",
        words: "a site has the cell open: of its last 64 records those count that it says are synced",
        advice: "",
    },
    Meaning {
        code: "unread CELL",
        words: "the cell can't be read or synced, or begins with no header",
        advice: "look at the path and the rights",
    },
    Meaning {
        code: "foreign CELL",
        words: "the cell is of another federation, of no member, or of other weights",
        advice: "compare the members file with those of the sites",
    },
    Meaning {
        code: "damaged CELL OFFSET",
        words: "from this byte on the cell holds no record; what comes before is used",
        advice: "keep the file; the site is lost, and the others go on",
    },
    Meaning {
        code: "conflict OBJ V HEX HEX",
        words: "two bags are known as one version",
        advice: "docs/AUDIT.md has what may be the cause",
    },
    Meaning {
        code: "other OBJ V HEX HEX",
        words: "the site knows the first bag as this version; the second is in the list, or was \
            deposited",
        advice: "deposit yours as another version; after `catch-up`, audit the cells: \
            docs/AUDIT.md",
    },
    Meaning {
        code: "open OBJ V",
        words: "no bag of this version was learned; after `send --deposits`, the site isn't known \
            to have the deposit",
        advice: "ask again, give more cells, or send the same list again",
    },
    Meaning {
        code: "site S silent",
        words: "the site didn't answer",
        advice: "see whether it runs, and ask again",
    },
];
