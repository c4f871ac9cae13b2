//! The forms of the lines that commands print.

ghost use Rattle.std.specs.Prelude.{◌≡◌, map, option_map};
ghost use Rattle.std.specs.List.{find};
ghost use Rattle.std.specs.Option.{option_copied};
ghost use Rattle.json_lines.specs.Forms.{forms, form_shown, part_shown, begins, after, fits};
ghost use Rattle.json_lines.specs.Forms.{form_of};

/// A part of a form: a word of a line, or what stands in its place.
#[derive(Clone, Copy, Debug)]
pub(crate) enum Part {
    /// This word.
    Word(&'static str),
    /// An escaped name, the value of this member.
    Name(&'static str),
    /// A number, the value of this member.
    Number(&'static str),
    /// Any other text, the value of this member.
    Text(&'static str),
    /// All words that are left, each a number; they are the value of this member.
    Numbers(&'static str),
}

/// A form of lines: which kind of line it is, and its parts.
#[derive(Clone, Copy, Debug)]
pub(crate) struct Form {
    pub(crate) kind: &'static str,
    pub(crate) parts: &'static [Part],
}

const OBJECT: Part = Part::Name("object");

const VERSION: Part = Part::Number("version");

const ROUND: Part = Part::Number("round");

const SITE: Part = Part::Number("site");

const BAG: Part = Part::Text("bag");

const OTHER: Part = Part::Text("other");

const CELL: Part = Part::Name("cell");

const NUMBER: Part = Part::Number("number");

const FEDERATION: Part = Part::Text("federation");

const KNOWN: Part = Part::Number("known");

/// All forms. A line is of the first one that it fits.
static FORMS: [Form; 29] = [
    Form {
        kind: "cell",
        parts: &[
            Part::Word("cell"),
            FEDERATION,
            SITE,
            Part::Numbers("weights"),
        ],
    },
    Form {
        kind: "deposit",
        parts: &[Part::Word("deposit"), OBJECT, VERSION, BAG],
    },
    Form {
        kind: "round",
        parts: &[Part::Word("round"), OBJECT, VERSION, ROUND],
    },
    Form {
        kind: "promise",
        parts: &[Part::Word("promise"), OBJECT, VERSION, ROUND, SITE],
    },
    Form {
        kind: "vote",
        parts: &[Part::Word("vote"), OBJECT, VERSION, ROUND, SITE, BAG],
    },
    Form {
        kind: "known",
        parts: &[Part::Word("known"), OBJECT, VERSION, BAG],
    },
    Form {
        kind: "pending",
        parts: &[Part::Word("pending"), OBJECT, VERSION, BAG],
    },
    Form {
        kind: "voted",
        parts: &[Part::Word("voted"), OBJECT, VERSION, BAG],
    },
    Form {
        kind: "asked",
        parts: &[Part::Word("asked"), OBJECT, VERSION],
    },
    Form {
        kind: "torn",
        parts: &[Part::Word("torn"), Part::Number("bytes")],
    },
    Form {
        kind: "damaged",
        parts: &[Part::Word("damaged"), Part::Number("offset")],
    },
    Form {
        kind: "in-use",
        parts: &[Part::Word("in-use"), CELL],
    },
    Form {
        kind: "unread",
        parts: &[Part::Word("unread"), CELL],
    },
    Form {
        kind: "foreign",
        parts: &[Part::Word("foreign"), CELL],
    },
    Form {
        kind: "damaged",
        parts: &[Part::Word("damaged"), CELL, Part::Number("offset")],
    },
    Form {
        kind: "chosen",
        parts: &[Part::Word("chosen"), OBJECT, VERSION, BAG, ROUND, SITE],
    },
    Form {
        kind: "open",
        parts: &[Part::Word("open"), OBJECT, VERSION],
    },
    Form {
        kind: "conflict",
        parts: &[Part::Word("conflict"), OBJECT, VERSION, BAG, OTHER],
    },
    Form {
        kind: "other",
        parts: &[Part::Word("other"), OBJECT, VERSION, BAG, OTHER],
    },
    Form {
        kind: "ok",
        parts: &[
            Part::Word("ok"),
            FEDERATION,
            Part::Number("sites"),
            Part::Number("quorum"),
            Part::Text("digest"),
        ],
    },
    Form {
        kind: "members line",
        parts: &[Part::Word("members"), Part::Word("line"), NUMBER],
    },
    Form {
        kind: "key line",
        parts: &[Part::Word("key"), Part::Word("line"), NUMBER],
    },
    Form {
        kind: "ledger line",
        parts: &[Part::Word("ledger"), Part::Word("line"), NUMBER],
    },
    Form {
        kind: "key",
        parts: &[Part::Word("key"), Part::Text("kind"), Part::Text("name")],
    },
    Form {
        kind: "up",
        parts: &[
            Part::Word("site"),
            SITE,
            Part::Word("up"),
            Part::Number("ms"),
            Part::Word("records"),
            Part::Number("records"),
            Part::Word("known"),
            KNOWN,
            Part::Word("pending"),
            Part::Number("pending"),
            Part::Word("alone"),
            Part::Number("alone"),
            Part::Word("lacks"),
            Part::Number("lacks"),
        ],
    },
    Form {
        kind: "silent",
        parts: &[Part::Word("site"), SITE, Part::Word("silent")],
    },
    Form {
        kind: "federation",
        parts: &[
            Part::Word("federation"),
            FEDERATION,
            Part::Number("well"),
            Part::Word("of"),
            Part::Number("sites"),
        ],
    },
    Form {
        kind: "counts",
        parts: &[
            Part::Number("chosen"),
            Part::Word("chosen,"),
            KNOWN,
            Part::Word("known,"),
            Part::Number("open"),
            Part::Word("open,"),
            Part::Number("conflicts"),
            Part::Word("conflicts"),
        ],
    },
    Form {
        kind: "counts",
        parts: &[KNOWN, Part::Word("of"), Part::Number("all")],
    },
];

/// The form of a line of these words, if it has one.
pub(crate) fn form_of(words: &[&[u8]]) -> Option<&'static Form>
    ensures { option_map (λ form. form_shown form.now) result
        ≡ form_of (map (λ word. word.now) words.now) }
{
    first_fit(table(), words)
}

#[tactic(auto, unfolding(crate::specs::Forms::forms))]
fn table() -> &'static [Form]
    ensures { map form_shown result.now ≡ forms }
{
    &FORMS
}

// The first of some forms that fits.
fn first_fit<'a>(forms: &'a [Form], words: &[&[u8]]) -> Option<&'a Form>
    ensures { option_copied result ≡ find (λ form. fits (map part_shown form.parts.now)
        (map (λ word. word.now) words.now)) forms.now }
{
    forms.iter().find(|form| fits(form.parts, words))
}

// Whether words are these parts, all of them and in order.
fn fits(parts: &[Part], words: &[&[u8]]) -> bool
    ensures { result ≡ fits (map part_shown parts.now) (map (λ word. word.now) words.now) }
{
    match parts {
        [] => words.is_empty(),
        [part, parts @ ..] => part.begins(words) && fits(parts, part.after(words)),
    }
}

impl Part {
    // Whether words begin with this part.
    fn begins(self, words: &[&[u8]]) -> bool
        ensures { result ≡ begins (part_shown self) (map (λ word. word.now) words.now) }
    {
        match (self, words) {
            (Part::Numbers(_), _) => true,
            (_, []) => false,
            (Part::Word(text), [word, ..]) => *word == text.as_bytes(),
            (Part::Name(_) | Part::Number(_) | Part::Text(_), _) => true,
        }
    }

    /// The words after this part.
    pub(crate) fn after<'a, 'b>(self, words: &'a [&'b [u8]]) -> &'a [&'b [u8]]
        ensures { map (λ word. word.now) result.now
            ≡ after (part_shown self) (map (λ word. word.now) words.now) }
    {
        match (self, words) {
            (Part::Numbers(_), _) | (_, []) => &[],
            (_, [_, words @ ..]) => words,
        }
    }
}
