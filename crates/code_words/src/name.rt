//! Names as a person reads them.

ghost use Rattle.std.specs.Prelude.{◌≡◌, ◌++◌, OnOk, string_bytes};
ghost use Rattle.std.specs.List.{list_any};
ghost use Rattle.code_words.specs.Names.{blanks, is_within, is_invisible, shown, shown_name};
ghost use Rattle.code_words.specs.Names.{path_text, quoted_name};

use std::alloc::AllocError;

/// The characters from one to another.
#[derive(Clone, Copy)]
struct Span {
    first: u32,
    last: u32,
}

// Blanks other than the space, and what Unicode has shown as nothing
// (Default_Ignorable_Code_Point).
const BLANKS: [Span; 19] = [
    Span {
        first: 0xA0,
        last: 0xA0,
    },
    Span {
        first: 0xAD,
        last: 0xAD,
    },
    Span {
        first: 0x34F,
        last: 0x34F,
    },
    Span {
        first: 0x61C,
        last: 0x61C,
    },
    Span {
        first: 0x115F,
        last: 0x1160,
    },
    Span {
        first: 0x17B4,
        last: 0x17B5,
    },
    Span {
        first: 0x180B,
        last: 0x180F,
    },
    Span {
        first: 0x2000,
        last: 0x200F,
    },
    Span {
        first: 0x2028,
        last: 0x202F,
    },
    Span {
        first: 0x205F,
        last: 0x206F,
    },
    Span {
        first: 0x3000,
        last: 0x3000,
    },
    Span {
        first: 0x3164,
        last: 0x3164,
    },
    Span {
        first: 0xFE00,
        last: 0xFE0F,
    },
    Span {
        first: 0xFEFF,
        last: 0xFEFF,
    },
    Span {
        first: 0xFFA0,
        last: 0xFFA0,
    },
    Span {
        first: 0xFFF0,
        last: 0xFFFB,
    },
    Span {
        first: 0x1BCA0,
        last: 0x1BCA3,
    },
    Span {
        first: 0x1D173,
        last: 0x1D17A,
    },
    Span {
        first: 0xE0000,
        last: 0xE0FFF,
    },
];

/// Appends a name as it is, except for invisible characters: controls, blanks other than a space
/// between others, and what Unicode has shown as nothing (Default_Ignorable_Code_Point) are
/// written `\u{..}`, by their number in hex.
pub fn push_name(text: &mut String, name: &str) -> Result<(), AllocError>
    ensures { OnOk result (string_bytes text.new ≡ string_bytes text.old ++ shown_name name.now) }
{
    for character in name.chars() {
        push_character(text, character)?;
    }
    Ok(())
}

// Appends a character, or its number.
#[tactic(auto, unfolding(crate::specs::Names::shown))]
fn push_character(text: &mut String, character: char) -> Result<(), AllocError>
    ensures { OnOk result (string_bytes text.new ≡ string_bytes text.old ++ shown character) }
{
    if is_invisible(character) {
        let number = u32::from(character);
        write!(text, "\\u{{{number:x}}}")
    } else {
        text.push(character)
    }
}

/// Appends the path that an argument names; of an empty one that it is empty.
pub fn push_path(text: &mut String, path: &str) -> Result<(), AllocError>
    ensures { OnOk result (string_bytes text.new ≡ string_bytes text.old ++ path_text path.now) }
{
    if path.is_empty() {
        text.push_str("an empty name")
    } else {
        push_name(text, path)
    }
}

/// Appends a name between quotes.
#[tactic(auto, using(std::proofs::Common::append_assoc))]
pub fn push_quoted(text: &mut String, name: &str) -> Result<(), AllocError>
    ensures { OnOk result (string_bytes text.new ≡ string_bytes text.old ++ quoted_name name.now) }
{
    text.push('"')?;
    push_name(text, name)?;
    text.push('"')
}

#[tactic(auto, unfolding(crate::specs::Names::is_invisible))]
fn is_invisible(character: char) -> bool
    ensures { result ≡ is_invisible character }
{
    character.is_control() || is_blank(u32::from(character))
}

fn is_blank(character: u32) -> bool
    ensures { result ≡ list_any (is_within character) blanks }
{
    BLANKS.iter().any(|span| is_within(character, span))
}

fn is_within(character: u32, span: &Span) -> bool
    ensures { result ≡ is_within character span.now }
{
    span.first <= character && character <= span.last
}
