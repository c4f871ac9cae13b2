ghost use Rattle.std.specs.Prelude.{◌≡◌};
ghost use Rattle.std.specs.Option.{option_copied};
ghost use Rattle.std.specs.List.{list_all};
ghost use Rattle.bag_text.specs.Blanks.{is_blank};
ghost use Rattle.bag_text.specs.Readers.{skip_blanks, trim_blanks, after_gap};

fn is_blank(byte: u8) -> bool
    ensures { result ≡ is_blank byte }
{
    byte == b' ' || byte == b'\t'
}

/// Whether the line is spaces and tabs alone, or nothing.
pub(crate) fn is_blank_line(line: &[u8]) -> bool
    ensures { result ≡ list_all is_blank line.now }
{
    line.iter().all(|byte| is_blank(*byte))
}

/// What comes after one or more spaces and tabs; nothing where there is none at the start.
pub(crate) fn after_gap(text: &[u8]) -> Option<&[u8]>
    ensures { option_copied result ≡ after_gap text.now }
{
    match text.split_first() {
        Some((first, rest)) if is_blank(*first) => Some(skip_blanks(rest)),
        _ => None,
    }
}

fn skip_blanks(text: &[u8]) -> &[u8]
    ensures { result.now ≡ skip_blanks text.now }
{
    let mut rest = text;
    while let Some((first, after)) = rest.split_first() {
        if !is_blank(*first) {
            return rest;
        }
        rest = after;
    }
    rest
}

/// The text without the spaces and tabs at its end.
pub(crate) fn trim_blanks(text: &[u8]) -> &[u8]
    ensures { result.now ≡ trim_blanks text.now }
{
    let mut rest = text;
    while let Some((last, front)) = rest.split_last() {
        if !is_blank(*last) {
            return rest;
        }
        rest = front;
    }
    rest
}
