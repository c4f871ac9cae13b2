ghost use Rattle.std.specs.Prelude.{◌≡◌, ◌≢◌, ◌==◌, ℕ, List, IfOk, IfErr, IsOkAnd};
ghost use Rattle.std.specs.Char.{is_ascii_digit};
ghost use Rattle.std.specs.List.{list_all, position};
ghost use Rattle.std.specs.Option.{option_copied};
ghost use Rattle.bag_text.specs.Lines.{lines_of};
ghost use Rattle.bag_text.specs.Declarations.{IsDeclaration, IsDeclarationFault};
ghost use Rattle.bag_text.specs.Declarations.{is_visible, full_stop};
ghost use Rattle.bag_text.specs.Readers.{declaration_of, field_value, version_in, encoding_in};
ghost use Rattle.bag_text.specs.Readers.{is_version, is_number, is_encoding_name};
ghost use Rattle.bag_text.specs.Fault.{IsOrMemory};

use crate::bagit_txt::Declaration;
use crate::blank::{after_gap, trim_blanks};
use crate::fault::TextFault;
use crate::line::first_line;

/// The version and the encoding that the text of a `bagit.txt` declares (RFC 8493, 2.1.1). It is
/// `Malformed` at the first of lines 1 and 2 that is missing or isn't well-formed, else at line 3
/// if there is one. It takes no memory.
pub fn declaration(text: &[u8]) -> Result<Declaration<'_>, TextFault>
    // What is read is what the text declares.
    ensures found { IfOk result
        (λ read. IsDeclaration text.now read.version.now read.encoding.now) }
    // What a text declares is read.
    ensures only { (version encoding : List ℕ) → IsDeclaration text.now version encoding
        → IsOkAnd result (λ read. (read.version.now ≡ version) × (read.encoding.now ≡ encoding)) }
    // Which line is at fault.
    ensures malformed { IfErr result (λ fault. (line : ℕ) × (fault ≡ TextFault.Malformed line)
        × IsDeclarationFault (lines_of text.now) line) }
    // The same as a function.
    ensures exact { IsOrMemory (λ read. (read.version.now, read.encoding.now)) result
        (declaration_of text.now) }
{
    declared(text)
}

fn declared(text: &[u8]) -> Result<Declaration<'_>, TextFault>
    ensures exact { IsOrMemory (λ read. (read.version.now, read.encoding.now)) result
        (declaration_of text.now) }
    ensures memory { IfErr result (λ fault. fault ≢ TextFault.Memory) }
{
    if text.is_empty() {
        return Err(TextFault::Malformed(1));
    }
    let (first, rest) = first_line(text);
    let Some(version) = version_in(first) else {
        return Err(TextFault::Malformed(1));
    };
    if rest.is_empty() {
        return Err(TextFault::Malformed(2));
    }
    let (second, rest) = first_line(rest);
    let Some(encoding) = encoding_in(second) else {
        return Err(TextFault::Malformed(2));
    };
    if !rest.is_empty() {
        return Err(TextFault::Malformed(3));
    }
    Ok(Declaration { version, encoding })
}

#[tactic(auto, unfolding(crate::specs::Readers::version_in))]
fn version_in(line: &[u8]) -> Option<&[u8]>
    ensures { option_copied result ≡ version_in line.now }
{
    let version = field_value(b"BagIt-Version:", line)?;
    if is_version(version) {
        Some(version)
    } else {
        None
    }
}

#[tactic(auto, unfolding(crate::specs::Readers::encoding_in))]
fn encoding_in(line: &[u8]) -> Option<&[u8]>
    ensures { option_copied result ≡ encoding_in line.now }
{
    let encoding = field_value(b"Tag-File-Character-Encoding:", line)?;
    if is_encoding_name(encoding) {
        Some(encoding)
    } else {
        None
    }
}

/// The value of a line that is the label, spaces or tabs, the value, and maybe spaces and tabs.
#[tactic(auto, unfolding(crate::specs::Readers::field_value))]
fn field_value<'a>(label: &[u8], line: &'a [u8]) -> Option<&'a [u8]>
    ensures { option_copied result ≡ field_value label.now line.now }
{
    let rest = line.strip_prefix(label)?;
    let value = after_gap(rest)?;
    Some(trim_blanks(value))
}

fn is_version(value: &[u8]) -> bool
    ensures { result ≡ is_version value.now }
{
    match first_full_stop(value) {
        Some(place) => {
            let (major, rest) = value.split_at(place);
            is_number(major) && is_number(&rest[1..])
        }
        None => false,
    }
}

fn first_full_stop(value: &[u8]) -> Option<usize>
    ensures { result ≡ position (λ byte. byte == full_stop) value.now }
{
    value.iter().position(|byte| *byte == b'.')
}

fn is_number(digits: &[u8]) -> bool
    ensures { result ≡ is_number digits.now }
{
    !digits.is_empty() && are_digits(digits)
}

fn are_digits(bytes: &[u8]) -> bool
    ensures { result ≡ list_all is_ascii_digit bytes.now }
{
    bytes.iter().all(|byte| byte.is_ascii_digit())
}

fn is_encoding_name(value: &[u8]) -> bool
    ensures { result ≡ is_encoding_name value.now }
{
    !value.is_empty() && are_visible(value)
}

fn are_visible(bytes: &[u8]) -> bool
    ensures { result ≡ list_all is_visible bytes.now }
{
    bytes.iter().all(|byte| (0x21..=0x7E).contains(byte))
}
