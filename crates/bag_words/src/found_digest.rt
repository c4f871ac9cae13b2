//! The digest that a file has, beside the one that is listed.

use crate::bag::{ALGORITHMS, Bag};
use crate::finding::Finding;
use bag_text::Algorithm;
use bag_tree::{Algorithms, Digester};
use code_words::push_name;
use std::alloc::AllocError;
use std::fs::File;
use std::io::{ErrorKind, Read};

/// A file is read anew for its digest, up to this many pieces: a GiB.
const MOST_PIECES: u32 = 16384;

const PIECE: usize = 65536;

/// Appends the file, and both digests.
pub(crate) fn push_digests(
    text: &mut String,
    bag: &Bag<'_, '_>,
    finding: &Finding<'_>,
    line: &[u8],
) -> Result<(), AllocError> {
    push_name(text, finding.path.as_str())?;
    let name = finding.name;
    let number = finding.line;
    let algorithm = finding.algorithm;
    write!(
        text,
        " isn't as listed: {name} line {number} lists the {algorithm} "
    )?;
    push_digits(text, line)?;
    match digest_of(bag, finding.path.as_str(), algorithm) {
        Some(digest) => {
            let digits = hex::encode(bag.rt.alloc(), digest.as_slice())?;
            text.push_str(", found is ")?;
            text.push_str(digits.as_str())
        }
        None => text.push_str(", found is another"),
    }
}

// Appends the digits with which a line begins.
fn push_digits(text: &mut String, line: &[u8]) -> Result<(), AllocError> {
    for byte in line {
        if !byte.is_ascii_hexdigit() {
            break;
        }
        text.push(char::from(byte.to_ascii_lowercase()))?;
    }
    Ok(())
}

// The digest of the file, which is read anew; none where it is too long or can't be read.
fn digest_of(bag: &Bag<'_, '_>, path: &str, algorithm: &str) -> Option<Vec<u8>> {
    let algorithm = ALGORITHMS.into_iter().find(|it| it.name() == algorithm)?;
    let folder = bag.folder;
    let Ok(path) = format!(in bag.rt.alloc(); "{folder}/{path}") else {
        return None;
    };
    let Ok(mut file) = File::open(bag.rt, path.as_str()) else {
        return None;
    };
    digest_in(bag, &mut file, algorithm)
}

fn digest_in(bag: &Bag<'_, '_>, file: &mut File, algorithm: Algorithm) -> Option<Vec<u8>> {
    let mut digester = Digester::new(only(algorithm));
    let mut piece = Vec::from_elem(bag.rt.alloc(), 0u8, PIECE).ok()?;
    for _ in 0..MOST_PIECES {
        match file.read(&mut piece) {
            Ok(0) => {
                return digester
                    .finish()
                    .by(algorithm)
                    .and_then(|digest| Vec::from_slice(bag.rt.alloc(), digest).ok());
            }
            Ok(count) => digester.feed(piece.get(..count)?),
            Err(error) if error.kind() == ErrorKind::Interrupted => {}
            Err(_) => return None,
        }
    }
    None
}

fn only(algorithm: Algorithm) -> Algorithms {
    Algorithms {
        md5: algorithm == Algorithm::Md5,
        sha1: algorithm == Algorithm::Sha1,
        sha256: algorithm == Algorithm::Sha256,
        sha512: algorithm == Algorithm::Sha512,
    }
}
