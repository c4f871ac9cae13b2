ghost use Rattle.std.specs.Prelude.{◌≡◌, length};
ghost use Rattle.bag_tree.specs.Path.{parts_of, is_unsafe_part, is_unsafe, is_below, is_payload};
ghost use Rattle.bag_tree.specs.Path.{is_text_named, is_read_text};

/// The payload's folder, relative to the bag.
pub const PAYLOAD_FOLDER: &str = "data";

/// A path has at most this many parts.
pub const DEEPEST_PATH: usize = 32;

/// Whether a path has a part that names no entry of its own folder: an empty one, `.` or `..`.
/// A path that begins or ends with a slash has an empty part, and so has the path of no bytes.
pub fn has_unsafe_part(path: &[u8]) -> bool
    ensures { result ≡ is_unsafe path.now }
{
    path.split(|b| *b == b'/').any(|part| is_special(part))
}

/// Whether a path of the tree is one of the texts that describe a bag and are read whole:
/// `bagit.txt`, and `manifest-X.txt` and `tagmanifest-X.txt` for any X, at the tree's own level.
pub fn is_read_text(path: &[u8]) -> bool
    ensures { result ≡ is_read_text path.now }
{
    part_count(path) == 1
        && (path == b"bagit.txt".as_slice()
            || is_text_named(b"manifest-", path)
            || is_text_named(b"tagmanifest-", path))
}

/// Whether a path lies in the payload's folder `data`.
pub fn is_payload(path: &[u8]) -> bool
    ensures { result ≡ is_payload path.now }
{
    lies_below(b"data", path)
}

/// Whether a path begins with this text and ends with `.txt`.
pub fn is_text_named(prefix: &[u8], path: &[u8]) -> bool
    ensures { result ≡ is_text_named prefix.now path.now }
{
    path.starts_with(prefix) && path.ends_with(b".txt")
}

fn is_special(part: &[u8]) -> bool
    ensures { result ≡ is_unsafe_part part.now }
{
    matches!(part, [] | [b'.'] | [b'.', b'.'])
}

/// How many parts a path has: one more than it has slashes.
pub fn part_count(path: &[u8]) -> usize
    ensures { result ≡ length (parts_of path.now) }
{
    path.split(|b| *b == b'/').count()
}

/// Whether a path lies below a folder.
#[tactic(auto, using(crate::proofs::Below::is_below_split, std::proofs::lemmas::Bool::Decides::nat_tests))]
pub(crate) fn lies_below(folder: &[u8], path: &[u8]) -> bool
    ensures { result ≡ is_below folder.now path.now }
{
    if path.len() <= folder.len() || !path.starts_with(folder) {
        return false;
    }
    path[folder.len()] == b'/'
}
