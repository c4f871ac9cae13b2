//! Paths that no file of a tree can have.

/// The most parts that a path has.
const MOST_PARTS: usize = 32;

/// Why a tree has no file of this path: the path is none of a file, or its place is taken.
pub(crate) fn path_fault(path: &str) -> &'static str {
    if has_part(path, "..") {
        "a path has no .."
    } else if has_part(path, ".") {
        "a path has no part ."
    } else if has_part(path, "") {
        "a path has no empty part, and neither begins nor ends with a slash"
    } else if path == "data" {
        "data is the payload's folder"
    } else if MOST_PARTS < path.split('/').count() {
        "a path has at most 32 parts"
    } else {
        "the tree has a file or a folder there, or a file in place of one of its folders"
    }
}

fn has_part(path: &str, part: &str) -> bool {
    path.split('/').any(|it| it == part)
}
