ghost use Rattle.std.specs.Prelude.{◌≡◌, ◌<◌, ◌↔◌, ℕ, List, length, string_bytes};
ghost use Rattle.std.specs.Prelude.{IsSome, IfSome};

use std::marker::Model;

/// A file's path as a schedule gives it: a text of at least one byte. A clause sees its bytes.
#[derive(Debug, Drop)]
pub struct FilePath {
    path: String,
}

impl Model for FilePath {
    ghost use Rattle.std.specs.Prelude.{ℕ, List, ◌<◌, length, string_bytes};

    ghost Value = { List ℕ };

    ghost view = { λ p. string_bytes p.path };

    ghost invariant = { λ p. 0 < length (string_bytes p.path) };
}

impl FilePath {
    /// The path, unless it is empty.
    pub fn new(path: String) -> Option<FilePath>
        ensures some { IsSome result ↔ (0 < length (string_bytes path)) }
        ensures value { IfSome result (λ p. p ≡ string_bytes path) }
    {
        if path.is_empty() {
            return None;
        }
        Some(FilePath { path })
    }

    /// The path, at least one byte.
    pub fn as_str(&self) -> &str
        ensures value { result.now ≡ self.now }
        ensures in_range { 0 < length result.now }
    {
        self.path.as_str()
    }
}
