//! Laws of the texts, over every text. Each is the contract of a function that does nothing.

ghost use Rattle.std.specs.Prelude.{◌≡◌, ◌↔◌, ℕ, List, length, All, Ok, Err};
ghost use Rattle.std.specs.Str.{IsUtf8};
ghost use Rattle.bag_text.specs.declared.algorithm.Algorithm.{Algorithm};
ghost use Rattle.bag_text.specs.Algorithms.{digest_len};
ghost use Rattle.bag_text.specs.Lines.{lines_of};
ghost use Rattle.bag_text.specs.Declarations.{IsDeclaration, IsDeclarationFault};
ghost use Rattle.bag_text.specs.ListedFile.{ListedFile};
ghost use Rattle.bag_text.specs.Manifests.{IsManifest, IsFirstMalformed};
ghost use Rattle.bag_text.specs.Paths.{escaped, unescaped};
ghost use Rattle.bag_text.specs.Readers.{declaration_of, entries_of};

/// `entries_of` says what a text lists, so a text lists at most one list of files. If it lists
/// none, `entries_of` says which line is the first malformed one.
pub fn manifest_law()
    ensures listed { (algorithm : Algorithm) (text : List ℕ) (files : List ListedFile)
        → IsManifest algorithm text files ↔ (entries_of algorithm text ≡ Ok files) }
    ensures malformed { (algorithm : Algorithm) (text : List ℕ) (line : ℕ)
        → IsFirstMalformed algorithm (lines_of text) line ↔ (entries_of algorithm text ≡ Err line) }
    ensures one { (algorithm : Algorithm) (text : List ℕ) (files others : List ListedFile)
        → IsManifest algorithm text files → IsManifest algorithm text others → files ≡ others }
{}

/// A listed digest has the bytes of a digest of the manifest's algorithm; a listed path is text.
pub fn listed_law()
    ensures digests { (algorithm : Algorithm) (text : List ℕ) (files : List ListedFile)
        → IsManifest algorithm text files
        → All (λ file. length file.digest ≡ digest_len algorithm) files }
    ensures paths { (algorithm : Algorithm) (text : List ℕ) (files : List ListedFile)
        → IsManifest algorithm text files → All (λ file. IsUtf8 file.path) files }
{}

/// `declaration_of` says what a text declares, or which line is at fault.
pub fn declaration_law()
    ensures declared { (text version encoding : List ℕ)
        → IsDeclaration text version encoding ↔ (declaration_of text ≡ Ok (version, encoding)) }
    ensures malformed { (text : List ℕ) (line : ℕ)
        → IsDeclarationFault (lines_of text) line ↔ (declaration_of text ≡ Err line) }
{}

/// Undoing the escapes of an escaped path gives the path.
pub fn escape_law()
    ensures { (path : List ℕ) → unescaped (escaped path) ≡ path }
{}
