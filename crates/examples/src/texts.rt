//! Texts of a bag, by the laws of `bag_text`.

ghost use Rattle.std.specs.Prelude.{◌≡◌, [], ◌∷◌, ◌++◌, List, codes, length, All};
ghost use Rattle.bag_text.specs.declared.algorithm.Algorithm.TheVariants.{Md5};
ghost use Rattle.bag_text.specs.Lines.{lines_of};
ghost use Rattle.bag_text.specs.Declarations.{IsDeclaration, IsDeclarationFault};
ghost use Rattle.bag_text.specs.ListedFile.{ListedFile};
ghost use Rattle.bag_text.specs.Manifests.{IsManifest, IsFirstMalformed};
ghost use Rattle.bag_text.specs.Paths.{escaped, unescaped};
ghost use Rattle.examples.specs.Examples.{digest_of_abc, manifest_of_abc, malformed_manifest};
ghost use Rattle.examples.specs.Examples.{declaration_1_0, declaration_of_one_line};

use bag_text::{declaration_law, escape_law, listed_law, manifest_law};

/// A manifest with a star and an escape lists the one file.
pub fn lists_one_file()
    ensures { IsManifest Md5 manifest_of_abc
        (record { digest = digest_of_abc; path = codes "data/a%b" } ∷ []) }
{
    manifest_law();
}

/// A line of one digit is malformed; a blank one before it is not.
pub fn is_malformed_in_line_2()
    ensures { IsFirstMalformed Md5 (lines_of malformed_manifest) 2 }
{
    manifest_law();
}

/// Digests by MD5 have 16 bytes.
pub fn digests_have_16_bytes()
    ensures { (files : List ListedFile) → IsManifest Md5 manifest_of_abc files
        → All (λ file. length file.digest ≡ 16) files }
{
    listed_law();
}

/// A declaration without an end of its last line.
pub fn declares_1_0()
    ensures { IsDeclaration declaration_1_0 (codes "1.0") (codes "UTF-8") }
{
    declaration_law();
}

/// A declaration of one line is at fault in the second.
pub fn declares_no_encoding()
    ensures { IsDeclarationFault (lines_of declaration_of_one_line) 2 }
{
    declaration_law();
}

/// An escape is undone once.
pub fn unescapes_once()
    ensures { unescaped (codes "data/%250A") ≡ codes "data/%0A" }
{
    escape_law();
}
