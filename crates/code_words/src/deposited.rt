//! The folder of a deposit, as its site finds it.

ghost use Rattle.std.specs.Prelude.{◌≡◌, ◌++◌, OnOk, string_bytes};
ghost use Rattle.code_words.specs.Names.{deposited, read_from};

use crate::name::push_name;
use std::alloc::AllocError;

/// Appends the folder of a deposit, who reads it and from where, and a colon.
#[tactic(auto, unfolding(crate::specs::Names::deposited), using(std::proofs::Common::append_assoc))]
pub fn push_deposited(text: &mut String, site: u8, path: &str) -> Result<(), AllocError>
    ensures { OnOk result
        (string_bytes text.new ≡ string_bytes text.old ++ deposited site path.now) }
{
    push_name(text, path)?;
    write!(text, ", as site {site}")?;
    text.push_str(read_from(path))
}

fn read_from(path: &str) -> &'static str
    ensures { result.now ≡ read_from path.now }
{
    if path.as_bytes().starts_with(b"/") {
        " reads it: "
    } else {
        " reads it from its own folder, or that of its option --bags: "
    }
}
