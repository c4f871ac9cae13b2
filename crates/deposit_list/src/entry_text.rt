//! What is said of each deposit.

ghost use Rattle.std.specs.Prelude.{◌≡◌, IfOk, string_bytes};
ghost use Rattle.lines.specs.declared.notice.Notice.TheVariants.{Registered};
ghost use Rattle.site_client.specs.Answers.{said};
ghost use Rattle.deposit_list.specs.Lines.{refused_line, entry_line};

use crate::entry::Entry;
use crate::standing::Standing;
use catch_up::{known_line, open_line};
use fed_types::{BagId, SiteNo, Slot};
use lines::{Notice, Options, line_by_identity, push_line};
use std::alloc::{AllocError, Global};
use tokens::push_slot;

/// The line of a deposit: `registered N OBJ V HEX`, `refused N CODE OBJ V`, `known OBJ V HEX`,
/// `other OBJ V HEX HEX`, or `open OBJ V` where nothing is known of it.
pub(crate) fn entry_line(alloc: Global, to: SiteNo, entry: &Entry<'_>) -> Result<String, AllocError>
    ensures { IfOk result (λ line. string_bytes line ≡ entry_line to entry.now) }
{
    let slot = &entry.deposit.slot;
    match entry.standing {
        Standing::Unsent | Standing::Unanswered => open_line(alloc, slot),
        Standing::Registered(bag) => registered_line(alloc, to, slot, bag),
        Standing::Refused(code) => refused_line(alloc, to, code, slot),
        Standing::Known(known, bag) => known_line(alloc, slot, known, bag),
    }
}

fn registered_line(alloc: Global, to: SiteNo, slot: &Slot, bag: BagId) -> Result<String, AllocError>
    ensures { IfOk result
        (λ line. string_bytes line ≡ (said (Registered to slot.now bag)).text) }
{
    let options = Options {
        sent: false,
        identities: true,
    };
    let site = to.number();
    let slot = slot.copy(alloc)?;
    let notice = Notice::Registered { site, slot, bag };
    let mut line = String::new(alloc);
    push_line(alloc, &mut line, options, &line_by_identity(notice))?;
    Ok(line)
}

#[tactic(auto, unfolding(crate::specs::Lines::refused_line))]
fn refused_line(alloc: Global, to: SiteNo, code: u8, slot: &Slot) -> Result<String, AllocError>
    ensures { IfOk result (λ line. string_bytes line ≡ refused_line to code slot.now) }
{
    let site = to.number();
    let mut line = String::new(alloc);
    write!(line, "refused {site} {code} ")?;
    push_slot(&mut line, slot)?;
    line.push('\n')?;
    Ok(line)
}
