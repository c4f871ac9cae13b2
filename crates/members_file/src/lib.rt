//! The members file: the number of a federation, and the place and the weight of each of its sites.
//!
//! ```
//! let Ok(members) = read_members(rt.alloc(), bytes.as_slice()) else {
//!     return None;
//! };
//! let place = usize::from(asked.site).checked_sub(1)?;
//! match members.sites().get(place) {
//!     Some(site) => Some(site.place),
//!     None => None,
//! }
//! ```
#![tactic(auto)]

mod law;
mod line;
mod listed_site;
mod member_sites;
mod members_fault;
mod new_federation;
mod number;
mod place;
mod read;
mod text;

pub use law::{members_files_law, new_numbers_law};
pub use listed_site::ListedSite;
pub use member_sites::MemberSites;
pub use members_fault::MembersFault;
pub use new_federation::new_list;
pub use number::{digest_of, is_listed};
pub use place::{Place, PlaceKind};
pub use read::read_members;
