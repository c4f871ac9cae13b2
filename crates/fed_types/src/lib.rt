//! The types that the sites of a federation share: who they are, how their ballots are ordered,
//! what a slot is, and which sets of sites are quorums.
//!
//! ```
//! voters.add(site);
//! members.is_quorum(voters)
//! ```
#![tactic(auto)]

mod bag_id;
mod ballot;
mod law;
mod limits;
mod members;
mod quorums;
mod site_no;
mod sites;
mod slot;
mod type_fault;
mod vote;
mod voters;

pub use bag_id::{BAG_BYTES, BagId};
pub use ballot::Ballot;
pub use law::{
    bags_are_well_formed, ballots_are_well_formed, limits_law, members_are_well_formed,
    sites_are_well_formed, slots_are_well_formed, votes_are_well_formed,
};
pub use limits::{GREATEST_SITE, GREATEST_WEIGHT, LONGEST_OBJECT, MOST_MEMBERS};
pub use members::Members;
pub use quorums::Quorums;
pub use site_no::SiteNo;
pub use sites::Sites;
pub use slot::Slot;
pub use type_fault::TypeFault;
pub use vote::Vote;
pub use voters::Voters;
