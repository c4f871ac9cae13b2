//! What the simulator's federation is made of. A station is a site: it runs over a cell in memory,
//! or its cell is at rest. Each of its calls may end in a fate, such as a stop or a failed device
//! call. And the tables of a run: the declared trees by their numbers, the bags that were seen in
//! deposits, and the datagrams that were sent, with which of their numbers were named. Each call of
//! a table takes a time, amortized, that grows at most with the logarithm of what went before.
//!
//! ```
//! let station = self.stations[place].take();
//! let (station, told) = station.call(call, fate)?;
//! self.stations[place] = station;
//! ```
#![tactic(auto)]

mod datagrams;
mod fates;
mod opened_site;
mod run_state;
mod seen_bags;
mod site_call;
mod station;
mod told;
mod trees;

pub use datagrams::Datagrams;
pub use run_state::RunState;
pub use seen_bags::SeenBags;
pub use site_call::SiteCall;
pub use station::Station;
pub use told::Told;
pub use trees::{Added, Trees};
