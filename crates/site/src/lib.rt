//! A site of a federation: the acceptor, proposer and learner of every slot over one book, which
//! keeps its word through a crash. Each call commits its one record first, and then hands out its
//! datagrams.
//!
//! Many calls can share one sync: `Site::begin_batch` makes the site a `Batch`, which has the same
//! calls. Each sees the records of those before it, synced or not. Its answer, or the reply to a
//! query, is sealed: no code can take it before `Batch::sync` writes all records that wait in one
//! append, syncs once, and hands out all answers in order. If the device fails no answer is handed
//! out, and the cell has to be opened again. If a call finds no memory, its answer says so; if
//! there is none to seal an answer, the call is refused and changes nothing. `Site::part` gives the
//! site and its cell apart, for a caller that keeps back by itself what the calls answer.
//!
//! ```
//! match Site::open(alloc, cell, Owner { members, site }) {
//!     Ok(site) => serve_as(alloc, site, port, folders, service, output),
//!     Err((_, fault)) => write_numbered(output, open_line(alloc, fault)),
//! }
//! ```
#![tactic(auto)]

mod answer;
mod arrivals;
mod batch;
mod begun_ballot;
mod commit;
mod datagrams;
mod deposits;
mod fault;
mod law;
mod member_site;
mod sealed_answer;
mod tables;
mod waiting_site;

pub use answer::{Answer, Line, Outgoing, Reply};
pub use batch::Batch;
pub use fault::SiteFault;
pub use law::a_site_reports_one_bag;
pub use member_site::Site;
pub use sealed_answer::SealedAnswer;
pub use tables::Tables;
pub use waiting_site::Synced;
