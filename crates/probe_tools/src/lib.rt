//! Tools of the tests and benches, beside the crate `site`. A script calls the sites of a
//! federation one by one, each over a cell in memory, and hands their datagrams on; and the calls
//! of one site are timed. They are proved safe and have no clauses: what they print is compared.
//!
//! ```
//! let script = input(rt)?;
//! Ok(probe_tools::answers(rt.alloc(), script.as_str(), tries)?)
//! ```
#![tactic(auto)]

mod answer_text;
mod call;
mod calls;
mod cell_text;
mod fault;
mod federation;
mod kind;
mod output;
mod place;
mod push;
mod script;
mod times;
mod tree;
mod words;

pub use call::Tries;
pub use fault::ToolFault;
pub use script::answers;
pub use times::arrivals_text;
