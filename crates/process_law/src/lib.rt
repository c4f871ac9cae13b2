//! From the contract of the call that the program makes to the laws of every history: what a
//! process does that serves a site is an account of its member; and so is what it did until it was
//! killed. A function here does nothing, and its contract is a law.
#![tactic(auto)]

mod examples;
mod law;

pub use examples::a_process_takes_a_deposit;
pub use law::{accounts_go_on, processes_come_so_far, processes_have_accounts};
