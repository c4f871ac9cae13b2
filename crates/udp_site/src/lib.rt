//! A site that serves: datagrams of sites and clients come in at a port, and what the site answers
//! is handed out.
//!
//! ```
//! found(
//!     keys,
//!     UdpPort::bind_site(rt, members, site, at, origins, waits),
//! )
//! ```
#![tactic(auto)]

mod batch_intake;
mod batch_loop;
mod contacts;
mod counts;
mod deposits;
mod fault;
mod held_port;
mod idle_turns;
mod line_marks;
mod memory_port;
mod messages;
mod movement;
mod origins;
mod own_datagrams;
mod pace;
mod paced_socket;
mod port;
mod port_fault;
mod port_move;
mod queries;
mod receive_buffer;
mod recover_requests;
mod recoveries;
mod replies;
mod requests;
mod said_lines;
mod seals;
mod sends;
mod serve_loop;
mod server;
mod status;
mod tally;
mod turn;
mod turn_step;
mod udp_port;
mod waits;

pub use batch_loop::serve_batches;
pub use fault::ServeFault;
pub use memory_port::MemoryPort;
pub use movement::is_deposit;
pub use origins::Origins;
pub use port::Port;
pub use port_fault::PortFault;
pub use port_move::PortMove;
pub use receive_buffer::WANTED_BUFFER;
pub use serve_loop::serve;
pub use status::{Counts, Standing, status_answer, status_question};
pub use turn::Turn;
pub use udp_port::UdpPort;
pub use waits::Waits;
