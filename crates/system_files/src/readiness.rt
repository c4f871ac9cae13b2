//! Whether a write would wait.

use libc::net::{POLLOUT, poll};
use libc::types::pollfd;

/// Whether a write of at most 4,096 bytes to this descriptor doesn't wait for a reader, as far as
/// the system says so: a pipe then takes them all. If it can't say, the write will show why.
pub fn takes_now(descriptor: i32) -> bool {
    let mut asked = [pollfd {
        fd: descriptor,
        events: POLLOUT,
        revents: 0,
    }];
    poll(&mut asked, 0) != 0
}
