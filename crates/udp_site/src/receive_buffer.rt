//! How much a socket keeps of what has come and wasn't taken.

use libc::net::{SO_RCVBUF, SOL_SOCKET, getsockopt, setsockopt};
use std::net::UdpSocket;
use std::os::fd::AsRawFd;

/// How many bytes a site's port asks the system to keep for it: with Linux's default, datagrams of
/// 64 clients were lost.
pub const WANTED_BUFFER: u32 = 4 << 20;

/// An option's value, at the start.
type Value = [u8; 16];

/// Asks for 4 MiB. The system has a limit of its own, and what it gives is no fault.
pub(crate) fn ask_for_buffer(socket: &UdpSocket) {
    let mut value: Value = [0; 16];
    value[..4].copy_from_slice(&WANTED_BUFFER.to_ne_bytes());
    unsafe { setsockopt(socket.as_raw_fd(), SOL_SOCKET, SO_RCVBUF, &value, 4) };
}

/// How many bytes it has, if the system says so. Linux counts twice what was asked for, to have
/// room for what it keeps beside each datagram.
pub(crate) fn buffer_of(socket: &UdpSocket) -> Option<u32> {
    let mut value: Value = [0; 16];
    let mut length = 4;
    let answer = unsafe {
        getsockopt(
            socket.as_raw_fd(),
            SOL_SOCKET,
            SO_RCVBUF,
            &mut value,
            &mut length,
        )
    };
    if answer < 0 {
        return None;
    }
    let mut number = [0; 4];
    number.copy_from_slice(&value[..4]);
    Some(u32::from_ne_bytes(number) / 2)
}
