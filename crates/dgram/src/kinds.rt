//! The bytes of the kinds of datagrams.

// Between sites.
pub const PREPARE: u8 = 1;

pub const PROMISE: u8 = 2;

pub const ACCEPT: u8 = 3;

pub const ACCEPTED: u8 = 4;

pub const REFUSED: u8 = 5;

pub const ASK: u8 = 6;

pub const KNOWN: u8 = 7;

// From clients.
pub const DEPOSIT: u8 = 16;

pub const QUERY: u8 = 17;

pub const RECOVER: u8 = 18;

// To clients.
pub const DEPOSIT_REPLY: u8 = 32;

pub const QUERY_REPLY: u8 = 33;
