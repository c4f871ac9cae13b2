//! What is wrong with a word that has to be the place of a site.

ghost use Rattle.std.specs.Prelude.{◌≡◌, ◌≤◌, ◌==◌, not, ◌∷◌, ◌++◌, [], length, OnOk, string_bytes};
ghost use Rattle.std.specs.Char.{is_ascii_alphabetic};
ghost use Rattle.std.specs.List.{suffix_len, before_last, list_any};
ghost use Rattle.code_words.specs.Words.{found_text};
ghost use Rattle.code_words.specs.PlaceWords.{AppendsReason, IsMeantBy, port_in, host_words};
ghost use Rattle.code_words.specs.PlaceWords.{ipv6_words};
ghost use Rattle.code_words.specs.PlaceWords.{socket_words, address_words, form_words, has_zone};
ghost use Rattle.code_words.specs.PlaceWords.{host_kind_words, is_unspecified, is_multicast};
ghost use Rattle.code_words.specs.PlaceWords.{other_words, is_name, is_v4};

use crate::kind::Kind;
use crate::schedule_command::push_wrong;
use crate::word_text::push_found;
use addresses::Address;
use std::alloc::AllocError;
use std::net::{IpAddr, Ipv6Addr, SocketAddr};
use tokens::parse_number;

/// Appends why a word is neither a port nor an address that a members file takes: for an address in
/// another form, which form it takes.
pub fn push_place_words(text: &mut String, word: &[u8]) -> Result<(), AllocError>
    ensures { OnOk result (AppendsReason word.now (string_bytes text.old) (string_bytes text.new)) }
{
    if let Ok(socket) = SocketAddr::parse_ascii(word) {
        return push_socket(text, word, socket);
    }
    match IpAddr::parse_ascii(word) {
        Ok(host) => push_host(text, word, host, host_and_port(word)),
        Err(_) => push_other(text, word),
    }
}

// ---- an address and a port

#[tactic(auto, using(std::proofs::Common::append_assoc))]
fn push_socket(text: &mut String, word: &[u8], socket: SocketAddr) -> Result<(), AllocError>
    ensures { OnOk result (string_bytes text.new
        ≡ string_bytes text.old ++ (found_text (word.now ∷ []) ++ socket_words socket)) }
{
    push_found(text, &[word])?;
    push_socket_words(text, socket)
}

// Appends why an address and a port can't be taken as they stand.
#[tactic(auto, unfolding(crate::specs::PlaceWords::socket_words))]
fn push_socket_words(text: &mut String, socket: SocketAddr) -> Result<(), AllocError>
    ensures { OnOk result (string_bytes text.new ≡ string_bytes text.old ++ socket_words socket) }
{
    if has_zone(socket) {
        text.push_str(" has a zone, which says nothing at another machine; leave it out")
    } else {
        push_address_words(text, socket, Address::of_socket(socket))
    }
}

fn push_address_words(
    text: &mut String,
    socket: SocketAddr,
    address: Address,
) -> Result<(), AllocError>
    ensures { OnOk result (string_bytes text.new
        ≡ string_bytes text.old ++ address_words socket address) }
{
    if address.port() == 0 {
        text.push_str(" has port 0; a port is 1 to 65535")
    } else if address.is_listable() {
        push_form(text, socket, address)
    } else {
        push_host_kind(text, address.to_socket().ip())
    }
}

// Appends the form of an address.
fn push_form(text: &mut String, socket: SocketAddr, address: Address) -> Result<(), AllocError>
    ensures { OnOk result (string_bytes text.new
        ≡ string_bytes text.old ++ form_words socket address) }
{
    if address.is_ipv4() && !is_v4(socket) {
        write!(text, " is an address of IPv4, mapped; write {address}")
    } else {
        write!(
            text,
            " isn't in the one form of this address; write {address}"
        )
    }
}

fn is_v4(socket: SocketAddr) -> bool
    ensures { result ≡ is_v4 socket }
{
    match socket {
        SocketAddr::V4(_) => true,
        SocketAddr::V6(_) => false,
    }
}

fn has_zone(socket: SocketAddr) -> bool
    ensures { result ≡ has_zone socket }
{
    match socket {
        SocketAddr::V4(_) => false,
        SocketAddr::V6(socket) => socket.scope_id() != 0,
    }
}

// Appends of which kind a host's address is that isn't one host's.
fn push_host_kind(text: &mut String, host: IpAddr) -> Result<(), AllocError>
    ensures { OnOk result (string_bytes text.new ≡ string_bytes text.old ++ host_kind_words host) }
{
    if is_unspecified(host) {
        text.push_str(" has the unspecified address, which is no host's")
    } else if is_multicast(host) {
        text.push_str(" has a multicast address, which is no one host's")
    } else {
        text.push_str(" has the broadcast address, which is no one host's")
    }
}

// Whether this is `::` or 0.0.0.0.
fn is_unspecified(host: IpAddr) -> bool
    ensures { result ≡ is_unspecified host }
{
    match host {
        IpAddr::V4(host) => host.to_bits() == 0,
        IpAddr::V6(host) => host.to_bits() == 0,
    }
}

// Whether this is in 224.0.0.0/4 or in ff00::/8.
fn is_multicast(host: IpAddr) -> bool
    ensures { result ≡ is_multicast host }
{
    match host {
        IpAddr::V4(host) => host.to_bits() / 0x1000_0000 == 0b1110,
        IpAddr::V6(host) => host.to_bits() / 0x100_0000_0000_0000_0000_0000_0000_0000 == 0xff,
    }
}

// ---- a host without a port

#[tactic(auto, using(std::proofs::Common::append_assoc))]
fn push_host(
    text: &mut String,
    word: &[u8],
    host: IpAddr,
    meant: Option<(IpAddr, u16)>,
) -> Result<(), AllocError>
    ensures { OnOk result (string_bytes text.new
        ≡ string_bytes text.old ++ (found_text (word.now ∷ []) ++ host_words host meant)) }
{
    push_found(text, &[word])?;
    push_host_words(text, host, meant)
}

// Appends how a host's address is written with a port.
fn push_host_words(
    text: &mut String,
    host: IpAddr,
    meant: Option<(IpAddr, u16)>,
) -> Result<(), AllocError>
    ensures { OnOk result (string_bytes text.new ≡ string_bytes text.old ++ host_words host meant) }
{
    match host {
        IpAddr::V4(host) => write!(text, " has no port; write {host}:PORT"),
        IpAddr::V6(host) => push_ipv6_words(text, host, meant),
    }
}

fn push_ipv6_words(
    text: &mut String,
    host: Ipv6Addr,
    meant: Option<(IpAddr, u16)>,
) -> Result<(), AllocError>
    ensures { OnOk result (string_bytes text.new ≡ string_bytes text.old ++ ipv6_words host meant) }
{
    match meant {
        Some((front, port)) => write!(
            text,
            " isn't in brackets; write [{front}]:{port}, or [{host}]:PORT if all of it is the host"
        ),
        None => write!(text, " has no port; write [{host}]:PORT"),
    }
}

// The host and the port that an address of IPv6 without brackets may be meant to have.
fn host_and_port(word: &[u8]) -> Option<(IpAddr, u16)>
    ensures { IsMeantBy word.now result }
{
    if !word.contains(&b':') {
        return None;
    }
    match IpAddr::parse_ascii(before_colon(word)) {
        Ok(host) => match port_in(word) {
            Some(port) => Some((host, port)),
            None => None,
        },
        Err(_) => None,
    }
}

// What stands before the last colon.
fn before_colon(word: &[u8]) -> &[u8]
    ensures { result.now ≡ before_last (λ byte. byte == 58) word.now }
{
    let after = count_after_colon(word);
    &word[..(word.len() - after).saturating_sub(1)]
}

// The port after it.
fn port_in(word: &[u8]) -> Option<u16>
    ensures { result ≡ port_in word.now }
{
    let after = count_after_colon(word);
    let number = match &word[word.len() - after..] {
        [b'+', digits @ ..] => parse_number(0, 65535, digits),
        digits => parse_number(0, 65535, digits),
    };
    match number {
        Some(port) => Some(port as u16),
        None => None,
    }
}

// How many bytes stand after the last colon.
fn count_after_colon(word: &[u8]) -> usize
    ensures value { result ≡ suffix_len (λ byte. not (byte == 58)) word.now }
    ensures within { result ≤ length word.now }
{
    word.iter().rev().take_while(|byte| **byte != b':').count()
}

// ---- any other word

#[tactic(auto, using(std::proofs::Common::append_assoc))]
fn push_other(text: &mut String, word: &[u8]) -> Result<(), AllocError>
    ensures { OnOk result (string_bytes text.new
        ≡ string_bytes text.old ++ (found_text (word.now ∷ []) ++ other_words word.now)) }
{
    if !word.contains(&b':') && !word.contains(&b'.') {
        return push_wrong(text, Kind::Port, word);
    }
    push_found(text, &[word])?;
    if is_name(word) {
        text.push_str(" names a host, and a name may lead elsewhere tomorrow; give its address")
    } else {
        text.push_str(" isn't an address and a port, as 192.0.2.1:4001 or [2001:db8::1]:4001")
    }
}

// Whether a word seems to be a host's name; an address of IPv6 is in brackets.
fn is_name(word: &[u8]) -> bool
    ensures { result ≡ is_name word.now }
{
    !word.starts_with(b"[") && has_letter(word)
}

fn has_letter(word: &[u8]) -> bool
    ensures { result ≡ list_any is_ascii_alphabetic word.now }
{
    word.iter().any(|byte| byte.is_ascii_alphabetic())
}
