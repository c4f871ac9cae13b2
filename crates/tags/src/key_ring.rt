ghost use Rattle.std.specs.Prelude.{◌≡◌, IfOk, option_map};
ghost use Rattle.tags.specs.Rings.{ring_of, keys_for, is_between_sites, sealed_by};
ghost use Rattle.tags.specs.Rings.{sealed_first, is_sealed_by, opened_by, names_of};
ghost use Rattle.tags.specs.Tags.{text_in};

use crate::tag_key::{TagKey, text_in};
use std::alloc::{AllocError, Global};
use std::marker::Model;

/// The place of the kind's byte in a datagram.
const KIND_PLACE: usize = 3;

/// The greatest kind of a message between sites.
const GREATEST_SITE_KIND: u8 = 15;

/// The keys of messages between sites, and those of clients' datagrams: of either the first is sent
/// with, and all are taken. A clause sees a `Ring`.
#[derive(Drop)]
pub struct KeyRing {
    sites: Vec<TagKey>,
    clients: Vec<TagKey>,
}

impl Model for KeyRing {
    ghost use Rattle.tags.specs.Rings.{Ring, ring_of};

    ghost Value = { Ring };

    ghost view = { λ r. ring_of r.sites.items r.clients.items };
}

impl KeyRing {
    /// These keys: those of sites, and those of clients.
    pub fn new(sites: Vec<TagKey>, clients: Vec<TagKey>) -> KeyRing
        ensures { result ≡ ring_of sites.items clients.items }
    {
        KeyRing { sites, clients }
    }

    /// The keys of messages between sites.
    pub fn sites(&self) -> &[TagKey]
        ensures { result.now ≡ self.now.sites }
    {
        self.sites.as_slice()
    }

    /// The keys of clients' datagrams.
    pub fn clients(&self) -> &[TagKey]
        ensures { result.now ≡ self.now.clients }
    {
        self.clients.as_slice()
    }

    /// The names of the keys that are sent with: that of sites, and that of clients.
    pub fn names(&self) -> Option<(u32, u32)>
        ensures { result ≡ names_of self.now }
    {
        match (self.sites.as_slice(), self.clients.as_slice()) {
            ([sites, ..], [clients, ..]) => Some((sites.name(), clients.name())),
            _ => None,
        }
    }

    // The keys for a datagram.
    #[tactic(auto, unfolding(crate::specs::Rings::keys_for))]
    fn keys_for(&self, datagram: &[u8]) -> &[TagKey]
        ensures { result.now ≡ keys_for self.now datagram.now }
    {
        if is_between_sites(datagram) {
            self.sites.as_slice()
        } else {
            self.clients.as_slice()
        }
    }

    /// The datagram with its tag behind it, by the first key for it, if there is one.
    #[tactic(auto, unfolding(crate::specs::Rings::sealed_by))]
    pub fn sealed(&self, alloc: Global, datagram: &[u8]) -> Result<Option<Vec<u8>>, AllocError>
        ensures { IfOk result (λ sealed.
            option_map (λ bytes. bytes.items) sealed ≡ sealed_by self.now datagram.now) }
    {
        sealed_first(alloc, self.keys_for(datagram), datagram)
    }

    /// The datagram before its tag, where one of the keys for it made the tag.
    #[tactic(auto, unfolding(crate::specs::Rings::opened_by))]
    pub fn opened<'b>(&self, bytes: &'b [u8]) -> Option<&'b [u8]>
        ensures { option_map (λ text. text.now) result ≡ opened_by self.now bytes.now }
    {
        let text = text_in(bytes);
        if self.is_sealed(bytes, text) {
            Some(text)
        } else {
            None
        }
    }

    // Whether one of the keys for the text made the tag behind it.
    #[tactic(auto, unfolding(crate::specs::Rings::is_sealed_by))]
    fn is_sealed(&self, bytes: &[u8], text: &[u8]) -> bool
        requires { text.now ≡ text_in bytes.now }
        ensures { result ≡ is_sealed_by self.now bytes.now }
    {
        self.keys_for(text).iter().any(|key| key.is_sealed(bytes))
    }
}

// The text with its tag, by the first of these keys, if there is one.
fn sealed_first(alloc: Global, keys: &[TagKey], text: &[u8]) -> Result<Option<Vec<u8>>, AllocError>
    ensures { IfOk result (λ sealed.
        option_map (λ bytes. bytes.items) sealed ≡ sealed_first keys.now text.now) }
{
    match keys {
        [] => Ok(None),
        [key, ..] => Ok(Some(key.sealed(alloc, text)?)),
    }
}

// Whether a datagram is a message between sites, by its kind.
#[tactic(auto, unfolding(crate::specs::Rings::is_between_sites))]
pub fn is_between_sites(datagram: &[u8]) -> bool
    ensures { result ≡ is_between_sites datagram.now }
{
    match datagram.get(KIND_PLACE) {
        Some(kind) => 1 <= *kind && *kind <= GREATEST_SITE_KIND,
        None => false,
    }
}
