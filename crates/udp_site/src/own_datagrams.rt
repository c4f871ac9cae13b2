//! What a site says to itself.

ghost use Rattle.std.specs.Prelude.{◌≡◌, ◌≤◌, ◌++◌, ◌∷◌, [], true, false};
ghost use Rattle.std.specs.Prelude.{length, take, IfSome, IfOk, IfErr};
ghost use Rattle.udp_site.specs.inner.OwnDatagrams.{waiting_of};

use addresses::Address;
use std::alloc::{AllocError, Global};
use std::collections::VecDeque;

/// How many datagrams wait at most.
const MOST_WAITING: usize = 4096;

/// The datagrams that a port has handed out for its own address and not taken in yet. They needn't
/// go through the system, which takes longer and may lose them. Nobody else can see them or put one
/// among them, so they have no tag.
#[derive(Drop)]
pub(crate) struct OwnDatagrams {
    pub(crate) address: Address,
    waiting: VecDeque<Vec<u8>>,
}

impl OwnDatagrams {
    /// The port has this address, and nothing waits.
    pub(crate) fn new(alloc: Global, address: Address) -> OwnDatagrams
        ensures address { result.address ≡ address }
        ensures waiting { waiting_of result ≡ [] }
    {
        OwnDatagrams {
            address,
            waiting: VecDeque::new(alloc),
        }
    }

    /// Keeps a datagram that is handed out for this address, if it is the port's own one. The
    /// answer is whether it did: else the datagram is to be sent, as it is where there is no room.
    pub(crate) fn keep(&mut self, alloc: Global, to: Address, bytes: &[u8]) -> bool
        ensures own { result ≡ true → to ≡ self.old.address }
        ensures kept { result ≡ true
            → waiting_of self.new ≡ waiting_of self.old ++ bytes.now ∷ [] }
        ensures same { result ≡ false → waiting_of self.new ≡ waiting_of self.old }
        ensures address { self.new.address ≡ self.old.address }
    {
        if to != self.address || self.waiting.len() >= MOST_WAITING {
            return false;
        }
        self.push(alloc, bytes).is_ok()
    }

    fn push(&mut self, alloc: Global, bytes: &[u8]) -> Result<(), AllocError>
        ensures kept { IfOk result (λ done.
            waiting_of self.new ≡ waiting_of self.old ++ bytes.now ∷ []) }
        ensures same { IfErr result (λ error. waiting_of self.new ≡ waiting_of self.old) }
        ensures address { self.new.address ≡ self.old.address }
    {
        let bytes = bytes.to_vec(alloc)?;
        self.waiting.push_back(bytes)?;
        Ok(())
    }

    /// Takes the first that waits into the buffer: so many bytes.
    pub(crate) fn take(&mut self, buffer: &mut [u8]) -> Option<usize>
        ensures first { IfSome result (λ count.
            waiting_of self.old ≡ take count buffer.new ∷ waiting_of self.new) }
        ensures within { IfSome result (λ count. count ≤ length buffer.new) }
        ensures address { self.new.address ≡ self.old.address }
    {
        let bytes = self.waiting.pop_front()?;
        let count = bytes.len();
        if buffer.len() < count {
            return None;
        }
        let (front, _) = buffer.split_at_mut(count);
        front.copy_from_slice(&bytes);
        Some(count)
    }
}
