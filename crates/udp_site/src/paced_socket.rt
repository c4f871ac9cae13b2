//! A socket, and how long it is waited at.

ghost use Rattle.std.specs.Prelude.{◌≡◌, ◌≤◌, ◌||◌, ℕ, length, false, IfOk, IfSome};
ghost use Rattle.dgram.specs.Decoded.{message_of};
ghost use Rattle.udp_site.specs.Pace.{begins, idles, takes, hands, awaits_turns, pause};
ghost use Rattle.udp_site.specs.Recoveries.{none_handed_on, is_early, hands_on};
ghost use Rattle.udp_site.specs.Signs.{signal_at};
ghost use Rattle.udp_site.specs.Status.{asks_status};
ghost use Rattle.udp_site.specs.Tallies.{ends_counting};
ghost use Rattle.udp_site.specs.inner.Paced.{EndsWait, WantsCounts};

use crate::contacts::Contacts;
use crate::movement::Signal;
use crate::origins::Origins;
use crate::own_datagrams::OwnDatagrams;
use crate::pace::Pace;
use crate::receive_buffer::{ask_for_buffer, buffer_of};
use crate::recoveries::Recoveries;
use crate::seals::handed_on;
use crate::status::{Counts, is_status_question, status_answer};
use crate::tally::Tally;
use crate::waits::Waits;
use addresses::Address;
use fed_types::SiteNo;
use libc::net::{POLLIN, poll};
use libc::types::pollfd;
use std::alloc::Global;
use std::io::{self, ErrorKind};
use std::net::{Net, UdpSocket};
use std::os::fd::AsRawFd;
use std::time::{Clock, Instant};
use tags::KeyRing;

/// How often a call of the system is made for one datagram that is sent.
const MOST_TRIES: u32 = 100;

/// A socket, with the clock and the pace of its waits.
#[derive(Drop)]
pub(crate) struct PacedSocket<R: Clock + Drop> {
    clock: R,
    /// The moment 0 of the pace.
    made: Instant,
    socket: UdpSocket,
    origins: Origins,
    /// With keys a datagram has a tag between sockets, and none on either side of them.
    keys: Option<KeyRing>,
    pace: Pace,
    recoveries: Recoveries,
    tally: Tally,
}

/// A datagram that was taken.
#[derive(Clone, Copy)]
pub(crate) struct Arrival {
    /// The address from which it came.
    pub(crate) from: Address,
    /// How many bytes of it are in the buffer.
    pub(crate) count: usize,
    /// When it was taken.
    pub(crate) now: u64,
}

/// How waiting ends.
#[derive(Clone, Copy)]
pub(crate) enum End {
    /// A datagram came.
    Taken(Arrival),
    /// The turn that began then is idle now.
    Idle { began: u64, now: u64 },
}

impl<R: Clock + Drop> PacedSocket<R> {
    /// A socket at this address, or at a free port where its port is 0. A first wait of 0 is
    /// refused. That of a site, which has contacts, asks for a larger buffer than others.
    pub(crate) fn bind(
        net: &R,
        at: Address,
        origins: Origins,
        waits: Waits,
        contacts: Option<Contacts>,
    ) -> io::Result<PacedSocket<R>>
    where
        R: Net + Copy,
        ensures pace { IfOk result (λ socket. socket.pace ≡ begins waits contacts) }
        ensures recoveries { IfOk result (λ socket. socket.recoveries ≡ none_handed_on) }
    {
        if waits.first == 0 {
            return Err(ErrorKind::InvalidInput.into());
        }
        let socket = UdpSocket::bind(net, at.to_socket())?;
        // Only `poll` waits: a socket's own timeout is rounded up to the kernel's tick.
        socket.set_nonblocking(true)?;
        if contacts.is_some() {
            ask_for_buffer(&socket);
        }
        Ok(PacedSocket {
            clock: *net,
            made: Instant::now(net)?,
            socket,
            origins,
            keys: None,
            pace: Pace::new(waits, contacts),
            recoveries: Recoveries::new(),
            tally: Tally::new(),
        })
    }

    /// From now on its datagrams have tags by these keys.
    pub(crate) fn seal_with(&mut self, keys: KeyRing)
        ensures pace { self.new.pace ≡ self.old.pace }
        ensures recoveries { self.new.recoveries ≡ self.old.recoveries }
    {
        self.keys = Some(keys);
    }

    /// The names of the keys by which it makes tags, if it does.
    pub(crate) fn key_names(&self) -> Option<(u32, u32)> {
        match &self.keys {
            Some(keys) => keys.names(),
            None => None,
        }
    }

    /// Its address.
    pub(crate) fn address(&self) -> io::Result<Address> {
        Ok(Address::of_socket(self.socket.local_addr()?))
    }

    /// How many bytes of what has come it keeps, if the system says so.
    pub(crate) fn buffer(&self) -> Option<u32> {
        buffer_of(&self.socket)
    }

    /// Waits for a datagram, for as long as the pace says, and takes it into the buffer; or the
    /// turn is idle. Where the pace says so at once, what has come stays where it is. A datagram
    /// from another address is passed over, and so is a client's request to recover that comes too
    /// early. So is a question how the site stands, once it is answered.
    pub(crate) fn wait_for(
        &self,
        alloc: Global,
        own: &mut OwnDatagrams,
        buffer: &mut [u8],
    ) -> io::Result<End>
        ensures ends { IfOk result (EndsWait self.now.pace self.now.recoveries buffer.new) }
        ensures address { own.new.address ≡ own.old.address }
    {
        let began = self.moment()?;
        for _ in 0..u64::MAX {
            let now = self.moment()?;
            let left = self.pace.left(began, now);
            if left == 0 {
                return Ok(End::Idle { began, now });
            }
            if let Some((from, count)) = self.taken_within(left, own, buffer)? {
                if !self.passes_over(alloc, now, from, &buffer[..count])? {
                    return Ok(End::Taken(Arrival { from, count, now }));
                }
            }
        }
        Err(ErrorKind::TimedOut.into())
    }

    /// The same without waiting: the turn is idle where that is due now, or a datagram is taken
    /// that is there. One that is passed over is as none.
    pub(crate) fn look_for(
        &self,
        alloc: Global,
        own: &mut OwnDatagrams,
        buffer: &mut [u8],
    ) -> io::Result<Option<End>>
        ensures ends { IfOk result
            (λ got. IfSome got (EndsWait self.now.pace self.now.recoveries buffer.new)) }
        ensures address { own.new.address ≡ own.old.address }
    {
        let now = self.moment()?;
        if self.pace.left(now, now) == 0 {
            return Ok(Some(End::Idle { began: now, now }));
        }
        let Some((from, count)) = self.taken(own, buffer)? else {
            return Ok(None);
        };
        if self.passes_over(alloc, now, from, &buffer[..count])? {
            return Ok(None);
        }
        Ok(Some(End::Taken(Arrival { from, count, now })))
    }

    /// The turn is idle at this moment.
    pub(crate) fn idles(&mut self, now: u64)
        ensures pace { self.new.pace ≡ idles self.old.pace now }
        ensures recoveries { self.new.recoveries ≡ self.old.recoveries }
    {
        self.pace.idles(now);
    }

    /// So many deposits of the site wait that it hasn't proposed yet.
    pub(crate) fn awaits_turns(&mut self, deposits: u32)
        ensures pace { self.new.pace ≡ awaits_turns self.old.pace deposits }
        ensures recoveries { self.new.recoveries ≡ self.old.recoveries }
    {
        self.pace.awaits_turns(deposits);
    }

    /// Whether it is time to count anew. Then counting begins.
    pub(crate) fn wants_counts(&mut self) -> bool
        ensures pace { self.new.pace ≡ self.old.pace }
        ensures recoveries { self.new.recoveries ≡ self.old.recoveries }
        ensures tally { (now : ℕ) × WantsCounts self.old.tally self.new.tally now result }
    {
        let Ok(now) = self.moment() else {
            return false;
        };
        let is_due = self.tally.is_due(now);
        if is_due {
            self.tally.begins(now);
        }
        is_due
    }

    /// This is what the site counts.
    pub(crate) fn notes_counts(&mut self, counts: Counts)
        ensures pace { self.new.pace ≡ self.old.pace }
        ensures recoveries { self.new.recoveries ≡ self.old.recoveries }
        ensures tally { (now : ℕ) × (self.new.tally ≡ ends_counting self.old.tally counts now) }
    {
        let now = self.moment().unwrap_or(self.tally.began);
        self.tally.ends(counts, now);
    }

    // Whether what was taken isn't for the site: a request to recover that comes too early, or a
    // question that is answered here.
    fn passes_over(&self, alloc: Global, now: u64, from: Address, bytes: &[u8]) -> io::Result<bool>
        ensures { IfOk result (λ passed. passed
            ≡ (is_early self.now.recoveries (pause self.now.pace) now bytes.now
            || asks_status self.now.pace.contacts bytes.now)) }
    {
        if self.is_early(now, bytes) {
            return Ok(true);
        }
        self.answers(alloc, now, from, bytes)
    }

    // Whether this is a question how the site stands. It is answered, if the site has counted yet;
    // an answer that can't be sent is lost.
    fn answers(&self, alloc: Global, now: u64, from: Address, bytes: &[u8]) -> io::Result<bool>
        ensures { IfOk result (λ asks. asks ≡ asks_status self.now.pace.contacts bytes.now) }
    {
        let Some(contacts) = &self.pace.contacts else {
            return Ok(false);
        };
        let (federation, own) = contacts.own();
        if !is_status_question(alloc, federation, bytes)? {
            return Ok(false);
        }
        let _ = self.answer(alloc, now, from, federation, own);
        Ok(true)
    }

    // Says how the site stands, if it has counted yet.
    fn answer(
        &self,
        alloc: Global,
        now: u64,
        to: Address,
        federation: u64,
        own: SiteNo,
    ) -> io::Result<()> {
        let alone = self.pace.alone_for(now);
        let Some(standing) = self.tally.standing(alone) else {
            return Ok(());
        };
        let bytes = status_answer(alloc, federation, own, &standing)?;
        self.send_to(alloc, to, &bytes)
    }

    // Whether this is a request to recover that comes too early.
    fn is_early(&self, now: u64, bytes: &[u8]) -> bool
        ensures { result ≡ is_early self.now.recoveries (pause self.now.pace) now bytes.now }
    {
        self.recoveries.is_early(self.pace.pause(), now, bytes)
    }

    /// What was taken at this moment is handed on to the site.
    pub(crate) fn hands_on(&mut self, now: u64, bytes: &[u8])
        ensures recoveries { self.new.recoveries ≡ hands_on self.old.recoveries now bytes.now }
        ensures pace { self.new.pace ≡ self.old.pace }
    {
        self.recoveries.hands_on(now, bytes);
    }

    /// Whether what was taken may change its pace.
    pub(crate) fn heeds(&self, now: u64, own: Address, from: Address, bytes: &[u8]) -> bool
        ensures { result ≡ false → (federation : ℕ)
            → takes self.now.pace now (signal_at own from (message_of federation bytes.now))
            ≡ self.now.pace }
    {
        self.pace.heeds(now, own, from, bytes)
    }

    /// From what was taken at this moment this is learned.
    pub(crate) fn learns(&mut self, now: u64, signal: Signal)
        ensures pace { self.new.pace ≡ takes self.old.pace now signal }
        ensures recoveries { self.new.recoveries ≡ self.old.recoveries }
    {
        self.pace.takes(now, signal);
    }

    /// A datagram is handed out for an address.
    pub(crate) fn hands(&mut self, own: Address, to: Address, bytes: &[u8])
        ensures pace { self.new.pace ≡ hands self.old.pace own to bytes.now }
        ensures recoveries { self.new.recoveries ≡ self.old.recoveries }
    {
        self.pace.hands(own, to, bytes);
    }

    /// Sends a datagram to this address, with its tag where there are keys. One for which there is
    /// no key is refused.
    pub(crate) fn send_to(&self, alloc: Global, to: Address, bytes: &[u8]) -> io::Result<()> {
        let Some(keys) = &self.keys else {
            return self.send_bytes(to, bytes);
        };
        match keys.sealed(alloc, bytes)? {
            Some(sealed) => self.send_bytes(to, &sealed),
            None => Err(ErrorKind::InvalidInput.into()),
        }
    }

    // Sends these bytes to this address.
    fn send_bytes(&self, to: Address, bytes: &[u8]) -> io::Result<()> {
        for _ in 0..MOST_TRIES {
            match self.socket.send_to(bytes, to.to_socket()) {
                Ok(_) => return Ok(()),
                Err(error) => match error.kind() {
                    // The second is of a datagram that was sent earlier.
                    ErrorKind::Interrupted | ErrorKind::ConnectionRefused => {}
                    _ => return Err(error),
                },
            }
        }
        Err(ErrorKind::Interrupted.into())
    }

    // Takes a datagram that is there. Where none is, it waits for so many microseconds at most
    // until one may be. One from where none is taken is passed over.
    fn taken_within(
        &self,
        micros: u64,
        own: &mut OwnDatagrams,
        buffer: &mut [u8],
    ) -> io::Result<Option<(Address, usize)>>
        ensures within { IfOk result (λ got. IfSome got (λ g. g.1 ≤ length buffer.new)) }
        ensures address { own.new.address ≡ own.old.address }
    {
        match self.taken(own, buffer) {
            Ok(taken) => Ok(taken),
            Err(error) => match error.kind() {
                ErrorKind::WouldBlock => {
                    wait(&self.socket, micros)?;
                    Ok(None)
                }
                // The second is of a datagram that was sent earlier.
                ErrorKind::Interrupted | ErrorKind::ConnectionRefused => Ok(None),
                _ => Err(error),
            },
        }
    }

    // Takes a datagram that is there: what the port said to itself before what comes from others.
    fn taken(
        &self,
        own: &mut OwnDatagrams,
        buffer: &mut [u8],
    ) -> io::Result<Option<(Address, usize)>>
        ensures within { IfOk result (λ got. IfSome got (λ g. g.1 ≤ length buffer.new)) }
        ensures address { own.new.address ≡ own.old.address }
    {
        match own.take(buffer) {
            Some(count) => Ok(Some((own.address, count))),
            None => self.received(buffer),
        }
    }

    // Receives a datagram, if it comes from where one is taken: with keys what is before its tag.
    // There are no bytes of it where the tag isn't right, nor where it doesn't count.
    fn received(&self, buffer: &mut [u8]) -> io::Result<Option<(Address, usize)>>
        ensures { IfOk result (λ got. IfSome got (λ g. g.1 ≤ length buffer.new)) }
    {
        let (count, from) = self.socket.recv_from(buffer)?;
        let from = Address::of_socket(from);
        if self.origins.pass_over(from) {
            return Ok(None);
        }
        let opened = handed_on(&self.keys, &buffer[..count]);
        Ok(Some((from, self.origins.counted(from, &buffer[..opened]))))
    }

    // The moment that it is.
    fn moment(&self) -> io::Result<u64> {
        let micros = self.made.elapsed(&self.clock)?.as_micros();
        Ok(u64::try_from(micros).unwrap_or(u64::MAX))
    }
}

/// Waits for so many microseconds at most, in whole milliseconds, or until a datagram or a signal
/// comes.
fn wait(socket: &UdpSocket, micros: u64) -> io::Result<()> {
    let mut asked = [pollfd {
        fd: socket.as_raw_fd(),
        events: POLLIN,
        revents: 0,
    }];
    let millis = i32::try_from(micros.div_ceil(1000)).unwrap_or(i32::MAX);
    if 0 <= poll(&mut asked, millis) {
        return Ok(());
    }
    match io::Error::from_raw_os_error(os::errno()) {
        error if error.kind() == ErrorKind::Interrupted => Ok(()),
        error => Err(error),
    }
}
