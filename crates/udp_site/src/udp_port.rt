use crate::contacts::Contacts;
use crate::movement::signal_of;
use crate::origins::Origins;
use crate::own_datagrams::OwnDatagrams;
use crate::paced_socket::{Arrival, End, PacedSocket};
use crate::port::Port;
use crate::port_fault::PortFault;
use crate::status::Counts;
use crate::turn::Turn;
use crate::waits::Waits;
use addresses::Address;
use fed_types::{Members, SiteNo};
use std::alloc::{AllocError, Global};
use std::io::{self, ErrorKind};
use std::net::Net;
use std::time::Clock;
use tags::KeyRing;

/// The most bytes of a datagram that are read. A longer one is cut, and is then longer than any
/// message still.
const MOST_BYTES: usize = 1024;

/// A socket, with the clock that ends its waits. No contract says what comes there.
#[derive(Drop)]
pub struct UdpPort<R: Clock + Drop = HostRuntime> {
    alloc: Global,
    federation: u64,
    socket: PacedSocket<R>,
    own: OwnDatagrams,
    failures: u64,
}

impl<R: Clock + Drop> UdpPort<R> {
    ghost use Rattle.std.specs.Prelude.{◌≡◌, ◌≤◌, Option, Some, None, IfOk};
    ghost use Rattle.cell_device.specs.Calls.{one_more};
    ghost use Rattle.udp_site.specs.declared.port_fault.PortFault.TheVariants.{Device};
    ghost use Rattle.udp_site.specs.Contacts.{nobody_heard};
    ghost use Rattle.udp_site.specs.Pace.{begins};
    ghost use Rattle.udp_site.specs.Recoveries.{none_handed_on};
    ghost use Rattle.udp_site.specs.UdpPorts.{failures_of, pace_of, recoveries_of};

    /// A client's port at this address, or a free one of the host where its port is 0. It takes
    /// what comes from these origins, and its pace follows the messages of a federation. It is
    /// refused with `Device` where the first wait is 0 or the system refuses it, or with `Memory`.
    pub fn bind(
        net: &R,
        federation: u64,
        at: Address,
        origins: Origins,
        waits: Waits,
    ) -> Result<UdpPort<R>, PortFault>
    where
        R: Net + AllocGlobal + Copy,
        ensures failures { IfOk result (λ port. failures_of port ≡ 0) }
        ensures pace { IfOk result (λ port. pace_of port ≡ begins waits None) }
        ensures recoveries { IfOk result (λ port. recoveries_of port ≡ none_handed_on) }
    {
        UdpPort::bind_with(net, federation, at, origins, waits, None)
    }

    /// The port of a site of these members. It is refused as that of a client is. Its pace follows
    /// whether a quorum of the members is heard.
    pub fn bind_site(
        net: &R,
        members: Members,
        site: SiteNo,
        at: Address,
        origins: Origins,
        waits: Waits,
    ) -> Result<UdpPort<R>, PortFault>
    where
        R: Net + AllocGlobal + Copy,
        ensures failures { IfOk result (λ port. failures_of port ≡ 0) }
        ensures pace { IfOk result
            (λ port. pace_of port ≡ begins waits (Some (nobody_heard members site))) }
        ensures recoveries { IfOk result (λ port. recoveries_of port ≡ none_handed_on) }
    {
        let contacts = Contacts::new(members, site);
        UdpPort::bind_with(
            net,
            members.federation(),
            at,
            origins,
            waits,
            Some(contacts),
        )
    }

    // The port, with the contacts with which it begins.
    fn bind_with(
        net: &R,
        federation: u64,
        at: Address,
        origins: Origins,
        waits: Waits,
        contacts: Option<Contacts>,
    ) -> Result<UdpPort<R>, PortFault>
    where
        R: Net + AllocGlobal + Copy,
        ensures failures { IfOk result (λ port. failures_of port ≡ 0) }
        ensures pace { IfOk result (λ port. pace_of port ≡ begins waits contacts) }
        ensures recoveries { IfOk result (λ port. recoveries_of port ≡ none_handed_on) }
    {
        match open(net, at, origins, waits, contacts) {
            Ok((socket, own)) => Ok(UdpPort {
                alloc: net.alloc(),
                federation,
                socket,
                own: OwnDatagrams::new(net.alloc(), own),
                failures: 0,
            }),
            Err(error) => Err(fault_of(&error)),
        }
    }

    /// From now on each datagram that leaves through the socket gets a tag by these keys. One that
    /// comes there with a right tag is taken without it, and any other is one of no bytes: so it is
    /// no message, and the pace learns nothing from it.
    pub fn seal_with(&mut self, keys: KeyRing)
        ensures failures { failures_of self.new ≡ failures_of self.old }
        ensures pace { pace_of self.new ≡ pace_of self.old }
        ensures recoveries { recoveries_of self.new ≡ recoveries_of self.old }
    {
        self.socket.seal_with(keys);
    }

    /// The names of the keys by which it makes tags, if it does: that of messages between sites,
    /// and that of clients' datagrams.
    pub fn key_names(&self) -> Option<(u32, u32)> {
        self.socket.key_names()
    }

    /// Its own address.
    pub fn address(&self) -> Address {
        self.own.address
    }

    /// How many bytes of datagrams the system keeps for it until they are taken, if it says so. A
    /// site asks for 4 MiB.
    pub fn buffer(&self) -> Option<u32> {
        self.socket.buffer()
    }

    /// The fault that an error is. A failure is counted.
    fn fail(&mut self, error: &io::Error) -> PortFault
        ensures later { failures_of self.old ≤ failures_of self.new }
        ensures count { result ≡ Device → failures_of self.new ≡ one_more (failures_of self.old) }
        ensures same { ¬ (result ≡ Device) → failures_of self.new ≡ failures_of self.old }
        ensures pace { pace_of self.new ≡ pace_of self.old }
        ensures recoveries { recoveries_of self.new ≡ recoveries_of self.old }
    {
        let fault = fault_of(error);
        if fault == PortFault::Device {
            self.failures = self.failures.saturating_add(1);
        }
        fault
    }
}

impl<R: Clock + Drop> Port for UdpPort<R> {
    ghost use Rattle.std.specs.Prelude.{◌≡◌, None, Ok, IfSome, IfNone};
    ghost use Rattle.cell_device.specs.Calls.{HasCause};
    ghost use Rattle.udp_site.specs.declared.port_fault.PortFault.TheVariants as faults;
    ghost use Rattle.udp_site.specs.Pace.{hands, awaits_turns};
    ghost use Rattle.udp_site.specs.Traffic.{IsReceived, IsTakenIn, IsHanded};
    ghost use Rattle.udp_site.specs.UdpPorts.{failures_of, pace_of, recoveries_of, own_of};
    ghost use Rattle.udp_site.specs.UdpPorts.{IsPaced, IsAsBefore};

    ghost failures = { failures_of };

    fn receive(&mut self) -> Result<Turn, PortFault>
        ensures received { IsReceived None None result }
        ensures cause { HasCause faults.Device (failures_of self.old)
            (failures_of self.new) result }
        ensures paced { IsPaced self.old self.new result }
    {
        match turn_at(self.alloc, self.federation, &mut self.own, &mut self.socket) {
            Ok(turn) => Ok(turn),
            Err(error) => Err(self.fail(&error)),
        }
    }

    // Where the system fails, `receive` says so if that goes on.
    fn try_receive(&mut self) -> Option<Turn>
        ensures taken { IsTakenIn None None result }
        ensures failures { failures_of self.new ≡ failures_of self.old }
        ensures paced { IfSome result (λ turn. IsPaced self.old self.new (Ok turn)) }
        ensures same { IfNone result (IsAsBefore self.old self.new) }
    {
        turn_now(self.alloc, self.federation, &mut self.own, &mut self.socket).unwrap_or(None)
    }

    fn send(&mut self, to: Address, bytes: &[u8]) -> Result<(), PortFault>
        ensures handed { IsHanded None None (to, bytes.now) result }
        ensures cause { HasCause faults.Device (failures_of self.old)
            (failures_of self.new) result }
        ensures paced { pace_of self.new
            ≡ hands (pace_of self.old) (own_of self.old) to bytes.now }
        ensures recoveries { recoveries_of self.new ≡ recoveries_of self.old }
    {
        self.socket.hands(self.own.address, to, bytes);
        if self.own.keep(self.alloc, to, bytes) {
            return Ok(());
        }
        match self.socket.send_to(self.alloc, to, bytes) {
            Ok(()) => Ok(()),
            Err(error) => Err(self.fail(&error)),
        }
    }

    fn awaits_turns(&mut self, deposits: u32)
        ensures failures { failures_of self.new ≡ failures_of self.old }
        ensures paced { pace_of self.new ≡ awaits_turns (pace_of self.old) deposits }
        ensures recoveries { recoveries_of self.new ≡ recoveries_of self.old }
    {
        self.socket.awaits_turns(deposits);
    }

    fn wants_counts(&mut self) -> bool
        ensures failures { failures_of self.new ≡ failures_of self.old }
        ensures same { IsAsBefore self.old self.new }
    {
        self.socket.wants_counts()
    }

    fn notes_counts(&mut self, counts: Counts)
        ensures failures { failures_of self.new ≡ failures_of self.old }
        ensures same { IsAsBefore self.old self.new }
    {
        self.socket.notes_counts(counts);
    }
}

ghost use Rattle.std.specs.Prelude.{◌≡◌, IfOk, OnOk, OnErr, IfSome, IfNone};
ghost use Rattle.dgram.specs.Decoded.{message_of};
ghost use Rattle.udp_site.specs.Pace.{begins, takes};
ghost use Rattle.udp_site.specs.Recoveries.{none_handed_on};
ghost use Rattle.udp_site.specs.Signs.{signal_at};
ghost use Rattle.udp_site.specs.inner.Paced.{EndsWait, TurnIsPaced};

/// A socket at this address, and its own address.
fn open<R: Net + Clock + Drop + Copy>(
    net: &R,
    at: Address,
    origins: Origins,
    waits: Waits,
    contacts: Option<Contacts>,
) -> io::Result<(PacedSocket<R>, Address)>
    ensures pace { IfOk result (λ made. made.0.pace ≡ begins waits contacts) }
    ensures recoveries { IfOk result (λ made. made.0.recoveries ≡ none_handed_on) }
{
    let socket = PacedSocket::bind(net, at, origins, waits, contacts)?;
    let own = socket.address()?;
    Ok((socket, own))
}

/// Waits for a datagram as long as the pace of the socket says.
fn turn_at<R: Clock + Drop>(
    alloc: Global,
    federation: u64,
    own: &mut OwnDatagrams,
    socket: &mut PacedSocket<R>,
) -> io::Result<Turn>
    ensures paced { IfOk result (TurnIsPaced federation own.old.address socket.old.pace
        socket.new.pace
        socket.old.recoveries socket.new.recoveries) }
    ensures address { own.new.address ≡ own.old.address }
    ensures same { OnErr result (socket.new.pace ≡ socket.old.pace) }
    ensures recoveries { OnErr result (socket.new.recoveries ≡ socket.old.recoveries) }
{
    // There is room before a datagram is taken, so that none is lost for want of it.
    let mut bytes = vec![in alloc; 0; MOST_BYTES]?;
    let address = own.address;
    let end = socket.wait_for(alloc, own, &mut bytes)?;
    turn_of(alloc, federation, address, socket, end, bytes)
}

/// The same without waiting, if a turn is there.
fn turn_now<R: Clock + Drop>(
    alloc: Global,
    federation: u64,
    own: &mut OwnDatagrams,
    socket: &mut PacedSocket<R>,
) -> io::Result<Option<Turn>>
    ensures paced { IfOk result (λ got. IfSome got (λ turn. TurnIsPaced federation own.old.address
        socket.old.pace socket.new.pace socket.old.recoveries socket.new.recoveries turn)) }
    ensures address { own.new.address ≡ own.old.address }
    ensures same { IfOk result (λ got. IfNone got (socket.new.pace ≡ socket.old.pace)) }
    ensures recoveries { IfOk result
        (λ got. IfNone got (socket.new.recoveries ≡ socket.old.recoveries)) }
    ensures failed { OnErr result ((socket.new.pace ≡ socket.old.pace)
        × (socket.new.recoveries ≡ socket.old.recoveries)) }
{
    // There is room before a datagram is taken, so that none is lost for want of it.
    let mut bytes = vec![in alloc; 0; MOST_BYTES]?;
    let address = own.address;
    let Some(end) = socket.look_for(alloc, own, &mut bytes)? else {
        return Ok(None);
    };
    let turn = turn_of(alloc, federation, address, socket, end, bytes)?;
    Ok(Some(turn))
}

/// The turn that ends so, with what was taken into the buffer.
fn turn_of<R: Clock + Drop>(
    alloc: Global,
    federation: u64,
    own: Address,
    socket: &mut PacedSocket<R>,
    end: End,
    mut bytes: Vec<u8>,
) -> io::Result<Turn>
    requires ends { EndsWait socket.old.pace socket.old.recoveries bytes.items end }
    ensures paced { IfOk result (TurnIsPaced federation own socket.old.pace socket.new.pace
        socket.old.recoveries socket.new.recoveries) }
    ensures same { OnErr result (socket.new.pace ≡ socket.old.pace) }
    ensures recoveries { OnErr result (socket.new.recoveries ≡ socket.old.recoveries) }
{
    match end {
        End::Taken(Arrival { from, count, now }) => {
            bytes.truncate(count);
            learn(alloc, federation, own, socket, now, from, &bytes)?;
            socket.hands_on(now, &bytes);
            Ok(Turn::Got(from, bytes))
        }
        End::Idle { now, .. } => {
            socket.idles(now);
            Ok(Turn::Idle)
        }
    }
}

/// The pace of the socket learns from what came at this moment from an address. A datagram is
/// decoded once more only where that may change something.
fn learn<R: Clock + Drop>(
    alloc: Global,
    federation: u64,
    own: Address,
    socket: &mut PacedSocket<R>,
    now: u64,
    from: Address,
    bytes: &[u8],
) -> Result<(), AllocError>
    ensures learned { OnOk result (socket.new.pace ≡ takes socket.old.pace now
        (signal_at own from (message_of federation bytes.now))) }
    ensures same { OnErr result (socket.new.pace ≡ socket.old.pace) }
    ensures recoveries { socket.new.recoveries ≡ socket.old.recoveries }
{
    if socket.heeds(now, own, from, bytes) {
        let signal = signal_of(alloc, federation, own, from, bytes)?;
        socket.learns(now, signal);
    }
    Ok(())
}

/// The fault that an error of the system is.
fn fault_of(error: &io::Error) -> PortFault {
    if error.kind() == ErrorKind::OutOfMemory {
        PortFault::Memory
    } else {
        PortFault::Device
    }
}
