use crate::port::Port;
use crate::port_fault::PortFault;
use crate::port_move::PortMove;
use crate::turn::Turn;
use addresses::Address;
use std::alloc::{AllocError, Global};
use std::collections::VecDeque;

/// What one turn of waiting is to bring.
#[derive(Drop)]
enum Arrival {
    Idle,
    /// A datagram, from this address.
    Got(Address, Vec<u8>),
    /// The receive fails.
    Failure,
}

/// A port in memory: it brings what it was given to bring, turn by turn, and then nothing; and it
/// keeps all that it brought and was handed, and which receives failed.
#[derive(Drop)]
pub struct MemoryPort {
    alloc: Global,
    arrivals: VecDeque<Arrival>,
    sends_fail: bool,
    moves: Vec<PortMove>,
    failures: u64,
}

impl MemoryPort {
    ghost use Rattle.std.specs.Prelude.{◌≡◌, ◌≤◌, [], ◌∷◌, ◌++◌, map, Some, None, false};
    ghost use Rattle.std.specs.Prelude.{OnOk, OnErr, IfOk, IfSome};
    ghost use Rattle.udp_site.specs.declared.port_fault.PortFault.TheVariants.{Device};
    ghost use Rattle.cell_device.specs.Calls.{one_more};
    ghost use Rattle.udp_site.specs.Traffic.{Nothing, From};
    ghost use Rattle.udp_site.specs.MemoryPorts.{coming_of, fails_of, traffic_of, failures_of};
    ghost use Rattle.udp_site.specs.MemoryPorts.{move_of, WillBring};
    ghost use Rattle.udp_site.specs.inner.Arrivals.{IsNext};

    /// A port to which nothing comes, and whose sends don't fail.
    pub fn new(alloc: Global) -> MemoryPort
        ensures coming { coming_of result ≡ [] }
        ensures traffic { traffic_of result ≡ [] }
        ensures fails { fails_of result ≡ false }
        ensures failures { failures_of result ≡ 0 }
    {
        MemoryPort {
            alloc,
            arrivals: VecDeque::new(alloc),
            sends_fail: false,
            moves: Vec::new(alloc),
            failures: 0,
        }
    }

    /// After all that is to come, a datagram comes from this address.
    pub fn bring(&mut self, from: Address, bytes: &[u8]) -> Result<(), AllocError>
        ensures { WillBring self.old self.new (Some (From from bytes.now)) result }
    {
        let bytes = bytes.to_vec(self.alloc)?;
        self.arrivals.push_back(Arrival::Got(from, bytes))?;
        Ok(())
    }

    /// After all that is to come, nothing comes for one turn.
    pub fn idle(&mut self) -> Result<(), AllocError>
        ensures { WillBring self.old self.new (Some Nothing) result }
    {
        self.arrivals.push_back(Arrival::Idle)?;
        Ok(())
    }

    /// After all that is to come, one receive fails.
    pub fn fail_receive(&mut self) -> Result<(), AllocError>
        ensures { WillBring self.old self.new None result }
    {
        self.arrivals.push_back(Arrival::Failure)?;
        Ok(())
    }

    /// From now on every send fails with `Device`, or none does.
    pub fn fail_sends(&mut self, fail: bool)
        ensures fails { fails_of self.new ≡ fail }
        ensures coming { coming_of self.new ≡ coming_of self.old }
        ensures traffic { traffic_of self.new ≡ traffic_of self.old }
        ensures failures { failures_of self.new ≡ failures_of self.old }
    {
        self.sends_fail = fail;
    }

    /// All that it brought and was handed, and which receives failed, in order.
    pub fn moves(&self) -> &[PortMove]
        ensures { map move_of result.now ≡ traffic_of self.now }
    {
        self.moves.as_slice()
    }

    /// How often a call has failed, at most 2 ^ 64 - 1.
    pub fn failures(&self) -> u64
        ensures { result ≡ failures_of self.now }
    {
        self.failures
    }

    /// What the next turn is to bring, twice; nothing, where the receive is to fail.
    fn next(&self) -> Result<Option<(Turn, Turn)>, AllocError>
        ensures { IfOk result (λ next. IsNext (coming_of self.now) next) }
    {
        match self.arrivals.front() {
            Some(Arrival::Got(from, bytes)) => {
                let turn = Turn::Got(*from, bytes.to_vec(self.alloc)?);
                let same = Turn::Got(*from, bytes.to_vec(self.alloc)?);
                Ok(Some((turn, same)))
            }
            Some(Arrival::Idle) | None => Ok(Some((Turn::Idle, Turn::Idle))),
            Some(Arrival::Failure) => Ok(None),
        }
    }

    /// The datagram that comes next, twice, if one does.
    fn next_datagram(&self) -> Result<Option<(Turn, Turn)>, AllocError>
        ensures { IfOk result
            (λ next. IfSome next (λ turns. IsNext (coming_of self.now) (Some turns))) }
    {
        match self.arrivals.front() {
            Some(Arrival::Got(from, bytes)) => {
                let turn = Turn::Got(*from, bytes.to_vec(self.alloc)?);
                let same = Turn::Got(*from, bytes.to_vec(self.alloc)?);
                Ok(Some((turn, same)))
            }
            Some(Arrival::Idle | Arrival::Failure) | None => Ok(None),
        }
    }

    /// Keeps what it did.
    fn keep(&mut self, done: PortMove) -> Result<(), AllocError>
        ensures kept { OnOk result
            (traffic_of self.new ≡ traffic_of self.old ++ move_of done ∷ []) }
        ensures same { OnErr result (traffic_of self.new ≡ traffic_of self.old) }
        ensures failures { failures_of self.new ≡ failures_of self.old }
        ensures coming { coming_of self.new ≡ coming_of self.old }
        ensures fails { fails_of self.new ≡ fails_of self.old }
    {
        self.moves.push(done)?;
        Ok(())
    }

    /// Counts a failure.
    fn fail(&mut self) -> PortFault
        ensures fault { result ≡ Device }
        ensures later { failures_of self.old ≤ failures_of self.new }
        ensures count { failures_of self.new ≡ one_more (failures_of self.old) }
        ensures traffic { traffic_of self.new ≡ traffic_of self.old }
        ensures coming { coming_of self.new ≡ coming_of self.old }
        ensures fails { fails_of self.new ≡ fails_of self.old }
    {
        self.failures = self.failures.saturating_add(1);
        PortFault::Device
    }
}

impl Port for MemoryPort {
    ghost use Rattle.std.specs.Prelude.{◌≡◌, ◌≤◌, Some, OnSome, IfNone};
    ghost use Rattle.cell_device.specs.Calls.{HasCause};
    ghost use Rattle.udp_site.specs.declared.port_fault.PortFault.TheVariants.{Device};
    ghost use Rattle.udp_site.specs.Traffic.{IsReceived, IsTakenIn, IsHanded};
    ghost use Rattle.udp_site.specs.MemoryPorts.{coming_of, fails_of, traffic_of, failures_of};
    ghost use Rattle.udp_site.specs.MemoryPorts.{Comes, FailsAs, rest_of};

    ghost traffic = { λ port. Some (traffic_of port) };

    ghost failures = { failures_of };

    fn receive(&mut self) -> Result<Turn, PortFault>
        ensures received { IsReceived (Some (traffic_of self.old)) (Some (traffic_of self.new))
            result }
        ensures cause { HasCause Device (failures_of self.old) (failures_of self.new) result }
        ensures comes { Comes (coming_of self.old) (coming_of self.new) result }
        ensures fails { fails_of self.new ≡ fails_of self.old }
    {
        let next = self.next()?;
        if let Some((turn, same)) = next {
            self.keep(PortMove::Took(same))?;
            self.arrivals.pop_front();
            Ok(turn)
        } else {
            self.keep(PortMove::Failed)?;
            self.arrivals.pop_front();
            Err(self.fail())
        }
    }

    // Where nothing is to come for a turn, or a receive is to fail, that is left to `receive`.
    fn try_receive(&mut self) -> Option<Turn>
        ensures taken { IsTakenIn (Some (traffic_of self.old)) (Some (traffic_of self.new)) result }
        ensures later { failures_of self.old ≤ failures_of self.new }
        ensures comes { OnSome result (coming_of self.new ≡ rest_of (coming_of self.old)) }
        ensures stays { IfNone result (coming_of self.new ≡ coming_of self.old) }
        ensures fails { fails_of self.new ≡ fails_of self.old }
    {
        let (turn, same) = self.next_datagram().ok()??;
        self.keep(PortMove::Took(same)).ok()?;
        self.arrivals.pop_front();
        Some(turn)
    }

    fn send(&mut self, to: Address, bytes: &[u8]) -> Result<(), PortFault>
        ensures handed { IsHanded (Some (traffic_of self.old)) (Some (traffic_of self.new))
            (to, bytes.now) result }
        ensures cause { HasCause Device (failures_of self.old) (failures_of self.new) result }
        ensures answer { FailsAs (fails_of self.old) result }
        ensures coming { coming_of self.new ≡ coming_of self.old }
        ensures fails { fails_of self.new ≡ fails_of self.old }
    {
        let bytes = bytes.to_vec(self.alloc)?;
        self.keep(PortMove::Handed(to, bytes))?;
        if self.sends_fail {
            return Err(self.fail());
        }
        Ok(())
    }
}
