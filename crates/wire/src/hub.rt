// The hub: any two wires behind a port that is open or closed; itself a wire, with its own tally.
ghost use Rattle.std.specs.Prelude.{◌≡◌, Some};
ghost use Rattle.wire.specs.Carrying.{Carries, one_more};
ghost use Rattle.wire.specs.Hubs.{Through, Passes, ByPort, with_first, with_second, with_port, with_tally};
ghost use Rattle.wire.specs.Names.{port_name};
ghost use Rattle.wire.specs.declared.hub.Port.TheVariants.{Open, Closed};

use super::arrival::{grown, lay};
use super::interface::{Direction, Wire};
use std::{fmt, mem};

#[derive(Clone, Copy)]
pub enum Port {
    Open,
    Closed,
}

impl fmt::Display for Port {
    ghost output = { λ port. Some (port_name port) };

    fn fmt<W: fmt::Write>(&self, f: &mut fmt::Formatter<W>) -> fmt::Result {
        f.write_str(match self {
            Port::Open => "open",
            Port::Closed => "closed",
        })
    }
}

#[derive(Drop)]
pub struct Hub<F, S> {
    first: F,
    second: S,
    port: Port,
    tally: u8,
}

impl<F: Wire, S: Wire> Hub<F, S> {
    // Its port is open at first.
    pub fn new(first: F, second: S) -> Self
        ensures first { result.first ≡ first }
        ensures second { result.second ≡ second }
        ensures port { result.port ≡ Open }
        ensures tally { result.tally ≡ 0 }
    {
        Hub {
            first,
            second,
            port: Port::Open,
            tally: 0,
        }
    }

    pub fn into_parts(self) -> (F, S)
        ensures first { result.0 ≡ self.first }
        ensures second { result.1 ≡ self.second }
    {
        let Hub { first, second, .. } = self;
        (first, second)
    }

    pub fn set_port(&mut self, port: Port)
        ensures { self.new ≡ with_port port self.old }
    {
        self.port = port;
    }

    pub fn port(&self) -> Port
        ensures { result ≡ self.now.port }
    {
        self.port
    }

    // Puts another wire in the place of the first, and hands the old one back. The two wires differ in their types, so
    // no one function could return either.
    pub fn exchange_first(&mut self, wire: F) -> F
        ensures old { result ≡ self.old.first }
        ensures after { self.new ≡ with_first wire self.old }
    {
        mem::replace(&mut self.first, wire)
    }

    // Puts another wire in the place of the second, and hands the old one back.
    pub fn exchange_second(&mut self, wire: S) -> S
        ensures old { result ≡ self.old.second }
        ensures after { self.new ≡ with_second wire self.old }
    {
        mem::replace(&mut self.second, wire)
    }

    // Over both wires, the nearer one first. Here, in `through_port` and in `carry` each clause says which field stays:
    // the wires are only described, so that no term gives the whole hub.
    fn pass(&mut self, direction: Direction, sent: &[u8], heard: &mut [u8; 67]) -> usize
        ensures passes { Passes direction sent.now (F.Wire.tally self.old.first) (F.Wire.tally self.new.first) (S.Wire.tally self.old.second) (S.Wire.tally self.new.second) result heard.new }
        ensures port { self.new.port ≡ self.old.port }
        ensures tally { self.new.tally ≡ self.old.tally }
    {
        let (first, second) = (&mut self.first, &mut self.second);
        match direction {
            Direction::Outward => in_turn(first, second, direction, sent, heard),
            Direction::Homeward => in_turn(second, first, direction, sent, heard),
        }
    }

    // Over both wires where the port is open; a closed port lets nothing arrive.
    fn through_port(&mut self, direction: Direction, sent: &[u8], heard: &mut [u8; 67]) -> usize
        ensures ways { ByPort F.Wire.tally S.Wire.tally self.old.port direction sent.now self.old.first self.new.first self.old.second self.new.second result heard.new }
        ensures port { self.new.port ≡ self.old.port }
        ensures tally { self.new.tally ≡ self.old.tally }
    {
        match self.port {
            Port::Open => self.pass(direction, sent, heard),
            Port::Closed => lay(&[], heard),
        }
    }

    // One more packet was spoiled between the two ends of the hub.
    fn tally_spoiled(&mut self)
        ensures { self.new ≡ with_tally (one_more self.old.tally) self.old }
    {
        self.tally = grown(self.tally);
    }
}

// Over the one wire, and what arrives there over the other.
fn in_turn<N: Wire, F: Wire>(
    near: &mut N,
    far: &mut F,
    direction: Direction,
    sent: &[u8],
    heard: &mut [u8; 67],
) -> usize
    ensures { Through sent.now (N.Wire.tally near.old) (N.Wire.tally near.new) (F.Wire.tally far.old) (F.Wire.tally far.new) result heard.new }
{
    let mut middle = [0; 67];
    let count = near.carry(direction, sent, &mut middle);
    far.carry(direction, &middle[..count], heard)
}

impl<F: Wire, S: Wire> Wire for Hub<F, S> {
    ghost tally = { λ w. w.tally };

    // The wires' own tallies are left alone.
    fn clear(&mut self)
        ensures tally { self.new.tally ≡ 0 }
        ensures after { self.new ≡ with_tally 0 self.old }
    {
        self.tally = 0;
    }

    fn tell(&self) -> u8 {
        self.tally
    }

    fn carry(&mut self, direction: Direction, sent: &[u8], heard: &mut [u8; 67]) -> usize
        ensures carries { Carries sent.now self.old.tally result heard.new self.new.tally }
        ensures ways { ByPort F.Wire.tally S.Wire.tally self.old.port direction sent.now self.old.first self.new.first self.old.second self.new.second result heard.new }
        ensures port { self.new.port ≡ self.old.port }
    {
        let count = self.through_port(direction, sent, heard);
        let damaged = &heard[..count] != sent;
        if damaged {
            self.tally_spoiled();
        }
        count
    }
}
