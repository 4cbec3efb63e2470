// Transactions: a packet delivered to the reader or fetched from it, in at most three tries.
ghost use Rattle.packet.specs.Bodies.{held};
ghost use Rattle.packet.specs.Parts.{data_packet};
ghost use Rattle.host.specs.declared.fault.Cause.TheVariants.{Nothing};
ghost use Rattle.host.specs.Arrivals.{arrival_seen};
ghost use Rattle.host.specs.Buses.{PerformsOver};
ghost use Rattle.host.specs.Pipes.{out_token, in_token};
ghost use Rattle.host.specs.Tries.{ending_seen, tries_delivery, delivers, sends_ack, tries_fetch, fetches};

use super::bus::Bus;
use super::fault::{Cause, TransactionFault};
use super::judging::{Arrival, Awaited, Reply, judge_arrival, judge_reply};
use super::pipe::Pipe;
use packet::{Body, DataKind, Handshake, WellFormed};
use store::Store;
use wire::Wire;

// A transaction is given up after so many failed tries in a row.
const TRIES: u8 = 3;

// How a transaction ended that was not given up: with what came of it, or with STALL, which is None.
pub(crate) type Transacted<T> = Result<Option<T>, TransactionFault>;

// A delivery is two exchanges with a reply of three outcomes. A fetch is one exchange, which may be acknowledged, with an
// arrival of four. So each has its own try and its own loop.
impl<W: Wire, S: Store> Bus<'_, W, S> {
    // One try of sending data that follow a token.
    fn try_delivery(&mut self, pipe: Pipe, kind: DataKind, body: &Body) -> Reply
        ensures { PerformsOver W.Wire S.Store (tries_delivery (out_token pipe) (data_packet kind (held body.now))) self.old result self.new }
    {
        let mut memory = [0; 67];
        self.exchange(pipe.out_token(), &mut memory);
        judge_reply(self.exchange(WellFormed::data(kind, body), &mut memory))
    }

    // Data that follow a token are delivered.
    pub(crate) fn deliver(&mut self, pipe: Pipe, kind: DataKind, body: &Body) -> Transacted<()>
        ensures { PerformsOver W.Wire S.Store (delivers 3 (out_token pipe) (data_packet kind (held body.now)) Nothing) self.old (ending_seen (λ u. u) result) self.new }
    {
        let mut cause = Cause::Nothing;
        for _ in 0..TRIES {
            match self.try_delivery(pipe, kind, body) {
                Ok(answered) => return Ok(answered),
                Err(failed) => cause = failed,
            }
        }
        Err(TransactionFault { cause })
    }

    // Sends ACK. The reader answers nothing to it.
    fn acknowledge(&mut self)
        ensures { PerformsOver W.Wire S.Store sends_ack self.old tt self.new }
    {
        self.exchange(WellFormed::handshake(Handshake::Ack), &mut [0; 67]);
    }

    // One try of fetching data; new data and repeats are acknowledged.
    fn try_fetch(&mut self, pipe: Pipe, awaited: Awaited) -> Arrival
        ensures { PerformsOver W.Wire S.Store (tries_fetch (in_token pipe) awaited.toggle awaited.length) self.old (arrival_seen result) self.new }
    {
        let mut memory = [0; 67];
        let heard = self.exchange(pipe.in_token(), &mut memory);
        let arrival = judge_arrival(heard, awaited);
        match arrival {
            Arrival::New(_) | Arrival::Repeat => self.acknowledge(),
            Arrival::Stalled | Arrival::Failed(_) => {}
        }
        arrival
    }

    // Data that are awaited are fetched.
    pub(crate) fn fetch(&mut self, pipe: Pipe, awaited: Awaited) -> Transacted<Body>
        ensures { PerformsOver W.Wire S.Store (fetches 3 (in_token pipe) awaited.toggle awaited.length Nothing) self.old (ending_seen held result) self.new }
    {
        let mut cause = Cause::Nothing;
        for _ in 0..TRIES {
            match self.try_fetch(pipe, awaited) {
                Arrival::New(body) => return Ok(Some(body)),
                Arrival::Repeat => cause = Cause::Repeat,
                Arrival::Stalled => return Ok(None),
                Arrival::Failed(failed) => cause = failed,
            }
        }
        Err(TransactionFault { cause })
    }
}
