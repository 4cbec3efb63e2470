// The bulk endpoints: 1 IN and 2 OUT.
ghost use Rattle.std.specs.Prelude.{◌≡◌, ◌≤◌};
ghost use Rattle.packet.specs.Parts.{data_packet};
ghost use Rattle.reader.specs.Answers.{answer_seen};
ghost use Rattle.reader.specs.BulkEnds.{ComesTo, wanted, bulk_data, offered, bulk_in, bulk_acknowledged, bulk_ack};
ghost use Rattle.reader.specs.Control.{with_bulk};
ghost use Rattle.reader.specs.Disk.{disk_of};
ghost use Rattle.reader.specs.State.{bulk_seen, seen};

use super::answer::Answer;
use super::phase::Phase;
use super::sending::{status_body, waiting_body};
use super::state::{Bulk, Core, Expectation};
use packet::{DataKind, Handshake};
use store::Store;
use transport::DataDirection;

impl Bulk {
    // What was sent is acknowledged.
    fn acknowledge(&mut self)
        ensures state { bulk_seen self.new ≡ bulk_acknowledged (bulk_seen self.old).phase (bulk_seen self.old) }
        ensures buffer { self.new.buffer ≡ self.old.buffer }
    {
        match self.phase {
            Phase::DataIn(sending) => {
                self.toggles = self.toggles.toggle(DataDirection::In);
                self.data_acknowledged(sending);
            }
            Phase::Status { sent: true, .. } => {
                self.toggles = self.toggles.toggle(DataDirection::In);
                self.phase = Phase::Command;
            }
            Phase::Command | Phase::DataOut(_) | Phase::Status { sent: false, .. } => {}
        }
    }
}

impl Core {
    // The acknowledgement of what was sent.
    pub(crate) fn hear_bulk_ack(&mut self) -> Answer
        ensures answers { (seen self.new, answer_seen result) ≡ bulk_ack (seen self.old) }
        ensures buffer { self.new.bulk.buffer ≡ self.old.bulk.buffer }
    {
        self.expects = Expectation::Nothing;
        self.bulk.acknowledge();
        Answer::Nothing
    }

    // An IN for the endpoint that sends.
    pub(crate) fn hear_bulk_in<S: Store>(&mut self, store: &S) -> Answer
        ensures answers { (seen self.new, answer_seen result) ≡ bulk_in (seen self.old) (disk_of S.Store store.now) }
        ensures buffer { self.new.bulk.buffer ≡ self.old.bulk.buffer }
    {
        self.expects = Expectation::Nothing;
        if self.bulk.halts.is_halted(DataDirection::In) {
            return Answer::Handshake(Handshake::Stall);
        }
        let kind = self.bulk.toggles.data_in;
        match self.bulk.phase {
            Phase::Command | Phase::DataOut(_) => Answer::Handshake(Handshake::Nak),
            Phase::DataIn(sending) => {
                self.expects = Expectation::BulkAck;
                Answer::Data(kind, waiting_body(store, sending))
            }
            Phase::Status { block, .. } => {
                self.expects = Expectation::BulkAck;
                self.bulk.phase = Phase::Status { block, sent: true };
                Answer::Data(kind, status_body(block))
            }
        }
    }

    // Expected data, not halted: taken as a block or as data, or not wanted. Where a status that was sent has had no ACK,
    // they count as that ACK.
    fn take_wanted<S: Store>(&mut self, store: &mut S, body: &[u8]) -> Answer
        ensures { ComesTo (wanted (seen self.old).bulk.phase (seen self.old) (disk_of S.Store store.old) body.now) (seen self.new) (answer_seen result) (disk_of S.Store store.old) (disk_of S.Store store.new) }
    {
        self.expects = Expectation::Nothing;
        match self.bulk.phase {
            Phase::Command => {
                self.bulk.toggles = self.bulk.toggles.toggle(DataDirection::Out);
                self.bulk.take_block(store.sector_count(), body);
                Answer::Handshake(Handshake::Ack)
            }
            Phase::DataOut(receiving) => {
                self.bulk.toggles = self.bulk.toggles.toggle(DataDirection::Out);
                self.bulk.take_data(store, receiving, body);
                Answer::Handshake(Handshake::Ack)
            }
            Phase::Status { sent: true, .. } => {
                let acknowledged = self.bulk.toggles.toggle(DataDirection::In);
                self.bulk.toggles = acknowledged.toggle(DataDirection::Out);
                self.bulk.take_block(store.sector_count(), body);
                Answer::Handshake(Handshake::Ack)
            }
            Phase::DataIn(_) | Phase::Status { sent: false, .. } => {
                Answer::Handshake(Handshake::Nak)
            }
        }
    }

    // The data after an OUT for the endpoint that receives.
    pub(crate) fn hear_bulk_data<S: Store>(
        &mut self,
        store: &mut S,
        kind: DataKind,
        body: &[u8],
    ) -> Answer
        ensures { ComesTo (bulk_data (seen self.old) (disk_of S.Store store.old) kind body.now) (seen self.new) (answer_seen result) (disk_of S.Store store.old) (disk_of S.Store store.new) }
    {
        if kind != self.bulk.toggles.data_out {
            self.expects = Expectation::Nothing;
            return Answer::Handshake(Handshake::Ack);
        }
        if self.bulk.halts.is_halted(DataDirection::Out) {
            self.expects = Expectation::Nothing;
            return Answer::Handshake(Handshake::Stall);
        }
        self.take_wanted(store, body)
    }
}
