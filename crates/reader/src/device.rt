// The reader as a whole: its state, its store, and what it does with an arrival.
ghost use Rattle.std.specs.Prelude.{◌≡◌, length};
ghost use Rattle.packet.specs.Parts.{parts};
ghost use Rattle.packet.specs.Reading.{reading};
ghost use Rattle.reader.specs.Answers.{answer_seen, answer_bytes, answer_memory};
ghost use Rattle.reader.specs.BulkEnds.{ComesTo};
ghost use Rattle.reader.specs.Control.{with_control, with_addresses};
ghost use Rattle.reader.specs.Disk.{disk_of, Left};
ghost use Rattle.reader.specs.Hears.{token_taken, hears_token, hears_data, hears_handshake, hears_packet, hears};
ghost use Rattle.reader.specs.State.{seen, fresh, BufferKept};
ghost use Rattle.store.specs.Access.{read_answer, read_memory, write_answer, write_sectors, VerdictsKept};

use super::answer::Answer;
use super::state::{Core, Expectation};
use packet::{DataKind, Handshake, Packet, TokenKind, read};
use std::mem;
use store::{Store, StoreRefusal, Verdict};

#[derive(Drop)]
pub struct Reader<S: Store> {
    core: Core,
    store: S,
}

impl<S: Store> Reader<S> {
    pub fn new(store: S) -> Self
        ensures state { seen result.core ≡ fresh }
        ensures store { result.store ≡ store }
    {
        Reader {
            core: Core::fresh(),
            store,
        }
    }

    pub fn into_store(self) -> S
        ensures { result ≡ self.store }
    {
        let Reader { core: _, store } = self;
        store
    }

    // The reader's state but for its store.
    pub fn core(&self) -> &Core
        ensures { result.now ≡ self.now.core }
    {
        &self.core
    }

    pub fn sector_count(&self) -> u32
        ensures { result ≡ S.Store.size self.now.store }
    {
        self.store.sector_count()
    }

    // Reads a sector of the store, as the store does.
    pub fn read_sector(&self, sector: u32, into: &mut [u8]) -> Result<(), StoreRefusal>
        ensures answer { result ≡ read_answer (S.Store.size self.now.store) sector (length into.old) }
        ensures memory { into.new ≡ read_memory result (S.Store.sectors self.now.store) sector into.old }
    {
        self.store.read_sector(sector, into)
    }

    // Writes a sector of the store, as the store does, past the bus: the reader's state stays.
    pub fn write_sector(&mut self, sector: u32, from: &[u8]) -> Result<Verdict, StoreRefusal>
        ensures answer { result ≡ write_answer (S.Store.size self.old.store) sector (length from.now) (S.Store.verdict self.old.store sector from.now) }
        ensures size { S.Store.size self.new.store ≡ S.Store.size self.old.store }
        ensures sectors { S.Store.sectors self.new.store ≡ write_sectors result (S.Store.sectors self.old.store) sector from.now }
        ensures verdicts { VerdictsKept result (S.Store.verdict self.old.store) (S.Store.verdict self.new.store) }
        ensures core { self.new.core ≡ self.old.core }
    {
        self.store.write_sector(sector, from)
    }

    // A port reset: a fresh reader on the same store.
    pub fn reset(&mut self)
        ensures state { seen self.new.core ≡ fresh }
        ensures store { self.new.store ≡ self.old.store }
    {
        self.core = Core::fresh();
    }

    // A token for an address that is heard.
    fn take_token(&mut self, kind: TokenKind, endpoint: u8) -> Answer
        ensures comes { ComesTo (token_taken kind endpoint (seen self.old.core) (disk_of S.Store self.old.store)) (seen self.new.core) (answer_seen result) (disk_of S.Store self.old.store) (disk_of S.Store self.new.store) }
        ensures buffer { self.new.core.bulk.buffer ≡ self.old.core.bulk.buffer }
    {
        self.core.expects = match (kind, endpoint) {
            (TokenKind::In, 0) => return self.core.hear_control_in(),
            (TokenKind::In, 1) if self.core.control.configured => {
                return self.core.hear_bulk_in(&self.store);
            }
            (TokenKind::Setup, 0) => Expectation::SetupData,
            (TokenKind::Out, 0) => Expectation::ControlData,
            (TokenKind::Out, 2) if self.core.control.configured => Expectation::BulkData,
            _ => Expectation::Nothing,
        };
        Answer::Nothing
    }

    fn hear_token(&mut self, kind: TokenKind, address: u8, endpoint: u8) -> Answer
        ensures comes { ComesTo (hears_token (seen self.old.core) (disk_of S.Store self.old.store) kind address endpoint) (seen self.new.core) (answer_seen result) (disk_of S.Store self.old.store) (disk_of S.Store self.new.store) }
        ensures buffer { self.new.core.bulk.buffer ≡ self.old.core.bulk.buffer }
    {
        if !self.core.control.addresses.hear(address) {
            self.core.expects = Expectation::Nothing;
            return Answer::Nothing;
        }
        self.core.control.addresses = self.core.control.addresses.settle(kind, address);
        self.take_token(kind, endpoint)
    }

    fn hear_data(&mut self, kind: DataKind, body: &[u8]) -> Answer
        ensures comes { ComesTo (hears_data self.old.core.expects (seen self.old.core) (disk_of S.Store self.old.store) kind body.now) (seen self.new.core) (answer_seen result) (disk_of S.Store self.old.store) (disk_of S.Store self.new.store) }
        ensures buffer { BufferKept self.old.core self.new.core }
    {
        match self.core.expects {
            Expectation::SetupData => self.core.hear_setup_data(kind, body),
            Expectation::ControlData => self.core.hear_control_data(),
            Expectation::BulkData => self.core.hear_bulk_data(&mut self.store, kind, body),
            Expectation::Nothing | Expectation::ControlAck | Expectation::BulkAck => {
                self.core.expects = Expectation::Nothing;
                Answer::Nothing
            }
        }
    }

    fn hear_handshake(&mut self, handshake: Handshake) -> Answer
        ensures comes { ComesTo (hears_handshake (seen self.old.core) handshake) (seen self.new.core) (answer_seen result) (disk_of S.Store self.old.store) (disk_of S.Store self.new.store) }
        ensures buffer { self.new.core.bulk.buffer ≡ self.old.core.bulk.buffer }
    {
        match (handshake, mem::take(&mut self.core.expects)) {
            (Handshake::Ack, Expectation::ControlAck) => self.core.hear_control_ack(),
            (Handshake::Ack, Expectation::BulkAck) => self.core.hear_bulk_ack(),
            _ => Answer::Nothing,
        }
    }

    fn hear_packet(&mut self, packet: Packet<'_>) -> Answer
        ensures comes { ComesTo (hears_packet (seen self.old.core) (disk_of S.Store self.old.store) (parts packet.entry)) (seen self.new.core) (answer_seen result) (disk_of S.Store self.old.store) (disk_of S.Store self.new.store) }
        ensures buffer { BufferKept self.old.core self.new.core }
    {
        match packet {
            Packet::Token {
                kind,
                address,
                endpoint,
            } => self.hear_token(kind, address, endpoint),
            Packet::Data { kind, body } => self.hear_data(kind, body),
            Packet::Handshake(handshake) => self.hear_handshake(handshake),
        }
    }

    // Hears an arrival, nothing too, and answers it: the answer's bytes fill the front of the memory, and zeros the rest.
    // The memory is the caller's, of the size of the longest packet, since there is no heap.
    pub fn hear(&mut self, arrival: &[u8], answer: &mut [u8; 67]) -> usize
        ensures state { seen self.new.core ≡ (hears (seen self.old.core) (disk_of S.Store self.old.store) (reading arrival.now)).state }
        ensures count { result ≡ length (answer_bytes (hears (seen self.old.core) (disk_of S.Store self.old.store) (reading arrival.now)).answer) }
        ensures memory { answer.new ≡ answer_memory (hears (seen self.old.core) (disk_of S.Store self.old.store) (reading arrival.now)).answer }
        ensures disk { Left (hears (seen self.old.core) (disk_of S.Store self.old.store) (reading arrival.now)).written (disk_of S.Store self.old.store) (disk_of S.Store self.new.store) }
        ensures buffer { BufferKept self.old.core self.new.core }
    {
        let reply = match read(arrival) {
            Ok(packet) => self.hear_packet(packet),
            Err(_) => {
                self.core.expects = Expectation::Nothing;
                Answer::Nothing
            }
        };
        reply.lay(answer)
    }
}
