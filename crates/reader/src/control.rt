// The control endpoint: addresses, requests and what they do.
ghost use Rattle.std.specs.Prelude.{◌≡◌};
ghost use Rattle.reader.specs.Answers.{answer_seen};
ghost use Rattle.reader.specs.Control.{addressed, settled, acknowledged, heard_too, clear_asked, asked, begun, halt_cleared, transport_reset, effect, control_in, setup_data, control_data, control_ack, expecting, with_control, with_addresses};
ghost use Rattle.reader.specs.State.{bulk_seen, seen, fresh};

use super::answer::Answer;
use super::phase::Phase;
use super::state::{Addresses, Bulk, Core, Expectation, Halts, Request, Transfer};
use packet::{Body, DataKind, Handshake, TokenKind};
use transport::{DataDirection, Toggles};

impl Addresses {
    pub(crate) fn hear(self, address: u8) -> bool
        ensures { result ≡ addressed self address }
    {
        match self {
            Addresses::One(only) => address == only,
            Addresses::Two { old, new } => address == new || address == old,
        }
    }

    pub(crate) fn settle(self, kind: TokenKind, address: u8) -> Addresses
        ensures { result ≡ settled self kind address }
    {
        match self {
            Addresses::Two { old: _, new } if address == new => Addresses::One(new),
            Addresses::Two { old, new: _ } if kind == TokenKind::Setup => Addresses::One(old),
            Addresses::One(_) | Addresses::Two { old: _, new: _ } => self,
        }
    }

    fn acknowledge(self) -> Addresses
        ensures { result ≡ acknowledged self }
    {
        match self {
            Addresses::One(_) => self,
            Addresses::Two { old: _, new } => Addresses::One(new),
        }
    }

    fn hear_too(self, address: u8) -> Addresses
        ensures { result ≡ heard_too self address }
    {
        let old = match self {
            Addresses::One(old) | Addresses::Two { old, .. } => old,
        };
        if address == old {
            Addresses::One(old)
        } else {
            Addresses::Two { old, new: address }
        }
    }
}

fn clear_asked(value: u16, index: u16) -> Transfer
    ensures { result ≡ clear_asked value index }
{
    match (value, index) {
        (0, 0x81) => Transfer::Asked(Request::ClearHalt(DataDirection::In)),
        (0, 0x02) => Transfer::Asked(Request::ClearHalt(DataDirection::Out)),
        _ => Transfer::Stalled,
    }
}

// The transfer that a setup's eight bytes begin.
fn asked(configured: bool, kind: u8, request: u8, value: u16, index: u16) -> Transfer
    ensures { result ≡ asked configured kind request value index }
{
    match (kind, request) {
        (0x00, 0x05) if value <= 127 => Transfer::Asked(Request::SetAddress(value as u8)),
        (0x00, 0x09) if value <= 1 => Transfer::Asked(Request::Configure(value == 1)),
        (0x02, 0x01) if configured => clear_asked(value, index),
        (0x21, 0xff) if configured => Transfer::Asked(Request::ResetTransport),
        _ => Transfer::Stalled,
    }
}

impl Bulk {
    // Ends a halt and sets its toggle to DATA0, unless an invalid block came.
    fn clear_halt(&mut self, direction: DataDirection)
        ensures state { bulk_seen self.new ≡ halt_cleared direction (bulk_seen self.old) self.old.halts }
        ensures buffer { self.new.buffer ≡ self.old.buffer }
    {
        let Halts::Each { .. } = self.halts else {
            return;
        };
        self.toggles = self.toggles.reset(direction);
        self.halts = self.halts.with(direction, false);
    }

    // A reset of the transport drops the command.
    fn reset(&mut self)
        ensures state { bulk_seen self.new ≡ transport_reset (bulk_seen self.old) }
        ensures buffer { self.new.buffer ≡ self.old.buffer }
    {
        self.halts = self.halts.keep();
        self.phase = Phase::Command;
    }

    // A configuration turns both toggles back, ends the halts and drops the command. The buffer is left alone: its bytes
    // are of no command then.
    fn configure(&mut self)
        ensures state { bulk_seen self.new ≡ fresh.bulk }
        ensures buffer { self.new.buffer ≡ self.old.buffer }
    {
        self.toggles = Toggles::fresh();
        self.halts = Halts::NONE;
        self.phase = Phase::Command;
    }
}

impl Core {
    // What a request does when its status is first sent.
    fn take_effect(&mut self, request: Request)
        ensures state { seen self.new ≡ effect request (seen self.old) }
        ensures buffer { self.new.bulk.buffer ≡ self.old.bulk.buffer }
    {
        match request {
            Request::SetAddress(address) => {
                self.control.addresses = self.control.addresses.hear_too(address);
            }
            Request::Configure(on) => {
                self.control.configured = on;
                self.bulk.configure();
            }
            Request::ClearHalt(direction) => self.bulk.clear_halt(direction),
            Request::ResetTransport => self.bulk.reset(),
        }
    }

    // An IN for the control endpoint.
    pub(crate) fn hear_control_in(&mut self) -> Answer
        ensures answers { (seen self.new, answer_seen result) ≡ control_in (seen self.old) }
        ensures buffer { self.new.bulk.buffer ≡ self.old.bulk.buffer }
    {
        self.expects = Expectation::Nothing;
        match self.control.transfer {
            Transfer::None => Answer::Handshake(Handshake::Nak),
            Transfer::Stalled => Answer::Handshake(Handshake::Stall),
            Transfer::Answered => {
                self.expects = Expectation::ControlAck;
                Answer::Data(DataKind::Data1, Body::empty())
            }
            Transfer::Asked(request) => {
                self.control.transfer = Transfer::Answered;
                self.take_effect(request);
                self.expects = Expectation::ControlAck;
                Answer::Data(DataKind::Data1, Body::empty())
            }
        }
    }

    // The data after a SETUP.
    pub(crate) fn hear_setup_data(&mut self, kind: DataKind, body: &[u8]) -> Answer
        ensures answers { (seen self.new, answer_seen result) ≡ setup_data (seen self.old) kind body.now }
        ensures buffer { self.new.bulk.buffer ≡ self.old.bulk.buffer }
    {
        self.expects = Expectation::Nothing;
        if kind != DataKind::Data0 || body.len() != 8 {
            return Answer::Nothing;
        }
        let value = u16::from_le_bytes([body[2], body[3]]);
        let index = u16::from_le_bytes([body[4], body[5]]);
        self.control.transfer = asked(self.control.configured, body[0], body[1], value, index);
        Answer::Handshake(Handshake::Ack)
    }

    // The data after an OUT for the control endpoint.
    pub(crate) fn hear_control_data(&mut self) -> Answer
        ensures answers { (seen self.new, answer_seen result) ≡ control_data (seen self.old) }
        ensures buffer { self.new.bulk.buffer ≡ self.old.bulk.buffer }
    {
        self.expects = Expectation::Nothing;
        match self.control.transfer {
            Transfer::None | Transfer::Asked(_) | Transfer::Answered => {
                Answer::Handshake(Handshake::Ack)
            }
            Transfer::Stalled => Answer::Handshake(Handshake::Stall),
        }
    }

    // The acknowledgement of a status.
    pub(crate) fn hear_control_ack(&mut self) -> Answer
        ensures answers { (seen self.new, answer_seen result) ≡ control_ack (seen self.old) }
        ensures buffer { self.new.bulk.buffer ≡ self.old.bulk.buffer }
    {
        self.expects = Expectation::Nothing;
        self.control.addresses = self.control.addresses.acknowledge();
        Answer::Nothing
    }
}
