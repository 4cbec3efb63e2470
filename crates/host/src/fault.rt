// Why a transaction was given up, and where.
ghost use Rattle.std.specs.Prelude.{◌≡◌, Some};
ghost use Rattle.packet.specs.Refusals.{refusal_number};
ghost use Rattle.host.specs.Faults.{cause_number, located, stage_name, tagged};
ghost use Rattle.host.specs.Transactions.{cause_of};

use packet::Refusal;
use std::fmt;

// The cause of the last try: nothing came, the answer was damaged or unfitting, a repeat came, NAK came, STALL came, or a
// status or reply was wrong.
#[derive(Clone, Copy, PartialEq, Eq)]
pub enum Cause {
    Nothing,
    Damaged,
    Repeat,
    NotReady,
    Stalled,
    WrongReply,
}

impl From<Cause> for u8 {
    ghost from_gives = { λ cause number. number ≡ cause_number cause };

    fn from(cause: Cause) -> u8 {
        match cause {
            Cause::Nothing => 1,
            Cause::Damaged => 2,
            Cause::Repeat => 3,
            Cause::NotReady => 4,
            Cause::Stalled => 5,
            Cause::WrongReply => 6,
        }
    }
}

// Why no packet was read: no bytes came, or they were damaged.
impl From<Refusal> for Cause {
    ghost from_gives = { λ refusal cause. cause ≡ cause_of (refusal_number refusal) };

    fn from(refusal: Refusal) -> Cause {
        match refusal {
            Refusal::NoBytes => Cause::Nothing,
            Refusal::WrongComplement
            | Refusal::UnknownKind
            | Refusal::WrongLength
            | Refusal::TooWide
            | Refusal::WrongCheck => Cause::Damaged,
        }
    }
}

// Where in a command, or outside one.
#[derive(Clone, Copy, PartialEq, Eq)]
pub enum Stage {
    Block,
    Data,
    Status,
    Control,
}

impl fmt::Display for Stage {
    ghost output = { λ stage. Some (stage_name stage) };

    fn fmt<W: fmt::Write>(&self, f: &mut fmt::Formatter<W>) -> fmt::Result {
        f.write_str(match self {
            Stage::Block => "block",
            Stage::Data => "data",
            Stage::Status => "status",
            Stage::Control => "control",
        })
    }
}

// Where a transaction was given up: the endpoint by its number, the stage, and the packet's place in its stage or control
// transfer.
#[derive(Clone, Copy, PartialEq, Eq)]
pub struct Place {
    pub endpoint: u8,
    pub stage: Stage,
    pub packet: u32,
}

// What a transaction that was given up knows.
#[derive(Clone, Copy)]
pub struct TransactionFault {
    pub cause: Cause,
}

// What the transport adds.
#[derive(Clone, Copy)]
pub struct TransportFault {
    pub transaction: TransactionFault,
    pub place: Place,
}

// What giving up tells: the cause, the place, and the tag of the command or 0.
#[derive(Clone, Copy)]
pub struct Fault {
    pub cause: Cause,
    pub place: Place,
    pub tag: u32,
}

impl TransactionFault {
    pub fn at(self, place: Place) -> TransportFault
        ensures { result ≡ located self.cause place.endpoint place.stage place.packet }
    {
        TransportFault {
            transaction: self,
            place,
        }
    }
}

impl TransportFault {
    pub fn of_command(self, tag: u32) -> Fault
        ensures { result ≡ tagged self tag }
    {
        Fault {
            cause: self.transaction.cause,
            place: self.place,
            tag,
        }
    }
}

// Outside a command the tag is 0.
impl From<TransportFault> for Fault {
    ghost from_gives = { λ fault r. r ≡ tagged fault 0 };

    fn from(fault: TransportFault) -> Fault {
        fault.of_command(0)
    }
}
