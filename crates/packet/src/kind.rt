// The kinds of packets, the name of each, and the first byte (the packet identifier, PID) by which it is known.
ghost use Rattle.std.specs.Prelude.{◌≡◌, Some};
ghost use Rattle.packet.specs.Kinds.{pid, kind_of_pid, turned};
ghost use Rattle.packet.specs.Names.{token_kind_name, data_kind_name, handshake_name};

use super::Refusal;
use std::fmt;

#[derive(Clone, Copy, PartialEq, Eq)]
pub enum TokenKind {
    Out,
    In,
    Setup,
}

impl TokenKind {
    pub fn name(self) -> &'static str
        ensures { result.now ≡ token_kind_name self }
    {
        match self {
            TokenKind::Out => "OUT",
            TokenKind::In => "IN",
            TokenKind::Setup => "SETUP",
        }
    }
}

impl fmt::Display for TokenKind {
    ghost output = { λ kind. Some (token_kind_name kind) };

    fn fmt<W: fmt::Write>(&self, f: &mut fmt::Formatter<W>) -> fmt::Result {
        f.write_str(self.name())
    }
}

#[derive(Clone, Copy, PartialEq, Eq)]
pub enum DataKind {
    Data0,
    Data1,
}

impl DataKind {
    // The other kind, which the next data of an endpoint have.
    pub fn toggled(self) -> DataKind
        ensures { result ≡ turned self }
    {
        match self {
            DataKind::Data0 => DataKind::Data1,
            DataKind::Data1 => DataKind::Data0,
        }
    }

    pub fn name(self) -> &'static str
        ensures { result.now ≡ data_kind_name self }
    {
        match self {
            DataKind::Data0 => "DATA0",
            DataKind::Data1 => "DATA1",
        }
    }
}

impl fmt::Display for DataKind {
    ghost output = { λ kind. Some (data_kind_name kind) };

    fn fmt<W: fmt::Write>(&self, f: &mut fmt::Formatter<W>) -> fmt::Result {
        f.write_str(self.name())
    }
}

#[derive(Clone, Copy, PartialEq, Eq)]
pub enum Handshake {
    Ack,
    Nak,
    Stall,
}

impl Handshake {
    pub fn name(self) -> &'static str
        ensures { result.now ≡ handshake_name self }
    {
        match self {
            Handshake::Ack => "ACK",
            Handshake::Nak => "NAK",
            Handshake::Stall => "STALL",
        }
    }
}

impl fmt::Display for Handshake {
    ghost output = { λ handshake. Some (handshake_name handshake) };

    fn fmt<W: fmt::Write>(&self, f: &mut fmt::Formatter<W>) -> fmt::Result {
        f.write_str(self.name())
    }
}

#[derive(Clone, Copy)]
pub enum Kind {
    Token(TokenKind),
    Data(DataKind),
    Handshake(Handshake),
}

impl From<Kind> for u8 {
    ghost from_gives = { λ kind byte. byte ≡ pid kind };

    // The first byte of a packet of this kind: the kind in the low four bits, their complement above.
    fn from(kind: Kind) -> u8 {
        match kind {
            Kind::Token(TokenKind::Out) => 0xe1,
            Kind::Token(TokenKind::In) => 0x69,
            Kind::Token(TokenKind::Setup) => 0x2d,
            Kind::Data(DataKind::Data0) => 0xc3,
            Kind::Data(DataKind::Data1) => 0x4b,
            Kind::Handshake(Handshake::Ack) => 0xd2,
            Kind::Handshake(Handshake::Nak) => 0x5a,
            Kind::Handshake(Handshake::Stall) => 0x1e,
        }
    }
}

impl TryFrom<u8> for Kind {
    type Error = Refusal;

    ghost try_from_gives = { λ byte result. result ≡ kind_of_pid byte };

    // The kind that a first byte names.
    fn try_from(byte: u8) -> Result<Kind, Refusal> {
        if byte / 16 + byte % 16 != 15 {
            return Err(Refusal::WrongComplement);
        }
        match byte {
            0xe1 => Ok(Kind::Token(TokenKind::Out)),
            0x69 => Ok(Kind::Token(TokenKind::In)),
            0x2d => Ok(Kind::Token(TokenKind::Setup)),
            0xc3 => Ok(Kind::Data(DataKind::Data0)),
            0x4b => Ok(Kind::Data(DataKind::Data1)),
            0xd2 => Ok(Kind::Handshake(Handshake::Ack)),
            0x5a => Ok(Kind::Handshake(Handshake::Nak)),
            0x1e => Ok(Kind::Handshake(Handshake::Stall)),
            _ => Err(Refusal::UnknownKind),
        }
    }
}
