// The pipes that the host uses, each by the token that begins a transaction on it.
ghost use Rattle.std.specs.Prelude.{◌≡◌};
ghost use Rattle.packet.specs.Parts.{parts};
ghost use Rattle.host.specs.Pipes.{address_number, out_token, in_token};

use packet::{Packet, TokenKind, WellFormed};

// The reader's address: the default one after a port reset, or the one that the host assigns.
#[derive(Clone, Copy)]
pub enum Address {
    Default,
    Assigned,
}

impl From<Address> for u8 {
    ghost from_gives = { λ address number. number ≡ address_number address };

    fn from(address: Address) -> u8 {
        match address {
            Address::Default => 0,
            Address::Assigned => 1,
        }
    }
}

// The control endpoint at an address, or the bulk endpoints: 2 for data to the reader, 1 for data from it.
#[derive(Clone, Copy)]
pub enum Pipe {
    Control(Address),
    Bulk,
}

impl Pipe {
    // Begins data to the reader; at the control endpoint they are a setup.
    pub(crate) fn out_token<'a>(self) -> WellFormed<'a>
        ensures { parts result.packet ≡ out_token self }
    {
        let packet = match self {
            Pipe::Control(address) => Packet::token(TokenKind::Setup, address.into(), 0),
            Pipe::Bulk => Packet::token(TokenKind::Out, Address::Assigned.into(), 2),
        };
        WellFormed { packet }
    }

    // Asks for data from the reader. The two tokens of a pipe differ in kind and in endpoint; one method with a direction
    // would only move this match.
    pub(crate) fn in_token<'a>(self) -> WellFormed<'a>
        ensures { parts result.packet ≡ in_token self }
    {
        let packet = match self {
            Pipe::Control(address) => Packet::token(TokenKind::In, address.into(), 0),
            Pipe::Bulk => Packet::token(TokenKind::In, Address::Assigned.into(), 1),
        };
        WellFormed { packet }
    }
}
