// A packet: a token, data whose body is a part of the bytes it was read from, or a handshake.
ghost use Rattle.std.specs.Prelude.{◌≡◌};
ghost use Rattle.packet.specs.Parts.{parts, token, data_packet, handshake};

use super::{DataKind, Handshake, TokenKind};

#[derive(Clone, Copy, PartialEq, Eq)]
pub enum Packet<'a> {
    Token {
        kind: TokenKind,
        address: u8,
        endpoint: u8,
    },
    Data {
        kind: DataKind,
        body: &'a [u8],
    },
    Handshake(Handshake),
}

// Each packet is made by a function, which promises the parts that it has.
impl<'a> Packet<'a> {
    pub fn token(kind: TokenKind, address: u8, endpoint: u8) -> Self
        ensures { parts result ≡ token kind address endpoint }
    {
        Packet::Token {
            kind,
            address,
            endpoint,
        }
    }

    pub fn data(kind: DataKind, body: &'a [u8]) -> Self
        ensures { parts result ≡ data_packet kind body.now }
    {
        Packet::Data { kind, body }
    }

    pub fn handshake(kind: Handshake) -> Self
        ensures { parts result ≡ handshake kind }
    {
        Packet::Handshake(kind)
    }
}
