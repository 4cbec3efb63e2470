// Reading a packet from the bytes that arrived.
ghost use Rattle.std.specs.Prelude.{◌≡◌, ◌<◌, length, drop};
ghost use Rattle.packet.specs.Reading.{heard, reading, reading_token, reading_data, reading_handshake};

use super::check::{body_check, token_check};
use super::{DataKind, Handshake, Kind, Packet, Refusal, TokenKind};

// The packet that the bytes are, or why they are none. Reading and building have these names for every format, and `TryFrom`
// would name the one and not the other.
pub fn read(bytes: &[u8]) -> Result<Packet<'_>, Refusal>
    ensures { heard result ≡ reading bytes.now }
{
    let [first, rest @ ..] = bytes else {
        return Err(Refusal::NoBytes);
    };
    match Kind::try_from(*first)? {
        Kind::Token(kind) => read_token(kind, bytes),
        Kind::Data(kind) => read_data(kind, rest),
        Kind::Handshake(handshake) => read_handshake(handshake, bytes),
    }
}

// A token has two bytes behind its first.
fn read_token<'a>(kind: TokenKind, bytes: &[u8]) -> Result<Packet<'a>, Refusal>
    requires { 0 < length bytes.now }
    ensures { heard result ≡ reading_token kind (drop 1 bytes.now) }
{
    let [_, low, high] = bytes else {
        return Err(Refusal::WrongLength);
    };
    let word = u16::from_le_bytes([*low, *high]);
    let address = (word % 128) as u8;
    let endpoint = (word / 128 % 16) as u8;
    if word / 2048 != token_check(address, endpoint) {
        return Err(Refusal::WrongCheck);
    }
    Ok(Packet::token(kind, address, endpoint))
}

// A body and its check, behind the first byte.
fn read_data(kind: DataKind, rest: &[u8]) -> Result<Packet<'_>, Refusal>
    ensures { heard result ≡ reading_data kind rest.now }
{
    let [body @ .., low, high] = rest else {
        return Err(Refusal::WrongLength);
    };
    if body.len() > 64 {
        return Err(Refusal::WrongLength);
    }
    if u16::from_le_bytes([*low, *high]) != body_check(body) {
        return Err(Refusal::WrongCheck);
    }
    Ok(Packet::data(kind, body))
}

// A handshake is one byte.
fn read_handshake<'a>(handshake: Handshake, bytes: &[u8]) -> Result<Packet<'a>, Refusal>
    requires { 0 < length bytes.now }
    ensures { heard result ≡ reading_handshake handshake (drop 1 bytes.now) }
{
    let [_] = bytes else {
        return Err(Refusal::WrongLength);
    };
    Ok(Packet::handshake(handshake))
}
