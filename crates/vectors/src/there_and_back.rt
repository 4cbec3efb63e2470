// Every kind of packet, built and read back at the edges of each field.
use super::score::Score;
use packet::{DataKind, Handshake, Packet, TokenKind, read};

// What is sent is made by the functions of `packet`. What is to come back is written out here, field by field, so that a
// function that mixes up its arguments does not agree with itself.
fn comes_back(sent: Packet<'_>, wanted: Packet<'_>) -> bool {
    let mut memory = [0xa5; 67];
    let Ok(length) = sent.build(&mut memory) else {
        return false;
    };
    memory
        .get(..length)
        .is_some_and(|bytes| read(bytes) == Ok(wanted))
}

pub fn tokens(rt: &HostRuntime) -> anyhow::Result<Score> {
    let mut score = Score::default();
    for kind in [TokenKind::Out, TokenKind::In, TokenKind::Setup] {
        for address in [0, 1, 64, 127] {
            for endpoint in [0, 1, 8, 15] {
                let wanted = Packet::Token {
                    kind,
                    address,
                    endpoint,
                };
                score.count(comes_back(Packet::token(kind, address, endpoint), wanted));
            }
        }
    }
    println!(rt; "tokens there and back: {score}")?;
    Ok(score)
}

pub fn bodies(rt: &HostRuntime) -> anyhow::Result<Score> {
    let mut score = Score::default();
    let ones = [0xff; 64];
    let zeros = [0x00; 64];
    for kind in [DataKind::Data0, DataKind::Data1] {
        for length in [0usize, 1, 2, 63, 64] {
            for bytes in [&ones, &zeros] {
                let body = &bytes[..length];
                let wanted = Packet::Data { kind, body };
                score.count(comes_back(Packet::data(kind, body), wanted));
            }
        }
    }
    println!(rt; "bodies there and back: {score}")?;
    Ok(score)
}

pub fn handshakes(rt: &HostRuntime) -> anyhow::Result<Score> {
    let mut score = Score::default();
    for kind in [Handshake::Ack, Handshake::Nak, Handshake::Stall] {
        score.count(comes_back(Packet::handshake(kind), Packet::Handshake(kind)));
    }
    println!(rt; "handshakes there and back: {score}")?;
    Ok(score)
}
