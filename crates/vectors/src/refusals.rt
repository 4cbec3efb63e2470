// The examples of each refusal.
use super::refused::refused_by;
use super::score::Score;
use packet::{DataKind, Packet, TokenKind, read};

pub fn reading(rt: &HostRuntime) -> anyhow::Result<Score> {
    let mut score = Score::default();
    score.count(refused_by(read(&[]), 20));
    score.count(refused_by(read(&[0xe0]), 21));
    score.count(refused_by(read(&[0xf0]), 22));
    score.count(refused_by(read(&[0x4b, 0x00]), 23));
    score.count(refused_by(read(&[0x69, 0x81]), 23));
    score.count(refused_by(read(&[0x69, 0x81, 0x58, 0x00]), 23));
    score.count(refused_by(read(&[0xd2, 0x00]), 23));
    score.count(refused_by(read(&[0xc3; 68]), 23));
    score.count(refused_by(read(&[0x69, 0x81, 0x59]), 24));
    score.count(refused_by(read(&[0x4b, 0x00, 0x01]), 24));
    println!(rt; "refusals of reading: {score}")?;
    Ok(score)
}

// The packet is refused by 23, and the memory is as it was.
fn too_wide(packet: Packet<'_>) -> bool {
    let mut memory = [0xa5; 67];
    refused_by(packet.build(&mut memory), 23) && memory == [0xa5; 67]
}

fn token_too_wide(address: u8, endpoint: u8) -> bool {
    too_wide(Packet::token(TokenKind::Setup, address, endpoint))
}

fn body_too_wide(body: &[u8]) -> bool {
    too_wide(Packet::data(DataKind::Data0, body))
}

pub fn building(rt: &HostRuntime) -> anyhow::Result<Score> {
    let mut score = Score::default();
    score.count(token_too_wide(128, 0));
    score.count(token_too_wide(255, 15));
    score.count(token_too_wide(0, 16));
    score.count(body_too_wide(&[0; 65]));
    println!(rt; "refusals of building: {score}")?;
    Ok(score)
}
