// The checks that USB publishes, as bits in the order of sending, and the well-known check value of CRC-16/USB.
use super::score::Score;
use packet::{body_check, token_check};

// The lowest bits of a check are the given ones, in the order of sending.
fn sent_as(check: u16, bits: &[u8]) -> bool {
    let mut rest = check;
    for bit in bits {
        if rest % 2 != u16::from(*bit) {
            return false;
        }
        rest /= 2;
    }
    rest == 0
}

pub fn tokens(rt: &HostRuntime) -> anyhow::Result<Score> {
    let mut score = Score::default();
    score.count(sent_as(token_check(0x15, 0xe), &[1, 0, 1, 1, 1]));
    score.count(sent_as(token_check(0x3a, 0xa), &[1, 1, 1, 0, 0]));
    score.count(sent_as(token_check(0x70, 0x4), &[0, 1, 1, 1, 0]));
    println!(rt; "published checks of tokens: {score}")?;
    Ok(score)
}

pub fn bodies(rt: &HostRuntime) -> anyhow::Result<Score> {
    let mut score = Score::default();
    let first = body_check(&[0x00, 0x01, 0x02, 0x03]);
    score.count(sent_as(first, &[1, 1, 1, 1, 0, 1, 1, 1, 0, 1, 0, 1, 1, 1, 1, 0]));
    let second = body_check(&[0x23, 0x45, 0x67, 0x89]);
    score.count(sent_as(second, &[0, 1, 1, 1, 0, 0, 0, 0, 0, 0, 1, 1, 1, 0, 0, 0]));
    score.count(body_check(b"123456789") == 0xb4c8);
    println!(rt; "published checks of bodies: {score}")?;
    Ok(score)
}
