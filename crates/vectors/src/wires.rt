// Wires at their edges: noise, a tally that stops at 255, and hubs of hubs.
use super::noise::NoiseWire;
use super::score::Score;
use packet::read;
use wire::{Direction, Hub, PerfectWire, Port, ScriptedWire, Wire};

// What arrives of these bytes is read as a packet.
fn gets_through<W: Wire>(wire: &mut W, direction: Direction, sent: &[u8]) -> bool {
    let mut heard = [0xa5; 67];
    let count = wire.carry(direction, sent, &mut heard);
    heard.get(..count).is_some_and(|bytes| read(bytes).is_ok())
}

pub fn noise(rt: &HostRuntime) -> anyhow::Result<Score> {
    let mut score = Score::default();
    let mut wire = NoiseWire::new();
    let mut heard = [0xa5; 67];
    score.count(wire.carry(Direction::Outward, &[0xd2], &mut heard) == 67);
    score.count(wire.tell() == 1);
    score.count(!gets_through(&mut wire, Direction::Homeward, &[0x2d, 0x00, 0x10]));
    score.count(wire.carry(Direction::Outward, &[], &mut heard) == 0 && wire.tell() == 2);
    score.count(wire.carry(Direction::Outward, &[0; 68], &mut heard) == 0 && wire.tell() == 3);
    for _ in 0..300 {
        let _ = wire.carry(Direction::Outward, &[0xd2], &mut heard);
    }
    score.count(wire.tell() == 255);
    wire.clear();
    score.count(wire.tell() == 0);
    println!(rt; "a wire of noise: {score}")?;
    Ok(score)
}

fn scripted(rt: &HostRuntime, entries: &[u16]) -> anyhow::Result<ScriptedWire> {
    Ok(ScriptedWire::new(entries.to_vec(rt.alloc())?))
}

// A hub of two hubs: outward the four wires are passed in order, homeward in the opposite order.
pub fn hubs(rt: &HostRuntime) -> anyhow::Result<Score> {
    let mut score = Score::default();
    let near = Hub::new(PerfectWire::new(), scripted(rt, &[0, 65535, 0])?);
    let far = Hub::new(scripted(rt, &[0, 0, 5])?, PerfectWire::new());
    let mut wire = Hub::new(near, far);
    score.count(gets_through(&mut wire, Direction::Outward, &[0xd2]) && wire.tell() == 0);
    score.count(!gets_through(&mut wire, Direction::Outward, &[0xd2]) && wire.tell() == 1);
    score.count(gets_through(&mut wire, Direction::Homeward, &[0xd2]) && wire.tell() == 1);
    score.count(
        !gets_through(&mut wire, Direction::Outward, &[0x2d, 0x00, 0x10]) && wire.tell() == 2,
    );
    score.count(
        gets_through(&mut wire, Direction::Outward, &[0x2d, 0x00, 0x10]) && wire.tell() == 2,
    );
    wire.set_port(Port::Closed);
    score.count(!gets_through(&mut wire, Direction::Outward, &[0xd2]) && wire.tell() == 3);
    wire.set_port(Port::Open);
    score.count(gets_through(&mut wire, Direction::Homeward, &[0xd2]) && wire.tell() == 3);
    println!(rt; "a hub of hubs: {score}")?;
    Ok(score)
}
