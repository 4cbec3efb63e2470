// Attaching over hubs that spoil a packet, with what came of it and how many packets each wire of the hub was given. No
// contract can tell which way the host sends a packet, since a wire means the same both ways; the counts of a hub's wires do.
#![tactic(auto)]

use host::{Fault, Host, Place};
use reader::Reader;
use store::PlainDisk;
use wire::{Hub, Port, ScriptedWire, Wire};

// Long enough that no packet of an attach is past a script's end, where packets are no longer counted.
const ENTRIES: usize = 40;

// A wire that does this to its first packets, and delivers the others.
fn scripted(rt: &HostRuntime, first: &[u16]) -> anyhow::Result<ScriptedWire> {
    let mut script = first.to_vec(rt.alloc())?;
    script.extend_from_slice(&[0; ENTRIES])?;
    Ok(ScriptedWire::new(script))
}

fn attach(rt: &HostRuntime, name: &str, first: &[u16], port: Port) -> anyhow::Result<()> {
    let mut hub = Hub::new(scripted(rt, first)?, scripted(rt, &[])?);
    hub.set_port(port);
    let mut reader = Reader::new(PlainDisk::new(Vec::new(rt.alloc())));
    let mut host = Host::new();
    match host.attach(&mut hub, &mut reader) {
        Ok(()) => println!(rt; "{name}: attached")?,
        Err(Fault { cause, place, tag }) => {
            let cause = u8::from(cause);
            let Place {
                endpoint,
                stage,
                packet,
            } = place;
            println!(rt;
                "{name}: given up, cause {cause}, endpoint {endpoint}, stage {stage}, tag {tag}, packet {packet}"
            )?;
        }
    }
    let spoiled = hub.tell();
    let (near, far) = hub.into_parts();
    let near = near.place();
    let far = far.place();
    println!(rt; "  {spoiled} spoiled; the first wire was given {near} packets, the second {far}")?;
    Ok(())
}

fn main(rt: HostRuntime) -> anyhow::Result<()> {
    attach(&rt, "nothing spoiled", &[], Port::Open)?;
    attach(
        &rt,
        "the first SETUP lost on its way out",
        &[65535],
        Port::Open,
    )?;
    attach(
        &rt,
        "the first ACK lost on its way home",
        &[0, 0, 65535],
        Port::Open,
    )?;
    attach(&rt, "a closed port", &[], Port::Closed)
}
