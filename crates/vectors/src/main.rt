// Outside vectors: USB's published checks, the examples of each refusal, every kind of packet built and read back at the
// edges of its fields, wires and stores at theirs. Prints a line for each group and a count; fails where one differs.
#![tactic(auto)]

use anyhow::anyhow;
use score::Score;

mod noise;
mod published;
mod refusals;
mod refused;
mod score;
mod stores;
mod there_and_back;
mod wires;

fn main(rt: HostRuntime) -> anyhow::Result<()> {
    run(&rt)
}

fn run(rt: &HostRuntime) -> anyhow::Result<()> {
    let mut all = Score::default();
    all += published::tokens(rt)?;
    all += published::bodies(rt)?;
    all += refusals::reading(rt)?;
    all += refusals::building(rt)?;
    all += there_and_back::tokens(rt)?;
    all += there_and_back::bodies(rt)?;
    all += there_and_back::handshakes(rt)?;
    all += wires::noise(rt)?;
    all += wires::hubs(rt)?;
    all += stores::refusals(rt)?;
    all += stores::verdicts(rt)?;
    println!(rt; "all: {all}")?;
    if all.any_differed() {
        return Err(anyhow!("a vector differs"));
    }
    Ok(())
}
