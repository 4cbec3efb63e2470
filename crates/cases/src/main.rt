// Runs the scripts in data/, whose expected output comes from an independent model of the rules. A program of its own beside
// the bench, which has help and reads standard input too: one for both would need an argument to tell them apart.
#![tactic(auto)]

use anyhow::anyhow;
use fixture::run_files;
use std::env;

fn main(rt: HostRuntime) -> anyhow::Result<()> {
    let scripts: Vec<String> = env::args(&rt)?.skip(1).collect(rt.alloc())?;
    if run_files(&rt, scripts.as_slice())? {
        Ok(())
    } else {
        Err(anyhow!("a script was not understood"))
    }
}
