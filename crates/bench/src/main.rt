// The bench: runs scripts of steps on the link, and prints each step and what came of it.
#![tactic(auto)]

mod help;

ghost use Rattle.std.specs.Prelude.{◌≡◌};
ghost use Rattle.bench.specs.Asked.{help_asked};

use anyhow::anyhow;
use fixture::{run_files, run_script};
use help::HELP;
use std::io::Read;
use std::{env, io};

fn run_input(rt: &HostRuntime) -> io::Result<bool> {
    let mut text = Vec::new(rt.alloc());
    rt.stdin().read_to_end(&mut text)?;
    run_script(rt.alloc(), rt, text.as_slice())
}

fn asks_for_help(arguments: &[String]) -> bool
    ensures { result ≡ help_asked arguments.now }
{
    arguments
        .iter()
        .any(|argument| argument.as_str() == "--help")
}

// Runs what the arguments name, or standard input, and says whether all of it was understood.
fn run_all(rt: &HostRuntime, arguments: &[String]) -> io::Result<bool> {
    if asks_for_help(arguments) {
        rt.print(HELP)?;
        return Ok(true);
    }
    if arguments.is_empty() {
        return run_input(rt);
    }
    run_files(rt, arguments)
}

fn main(rt: HostRuntime) -> anyhow::Result<()> {
    let arguments: Vec<String> = env::args(&rt)?.skip(1).collect(rt.alloc())?;
    if run_all(&rt, arguments.as_slice())? {
        Ok(())
    } else {
        Err(anyhow!("not all was understood"))
    }
}
