// `sweeps`: plays a row file from standard input and prints a line for each of its commands, or `!`, line and number where the text is faulty.
#![tactic(auto)]

use session::play;
use std::io::Read;

// One byte more than a row file may have is enough to know that it is too long.
// Kept: the number, since this program depends on the session alone.
const MOST_READ: u64 = 32_769;

fn run(rt: &HostRuntime) -> anyhow::Result<()> {
    let mut text = Vec::new(rt.alloc());
    rt.stdin().take(MOST_READ).read_to_end(&mut text)?;
    let lines = play(rt.alloc(), &text)?;
    rt.print(lines.as_str())?;
    Ok(())
}

fn main(rt: HostRuntime) -> anyhow::Result<()> {
    run(&rt)
}
