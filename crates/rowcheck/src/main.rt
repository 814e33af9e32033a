// Reads a row file from standard input and writes it back, byte for byte; of a faulty text it prints `!`, the line and the number.
#![tactic(auto)]

use anyhow::anyhow;
use rowfile::reader::MAX_BYTES;
use rowfile::{ReadError, rewrite};
use std::io::{Read, Write};

fn run(rt: &HostRuntime) -> anyhow::Result<()> {
    let mut text = Vec::new(rt.alloc());
    // one byte more than a row file may have is enough to know that it is too long
    rt.stdin()
        .take(MAX_BYTES as u64 + 1)
        .read_to_end(&mut text)?;
    // Kept: memory and the length written, since `rewrite` writes into memory handed over.
    let mut out = [0; MAX_BYTES];
    match rewrite(rt.alloc(), &text, &mut out) {
        Ok(length) => rt.stdout().write_all(&out[..length])?,
        Err(ReadError::Fault(fault)) => println!(rt; "{fault}")?,
        Err(ReadError::Memory) => return Err(anyhow!("out of memory")),
    }
    Ok(())
}

fn main(rt: HostRuntime) -> anyhow::Result<()> {
    run(&rt)
}
