// Seals a sheet of five lines: docs/sheetseal.md has what it reads and prints.
#![tactic(auto)]

use sealtext::{OUTPUT_BYTES, sheetseal};
use std::io::{Read, Write};

fn run(rt: &HostRuntime) -> anyhow::Result<()> {
    let mut input = Vec::new(rt.alloc());
    rt.stdin().read_to_end(&mut input)?;
    let mut out = [0; OUTPUT_BYTES];
    let count = sheetseal(&input, &mut out);
    rt.stdout().write_all(&out[0..count])?;
    Ok(())
}

fn main(rt: HostRuntime) -> anyhow::Result<()> {
    run(&rt)
}
