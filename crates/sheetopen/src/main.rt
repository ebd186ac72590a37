// Opens the sheet that its input tells: a line with a cipher's name, one with a key in digits, and then the sheet's lines. It writes the
// header and the message in digits, a line each, or why it does not.
#![tactic(auto)]

use std::io::{Read, Write};

fn run(rt: &HostRuntime) -> anyhow::Result<()> {
    let mut input = Vec::new(rt.alloc());
    rt.stdin().read_to_end(&mut input)?;
    let output = opentext::sheetopen(rt.alloc(), &input)?;
    rt.stdout().write_all(&output)?;
    Ok(())
}

fn main(rt: HostRuntime) -> anyhow::Result<()> {
    run(&rt)
}
