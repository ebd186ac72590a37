// Shows the workings of the method: docs/method.md has the lines that it reads.
#![tactic(auto)]

use workinglines::session::Session;

// `encipher` has the same loop over a session of its own; one for both would want a trait and a crate
fn run(rt: &HostRuntime) -> anyhow::Result<()> {
    let mut session = Session::new();
    for (number, line) in (1u64..).zip(rt.lines(rt.alloc())) {
        match session.feed(rt.alloc(), line?.as_str())? {
            Some(reply) => println!(rt; "{reply}")?,
            None => println!(rt; "bad line {number}")?,
        }
    }
    Ok(())
}

fn main(rt: HostRuntime) -> anyhow::Result<()> {
    run(&rt)
}
