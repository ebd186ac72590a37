// Takes mark stores through a day: docs/stores.md has the lines that it reads.
#![tactic(auto)]

ghost use Rattle.std.specs.Prelude.{◌≤◌, length};

use std::io;
use std::slice::Iter;
use storelines::order::Order;
use storelines::start::Start;
use stores::register::Register;
use stores::store::MarkStore;
use stores::strip::Strip;

// A line with its number, from 1 on.
type Line = (u64, String);

// A store that can be printed: what it holds, line by line.
trait Shown: MarkStore {
    fn show(&self, rt: &HostRuntime) -> io::Result<()>;
}

impl Shown for Register {
    fn show(&self, rt: &HostRuntime) -> io::Result<()> {
        println!(rt; "  {}", self.reading())
    }
}

impl Shown for Strip<'_> {
    fn show(&self, rt: &HostRuntime) -> io::Result<()> {
        println!(rt; "  {}", self.reading())?;
        print!(rt; "  cells ")?;
        // as `sealday` prints bytes: a line each, and a Display for both would want a crate below them
        for cell in self.cells() {
            print!(rt; "{cell:02x}")?;
        }
        println!(rt; "")
    }
}

// Gives the orders up to an empty line. No line comes back.
fn day<S: Shown>(rt: &HostRuntime, lines: &mut Iter<'_, Line>, store: &mut S) -> io::Result<()>
    ensures { length lines.new.rest.now ≤ length lines.old.rest.now }
{
    store.show(rt)?;
    // Not `for .. in lines`: a proof does not know what a lent iterator holds after such a loop.
    while let Some((number, line)) = lines.next() {
        if line.is_empty() {
            return println!(rt; "");
        }
        match Order::from_line(line) {
            Some(order) => {
                println!(rt; "{}", order.give(store))?;
                store.show(rt)?;
            }
            None => println!(rt; "bad line {number}")?,
        }
    }
    Ok(())
}

fn run(rt: &HostRuntime) -> anyhow::Result<()> {
    let mut all = Vec::new(rt.alloc());
    for (number, line) in (1u64..).zip(rt.lines(rt.alloc())) {
        all.push((number, line?))?;
    }
    let mut lines = all.iter();
    // not `for`: `day` draws on the same lines
    while let Some((number, line)) = lines.next() {
        match Start::from_line(rt.alloc(), line)? {
            Some(Start::Register { mark, supply }) => {
                println!(rt; "register")?;
                day(rt, &mut lines, &mut Register::new(mark, supply))?;
            }
            Some(Start::Strip { mut cells, supply }) => {
                println!(rt; "strip")?;
                day(rt, &mut lines, &mut Strip::new(&mut cells, supply))?;
            }
            None => println!(rt; "bad line {number}")?,
        }
    }
    Ok(())
}

fn main(rt: HostRuntime) -> anyhow::Result<()> {
    run(&rt)
}
