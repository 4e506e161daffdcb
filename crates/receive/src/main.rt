// Reads text lines from standard input, and writes what is answered to them.
#![tactic(auto)]

use faults::MOST_INPUT;
use receiving::received;
use std::io::Read;

// A byte more than an input may have is enough to refuse it.
const ENOUGH: u64 = MOST_INPUT as u64 + 1;

fn run(rt: &HostRuntime) -> anyhow::Result<()> {
    let mut input = Vec::new(rt.alloc());
    rt.stdin().take(ENOUGH).read_to_end(&mut input)?;
    let text = received(rt.alloc(), &input)?;
    print!(rt; "{text}")?;
    Ok(())
}

fn main(rt: HostRuntime) -> anyhow::Result<()> {
    run(&rt)
}
