// Replays a recorded list of calls on a frame of a circulant code and on its image under a codeword,
// and tells in what the answers differ.
#![tactic(auto)]

mod comparing;
mod given;
mod memory;
mod recorded;
mod telling;
mod trials;

use given::{BITS, CHECKS, Given};
use telling::show_trial;

fn run(rt: &HostRuntime) -> anyhow::Result<()> {
    let heap = rt.alloc();
    let mut given = Given::new(heap)?;
    println!(rt; "a code of {BITS} bits and {CHECKS} checks")?;
    println!(rt; "two switch rules, generated noise")?;
    show_trial(rt, &trials::switches(heap, &given), &given.word)?;
    println!(rt; "a customer's rule and single, a customer's noise")?;
    show_trial(rt, &trials::of_customer(heap, &given), &given.word)?;
    println!(rt; "weight 0")?;
    show_trial(rt, &trials::singles(heap, &given, 0), &given.word)?;
    given.spoil(100);
    println!(rt; "sample 100 is not a number")?;
    show_trial(rt, &trials::singles(heap, &given, 2), &given.word)
}

fn main(rt: HostRuntime) -> anyhow::Result<()> {
    run(&rt)
}
