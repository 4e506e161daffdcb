// Noise sources and flip rules, and what their making refuses.
use crate::making::show_made;
use faults::Fault;
use noise::{Generator, MOST_BITS, MOST_ENTRIES, MOST_ROUNDS, Noise, Silent, Table};
use rules::{Chosen, Multi, Rule, Single, Switch};

// The noise at the first places, and at the last and those beyond.
fn show_noise<N: Noise>(rt: &HostRuntime, name: &str, noise: &N) -> anyhow::Result<()> {
    let first = noise.at(0, 0);
    let bit = noise.at(0, 1);
    let round = noise.at(1, 0);
    let last = noise.at(MOST_ROUNDS - 1, MOST_BITS - 1);
    let late = noise.at(MOST_ROUNDS, 0);
    let far = noise.at(0, MOST_BITS);
    println!(rt; "{name}: {first} {bit} {round}, last {last}, beyond {late} {far}")?;
    Ok(())
}

pub(crate) fn sources(rt: &HostRuntime) -> anyhow::Result<()> {
    show_noise(rt, "silence", &Silent)?;
    let table = Table::new(rt.alloc(), &[5, -255, 255])?;
    show_noise(rt, "table 5 -255 255", &table)?;
    let generator = Generator::new(1, 3)?;
    show_noise(rt, "seed 1, amplitude 3", &generator)?;
    let highest = Generator::new(u32::MAX, 255)?;
    show_noise(rt, "highest seed, amplitude 255", &highest)
}

// Names what is made, and says whether it was.
fn show_as<T: Drop>(rt: &HostRuntime, name: &str, made: Result<T, Fault>) -> anyhow::Result<()> {
    print!(rt; "{name}")?;
    show_made(rt, made)
}

pub(crate) fn refusals(rt: &HostRuntime) -> anyhow::Result<()> {
    let heap = rt.alloc();
    let long = vec![in heap; 0i16; MOST_ENTRIES + 1]?;
    show_as(rt, "empty table", Table::new(heap, &[]))?;
    show_as(
        rt,
        "longest table",
        Table::new(heap, &long[0..MOST_ENTRIES]),
    )?;
    show_as(rt, "longer table", Table::new(heap, &long))?;
    show_as(rt, "table 0 256 -256", Table::new(heap, &[0, 256, -256]))?;
    show_as(rt, "amplitude 255", Generator::new(0, 255))?;
    show_as(rt, "amplitude 256", Generator::new(0, 256))?;
    show_as(rt, "threshold -128", Multi::new(-128))?;
    show_as(rt, "threshold -129", Multi::new(-129))?;
    show_as(rt, "threshold -1", Switch::new(-1))?;
    show_as(rt, "threshold 0", Switch::new(0))
}

// What a rule says to the scores -2, -1 and 0, each once as the lowest and once not.
fn show_rule(rt: &HostRuntime, name: &str, rule: &Chosen) -> anyhow::Result<()> {
    for score in [-2i16, -1, 0] {
        let lowest = rule.flips(score, true);
        let other = rule.flips(score, false);
        println!(rt; "{name}, score {score}: {lowest} as the lowest, else {other}")?;
    }
    Ok(())
}

pub(crate) fn choices(rt: &HostRuntime) -> anyhow::Result<()> {
    show_rule(rt, "single", &Chosen::Single(Single))?;
    show_rule(rt, "multi at -1", &Chosen::Multi(Multi::new(-1)?))?;
    let mut switch = Chosen::Switch(Switch::new(-1)?);
    switch.tell(4, 4);
    show_rule(rt, "switch at -1, told 4 4", &switch)?;
    switch.tell(4, 3);
    switch.tell(3, 9);
    show_rule(rt, "then 4 3 and 3 9", &switch)?;
    switch.restart();
    show_rule(rt, "opened again", &switch)
}
