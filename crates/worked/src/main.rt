// Worked examples of the link decoder's layers, a line for each, and a function for each group.
#![tactic(auto)]

mod choosing;
mod making;
mod quantising;
mod reading;

fn run(rt: &HostRuntime) -> anyhow::Result<()> {
    quantising::uniform(rt)?;
    quantising::bounded(rt)?;
    quantising::far_and_near(rt)?;
    quantising::steps(rt)?;
    quantising::boundaries(rt)?;
    quantising::many(rt)?;
    choosing::sources(rt)?;
    choosing::refusals(rt)?;
    choosing::choices(rt)?;
    reading::small(rt)?;
    reading::hostile(rt)?;
    reading::long(rt)
}

fn main(rt: HostRuntime) -> anyhow::Result<()> {
    run(&rt)
}
