// Worked examples of frames, and of answers to whole inputs.
#![tactic(auto)]

mod answering;
mod framing;

fn run(rt: &HostRuntime) -> anyhow::Result<()> {
    framing::openings(rt)?;
    framing::limits_and_sizes(rt)?;
    framing::own_records(rt)?;
    answering::inputs(rt)?;
    answering::rules(rt)
}

fn main(rt: HostRuntime) -> anyhow::Result<()> {
    run(&rt)
}
