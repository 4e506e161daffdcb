// From samples to levels, and what is refused on the way.
use crate::making::show_made;
use quantiser::{LEAST_STEP, MOST_BOUNDARY, MOST_STEP, Quantiser, most_level, quantise};

// The least subnormal and the largest.
const LEAST: f32 = 1e-45;

const LARGEST_SUBNORMAL: f32 = 1.1754942e-38;

// The level of each sample.
fn show(
    rt: &HostRuntime,
    name: &str,
    quantiser: &Quantiser,
    samples: &[f32],
) -> anyhow::Result<()> {
    for x in samples {
        let level = quantiser.level(*x);
        println!(rt; "{name}: {x:?} -> {level}")?;
    }
    Ok(())
}

pub(crate) fn uniform(rt: &HostRuntime) -> anyhow::Result<()> {
    let most = most_level();
    println!(rt; "levels from -{most} to {most}")?;
    let quarter = Quantiser::uniform(0.25)?;
    show(rt, "step 0.25", &quarter, &[0.2, 0.25, -0.5, 100.0])?;
    // 0.7 is below seven times the step, and is that product rounded once.
    let tenth = Quantiser::uniform(0.1)?;
    let seven: f32 = 0.7;
    show(rt, "step 0.1", &tenth, &[seven.next_down(), seven])
}

pub(crate) fn bounded(rt: &HostRuntime) -> anyhow::Result<()> {
    let three = Quantiser::bounded(0.5, 1.0, 2.0)?;
    show(
        rt,
        "boundaries 0.5, 1, 2",
        &three,
        &[0.4, 0.5, 1.0, -1.5, 2.0],
    )
}

// Zeros, infinities and subnormals; and a NaN, which passes no comparison.
pub(crate) fn far_and_near(rt: &HostRuntime) -> anyhow::Result<()> {
    let samples = [
        0.0,
        -0.0,
        f32::INFINITY,
        f32::NEG_INFINITY,
        LEAST,
        -LEAST,
        LARGEST_SUBNORMAL,
        -LARGEST_SUBNORMAL,
        f32::NAN,
    ];
    let quarter = Quantiser::uniform(0.25)?;
    show(rt, "step 0.25", &quarter, &samples)?;
    let near = Quantiser::bounded(LEAST, LARGEST_SUBNORMAL, MOST_BOUNDARY)?;
    show(
        rt,
        "boundaries 1e-45, 1.1754942e-38, 16384",
        &near,
        &samples,
    )
}

// The ends of the range of steps, and their neighbours outside.
pub(crate) fn steps(rt: &HostRuntime) -> anyhow::Result<()> {
    let ends = [
        LEAST_STEP,
        LEAST_STEP.next_down(),
        MOST_STEP,
        MOST_STEP.next_up(),
        -1.0,
        f32::INFINITY,
        f32::NAN,
    ];
    for step in &ends {
        print!(rt; "step {step:?}")?;
        show_made(rt, Quantiser::uniform(*step))?;
    }
    Ok(())
}

// The ends of the range of boundaries, and such as do not rise.
pub(crate) fn boundaries(rt: &HostRuntime) -> anyhow::Result<()> {
    let triples = [
        [LEAST, 1.0, MOST_BOUNDARY],
        [0.0, 1.0, 2.0],
        [1.0, 1.0, 2.0],
        [1.0, 2.0, 2.0],
        [1.0, 2.0, MOST_BOUNDARY.next_up()],
        [1.0, f32::NAN, 2.0],
    ];
    for [a, b, c] in &triples {
        print!(rt; "boundaries {a:?}, {b:?}, {c:?}")?;
        show_made(rt, Quantiser::bounded(*a, *b, *c))?;
    }
    Ok(())
}

// A whole run of samples, over levels that are all 7 before.
fn show_run(rt: &HostRuntime, samples: &[f32]) -> anyhow::Result<()> {
    let quarter = Quantiser::uniform(0.25)?;
    let mut levels = [7i8; 3];
    match quantise(&quarter, samples, &mut levels) {
        Ok(()) => println!(rt; "{samples:?} -> {levels:?}")?,
        Err(fault) => println!(rt; "{samples:?} -> {fault}, {levels:?}")?,
    }
    Ok(())
}

pub(crate) fn many(rt: &HostRuntime) -> anyhow::Result<()> {
    show_run(rt, &[0.2, -0.5, f32::NEG_INFINITY])?;
    show_run(rt, &[0.2, f32::NAN])?;
    show_run(rt, &[0.2, f32::NAN, f32::NAN])
}
