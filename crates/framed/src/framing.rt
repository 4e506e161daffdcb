// Frames: what an opening refuses, a limit of no rounds, codes of another size, and records of the
// caller's own making.
use decoder::Frame;
use engine::{Bit, Sign};
use faults::Fault;
use listed::{Listed, Pair};
use noise::Silent;
use rules::Single;
use std::alloc::Global;

// One check of so many bits.
fn together(heap: Global, bits: usize) -> Result<Listed, Fault> {
    let pairs: Vec<Pair> = (0..bits).map(|bit| Pair { check: 0, bit }).collect(heap)?;
    Listed::new(heap, bits, 1, &pairs, &pairs)
}

// Two checks, each of one bit.
fn apart(heap: Global) -> Result<Listed, Fault> {
    let pairs = [Pair { check: 0, bit: 0 }, Pair { check: 1, bit: 1 }];
    Listed::new(heap, 2, 2, &pairs, &pairs)
}

fn show_opening(
    rt: &HostRuntime,
    code: &Listed,
    levels: &[i8],
    weight: u8,
    limit: usize,
) -> anyhow::Result<()> {
    let mut records = [Bit::default(); 2];
    let mut signs = [Sign::default(); 1];
    print!(rt; "levels {levels:?}, weight {weight}, limit {limit}")?;
    match Frame::open(
        code,
        &mut Single,
        levels,
        weight,
        limit,
        &mut records,
        &mut signs,
    ) {
        Ok(_) => println!(rt; ": made")?,
        Err(fault) => println!(rt; ": {fault}")?,
    }
    Ok(())
}

pub(crate) fn openings(rt: &HostRuntime) -> anyhow::Result<()> {
    let code = together(rt.alloc(), 2)?;
    show_opening(rt, &code, &[1, -1], 0, 10)?;
    show_opening(rt, &code, &[1, -1], 1, 10)?;
    show_opening(rt, &code, &[1, -1], 16, 10)?;
    show_opening(rt, &code, &[1, -1], 17, 10)?;
    show_opening(rt, &code, &[1, -1], 1, 1000)?;
    show_opening(rt, &code, &[1, -1], 1, 1001)?;
    show_opening(rt, &code, &[31, -31], 1, 10)?;
    show_opening(rt, &code, &[31, -33], 1, 10)?;
    show_opening(rt, &code, &[2, 0], 0, 1001)?;
    show_opening(rt, &code, &[1, -1, 1], 0, 1001)
}

// A limit of no rounds, with an unmet check, and codes of another size.
pub(crate) fn limits_and_sizes(rt: &HostRuntime) -> anyhow::Result<()> {
    let code = together(rt.alloc(), 2)?;
    let mut records = [Bit::default(); 2];
    let mut signs = [Sign::default(); 1];
    let mut rule = Single;
    let mut frame = Frame::open(&code, &mut rule, &[1, -1], 3, 0, &mut records, &mut signs)?;
    let ended = frame.decode(&code, &mut rule, &Silent, &mut records, &mut signs)?;
    println!(rt; "limit 0: {} after {} rounds", ended.verdict, ended.rounds)?;
    let longer = together(rt.alloc(), 3)?;
    if let Err(fault) = frame.decode(&longer, &mut rule, &Silent, &mut records, &mut signs) {
        println!(rt; "a code of three bits: {fault}")?;
    }
    let wider = apart(rt.alloc())?;
    if let Err(fault) = frame.decode(&wider, &mut rule, &Silent, &mut records, &mut signs) {
        println!(rt; "a code of two checks: {fault}")?;
    }
    Ok(())
}

// Flips a bit, and shows all scores and the objective.
fn show_toggle(
    rt: &HostRuntime,
    frame: &mut Frame,
    code: &Listed,
    records: &mut [Bit; 2],
    signs: &mut [Sign; 1],
    bit: usize,
) -> anyhow::Result<()> {
    let score = frame.toggle(code, records, signs, bit)?;
    let weights = frame.weigh(records, 1)?;
    println!(rt;
        "toggle {bit}: {score}, and then {} {}, objective {}, gain {}",
        records[0].score, weights.score, weights.objective, weights.gain
    )?;
    Ok(())
}

// Scores at both ends of their type: what would pass the end stays there.
pub(crate) fn own_records(rt: &HostRuntime) -> anyhow::Result<()> {
    let code = together(rt.alloc(), 2)?;
    let mut records = [Bit::default(); 2];
    let mut signs = [Sign::default(); 1];
    let mut frame = Frame::open(
        &code,
        &mut Single,
        &[1, -1],
        3,
        10,
        &mut records,
        &mut signs,
    )?;
    records[0].score = i16::MIN;
    records[1].score = i16::MAX;
    show_toggle(rt, &mut frame, &code, &mut records, &mut signs, 0)?;
    records[1].score = i16::MIN;
    show_toggle(rt, &mut frame, &code, &mut records, &mut signs, 0)?;
    show_toggle(rt, &mut frame, &code, &mut records, &mut signs, 1)
}
