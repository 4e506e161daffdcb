// What is printed of a trial.
use crate::comparing::{Readings, equal_answers, turned_answers};
use decoder::{Replayed, Trial};
use faults::Fault;
use plain::Answer;

// In how many of so many bits two readings differ, and between which.
fn show_readings(rt: &HostRuntime, readings: Readings, bits: usize) -> anyhow::Result<()> {
    let count = readings.differing(bits);
    print!(rt; "read: {count} bits differ")?;
    if let Some(first) = readings.first_differing(bits) {
        print!(rt; ", the first {first}")?;
    }
    if let Some(last) = readings.last_differing(bits) {
        print!(rt; ", the last {last}")?;
    }
    Ok(())
}

// A call that decodes or reads.
fn show_call(
    rt: &HostRuntime,
    call: usize,
    a: &Answer<Vec<u8>>,
    b: &Answer<Vec<u8>>,
    word: &[bool],
) -> anyhow::Result<()> {
    match (a, b) {
        (Answer::Ended(u, m), Answer::Ended(v, n)) => {
            println!(rt; "  call {call}, decode: {u} after {m} rounds, the image {v} after {n}")?;
            Ok(())
        }
        (Answer::Packed(xs), Answer::Packed(ys)) => {
            print!(rt; "  call {call}, ")?;
            let readings = Readings {
                first: xs,
                second: ys,
            };
            show_readings(rt, readings, word.len())?;
            let exactly = readings.differ_exactly(word);
            println!(rt; "; exactly at the ones of the codeword: {exactly}")?;
            Ok(())
        }
        _ => Ok(()),
    }
}

// The decodes and readings of both sides, and how many answers are equal.
fn show_answers(
    rt: &HostRuntime,
    first: &[Answer<Vec<u8>>],
    second: &[Answer<Vec<u8>>],
    word: &[bool],
) -> anyhow::Result<()> {
    for (call, (a, b)) in first.iter().zip(second).enumerate() {
        show_call(rt, call, a, b, word)?;
    }
    let calls = first.len();
    let other_calls = second.len();
    println!(rt; "  {calls} calls, and {other_calls} on the image")?;
    let equal = equal_answers(first, second);
    let turned = turned_answers(first, second, word);
    println!(rt;
        "  {equal} answers equal, {turned} readings that differ exactly at the ones of the codeword"
    )?;
    Ok(())
}

fn show_side(rt: &HostRuntime, side: &Result<Replayed, Fault>) -> anyhow::Result<()> {
    match side {
        Ok(replayed) => println!(rt; "{} calls", replayed.answers.len())?,
        Err(fault) => println!(rt; "refused {fault}")?,
    }
    Ok(())
}

// What both sides came to.
pub(crate) fn show_trial(
    rt: &HostRuntime,
    trial: &Result<Trial, Fault>,
    word: &[bool],
) -> anyhow::Result<()> {
    match trial {
        Ok(
            Trial {
                first: Ok(a),
                second: Ok(b),
            },
        ) => show_answers(rt, &a.answers, &b.answers, word),
        Ok(Trial { first, second }) => {
            print!(rt; "  the frame: ")?;
            show_side(rt, first)?;
            print!(rt; "  the image: ")?;
            show_side(rt, second)
        }
        Err(fault) => {
            println!(rt; "  no trial: {fault}")?;
            Ok(())
        }
    }
}
