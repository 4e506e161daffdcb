// What is answered to whole inputs, from what a link may deliver.
use receiving::received;

fn show_answer(rt: &HostRuntime, name: &str, input: &[u8]) -> anyhow::Result<()> {
    let text = received(rt.alloc(), input)?;
    println!(rt; "answer to {name}")?;
    print!(rt; "{text}")?;
    Ok(())
}

pub(crate) fn inputs(rt: &HostRuntime) -> anyhow::Result<()> {
    show_answer(rt, "an empty input", b"")?;
    show_answer(rt, "a rule, and no frame", b"single")?;
    show_answer(rt, "a rule with a carriage return", b"single\r\n")?;
    show_answer(
        rt,
        "a frame with a carriage return, and one without a line feed",
        b"single\n050505050505ff\r\nfbfbfb050505ff",
    )?;
    show_answer(
        rt,
        "a NUL, a high byte and an empty line",
        b"single\n05\x0005\n0505\xff5\n\n",
    )?;
    show_answer(rt, "an odd number of digits", b"single\n050505050505f\n")
}

pub(crate) fn rules(rt: &HostRuntime) -> anyhow::Result<()> {
    show_answer(
        rt,
        "the multi rule",
        b"multi ff\n0505ff050505ff\nfbfbfb050505ff\n",
    )?;
    show_answer(
        rt,
        "the switch rule, the same frame twice",
        b"switch ff\n0505ff050505ff\n0505ff050505ff\n",
    )
}
