// Lines of text, from what a link may deliver.
use lines::{Line, Part, Text};
use rules::Chosen;

// Kept: the kind alone; a rule that printed itself would give its threshold too.
fn name_of(rule: Chosen) -> &'static str {
    match rule {
        Chosen::Single(_) => "single",
        Chosen::Multi(_) => "multi",
        Chosen::Switch(_) => "switch",
    }
}

fn show_rule(rt: &HostRuntime, line: Part) -> anyhow::Result<()> {
    match line.rule() {
        Ok(rule) => println!(rt; "  rule {}", name_of(rule))?,
        Err(fault) => println!(rt; "  refused {fault}")?,
    }
    Ok(())
}

// How many levels a frame line has, and the first and the last.
fn show_frame(rt: &HostRuntime, line: Part) -> anyhow::Result<()> {
    match line.levels(rt.alloc()) {
        Ok(levels) => {
            let first = levels.first().copied().unwrap_or(0);
            let last = levels.last().copied().unwrap_or(0);
            println!(rt;
                "  at {}: {} levels, {first} to {last}",
                line.place(),
                levels.len()
            )?
        }
        Err(fault) => println!(rt; "  refused {fault}")?,
    }
    Ok(())
}

fn show_text(rt: &HostRuntime, name: &str, input: &[u8]) -> anyhow::Result<()> {
    println!(rt; "{name}")?;
    let mut text = match Text::new(input) {
        Ok(text) => text,
        Err(fault) => {
            println!(rt; "  refused {fault}")?;
            return Ok(());
        }
    };
    while let Some(line) = text.next_line() {
        match line {
            Line::Rule(part) => show_rule(rt, part)?,
            Line::Frame(part) => show_frame(rt, part)?,
        }
    }
    Ok(())
}

pub(crate) fn small(rt: &HostRuntime) -> anyhow::Result<()> {
    show_text(rt, "empty input", b"")?;
    show_text(rt, "a line feed", b"\n")?;
    show_text(rt, "single, and no frame", b"single")?;
    show_text(rt, "no last line feed", b"multi ff\n0501fb\n807f")?;
    show_text(
        rt,
        "an empty line, and a last line feed",
        b"switch 80\n\n05\n",
    )?;
    show_text(rt, "a threshold that is not below 0", b"multi 7f\n")?;
    show_text(rt, "a capital digit in the rule", b"multi FF\n")?;
    show_text(rt, "a space too many", b"single \n05\n")
}

pub(crate) fn hostile(rt: &HostRuntime) -> anyhow::Result<()> {
    show_text(rt, "a carriage return", b"single\n05\r\n05\n")?;
    show_text(rt, "a capital letter", b"single\n0F\n")?;
    show_text(rt, "a NUL and a high byte", b"single\n0\x00\n0505\xff5\n05")?;
    show_text(rt, "an odd number of digits", b"single\n05\n050\n")?;
    show_text(rt, "no digit, and an odd number", b"single\n05x\n")
}

// A rule line, and a frame line of so many digits.
fn show_digits(rt: &HostRuntime, name: &str, count: usize) -> anyhow::Result<()> {
    let heap = rt.alloc();
    let mut input = Vec::from_slice(heap, b"single\n")?;
    let digits = vec![in heap; b'5'; count]?;
    input.extend_from_slice(&digits)?;
    show_text(rt, name, &input)
}

pub(crate) fn long(rt: &HostRuntime) -> anyhow::Result<()> {
    show_digits(rt, "8,192 digits", 8192)?;
    show_digits(rt, "8,193 digits", 8193)?;
    show_digits(rt, "8,194 digits", 8194)?;
    show_digits(rt, "16,384 bytes", 16377)?;
    show_digits(rt, "16,385 bytes", 16378)
}
