// The lines of text that are answered.
ghost use Rattle.std.specs.Prelude.{◌≡◌, string_bytes, MatchResult, ◌≢◌};
ghost use Rattle.faults.specs.Rows.{row_of};
ghost use Rattle.faults.specs.declared.Fault.TheVariants.{NoMemory};
ghost use Rattle.receiving.specs.Reports.{answers_of_report};
ghost use Rattle.receiving.specs.Text.{hex_text, answers_line, refused_line};

use crate::report::Report;
use decoder::Ended;
use faults::Fault;
use std::alloc::Global;

// Two hexadecimal digits for each byte.
#[tactic(auto, using(crate::proofs::Texts::hex_more))]
fn hex_text(heap: Global, bytes: &[u8]) -> Result<String, Fault>
    ensures { MatchResult result (λ s. string_bytes s ≡ hex_text bytes.now) (λ e. e ≡ NoMemory) }
{
    let mut text = String::new(heap);
    for byte in bytes {
        write!(text, "{byte:02x}")?;
    }
    Ok(text)
}

// Verdict, rounds, gain and packed digits.
pub(crate) fn report_line(heap: Global, report: &Report) -> Result<String, Fault>
    ensures { MatchResult result (λ s. string_bytes s ≡ answers_line (answers_of_report report.now)) (λ e. e ≡ NoMemory) }
{
    let Ended { verdict, rounds } = report.ended;
    let gain = report.weights.gain;
    let digits = hex_text(heap, &report.bytes)?;
    Ok(format!(in heap; "{verdict} {rounds} {gain} {digits}\n")?)
}

// The line of a fault; but want of memory is no line, and stays a fault.
pub(crate) fn refusal_line(heap: Global, fault: Fault) -> Result<String, Fault>
    ensures { MatchResult result (λ s. (string_bytes s ≡ refused_line (row_of fault)) × (fault ≢ NoMemory)) (λ e. e ≡ NoMemory) }
{
    if fault == Fault::NoMemory {
        return Err(fault);
    }
    Ok(format!(in heap; "refused {fault}\n")?)
}
