// From an input of text lines to the lines that are answered.
ghost use Rattle.std.specs.Prelude.{◌≡◌, string_bytes, MatchResult};
ghost use Rattle.faults.specs.declared.Fault.TheVariants.{NoMemory};
ghost use Rattle.rules.specs.Chosen.{meaning_of};
ghost use Rattle.lines.specs.Left.{left_of};
ghost use Rattle.lines.specs.Lines.{placed_of, seen};
ghost use Rattle.receiving.specs.Received.{frame_text, seen_text, left_text, received_text};

use crate::line::{refusal_line, report_line};
use crate::report::decode_levels;
use faults::Fault;
use lines::{Line, Part, Text};
use rules::Chosen;
use seven::Seven;
use std::alloc::Global;

// What frame lines are answered with: memory, the code, and the rule of the input.
#[derive(Drop)]
struct Receiver {
    heap: Global,
    code: Seven,
    rule: Chosen,
}

impl Receiver {
    // The line of a frame line.
    fn frame_line(&mut self, part: Part) -> Result<String, Fault>
        ensures text { MatchResult result (λ s. string_bytes s ≡ frame_text (meaning_of self.old.rule) (placed_of part.entry)) (λ e. e ≡ NoMemory) }
        ensures meaning { meaning_of self.new.rule ≡ meaning_of self.old.rule }
    {
        let levels = match part.levels(self.heap) {
            Ok(levels) => levels,
            Err(fault) => return refusal_line(self.heap, fault),
        };
        match decode_levels(&self.code, &mut self.rule, &levels) {
            Ok(report) => report_line(self.heap, &report),
            Err(fault) => refusal_line(self.heap, fault),
        }
    }

    // The line that a line is answered with, and nothing for one that is no frame.
    fn line_text(&mut self, line: Line) -> Result<String, Fault>
        ensures text { MatchResult result (λ s. string_bytes s ≡ seen_text (meaning_of self.old.rule) (seen line.entry)) (λ e. e ≡ NoMemory) }
        ensures meaning { meaning_of self.new.rule ≡ meaning_of self.old.rule }
    {
        match line {
            Line::Rule(_) => Ok(String::new(self.heap)),
            Line::Frame(part) => self.frame_line(part),
        }
    }

    // The lines of all that is left.
    fn lines_text(&mut self, text: &mut Text) -> Result<String, Fault>
        ensures { MatchResult result (λ s. string_bytes s ≡ left_text (meaning_of self.old.rule) (left_of text.old)) (λ e. e ≡ NoMemory) }
    {
        let mut out = String::new(self.heap);
        while let Some(line) = text.next_line() {
            let answer = self.line_text(line)?;
            out.push_str(answer.as_str())?;
        }
        Ok(out)
    }
}

// What is answered to an input: a line for each frame line, or one line for an input that does not
// open. An error is want of memory.
pub fn received(heap: Global, input: &[u8]) -> Result<String, Fault>
    ensures { MatchResult result (λ s. string_bytes s ≡ received_text input.now) (λ e. e ≡ NoMemory) }
{
    match Text::open(input) {
        Ok((rule, mut text)) => {
            let code = Seven::new(heap)?;
            let mut receiver = Receiver { heap, code, rule };
            receiver.lines_text(&mut text)
        }
        Err(fault) => refusal_line(heap, fault),
    }
}
