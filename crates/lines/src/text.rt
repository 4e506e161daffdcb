// The lines of an input, one after another.
ghost use Rattle.std.specs.Prelude.{◌≡◌, ◌<◌, ◌≤◌, ◌==◌, Decides, false, [], ◌∷◌, map, position, length, IfSome, Some, None, MatchOption, MatchResult};
ghost use Rattle.faults.specs.Rows.{row_of, T, most_input};
ghost use Rattle.rules.specs.Chosen.{meaning_of, state_of};
ghost use Rattle.rules.specs.declared.mode.Mode.TheVariants.{Many};
ghost use Rattle.lines.specs.Left.{left_of};
ghost use Rattle.lines.specs.Parts.{bytes_of};
ghost use Rattle.lines.specs.Lines.{feed, lines_from, kinds, placed_of, frame, seen, JoinedAgain, LinesInside};
ghost use Rattle.lines.specs.Open.{first_rule, later_lines, open_fault};

use crate::line::Line;
use crate::part::Part;
use faults::{Fault, MOST_INPUT};
use rules::Chosen;

// What is left of an input, and whether its first line was taken.
#[derive(Clone, Copy, Debug, PartialEq, Eq)]
pub struct Text<'a> {
    rest: Part<'a>,
    // Kept: an enum of two states only renames true and false; it is asked and set in one function.
    begun: bool,
}

// Where the first line feed stands.
fn line_end(bytes: &[u8]) -> Option<usize>
    ensures value { result ≡ position (λ b. b == feed) bytes.now }
    ensures within { IfSome result (λ n. n < length bytes.now) }
{
    bytes.iter().position(|b| *b == b'\n')
}

// The first line, and what comes after it.
#[tactic(auto, using(crate::proofs::Feeds::cut_at, crate::proofs::Feeds::cut_nowhere))]
fn cut<'a>(part: Part<'a>) -> (Part<'a>, Part<'a>)
    requires { 0 < length (bytes_of part) }
    ensures { lines_from part.entry.place (bytes_of part.entry) ≡ placed_of result.0 ∷ lines_from result.1.place (bytes_of result.1) }
{
    let Part {
        input,
        bytes,
        place,
    } = part;
    let Some(n) = line_end(bytes) else {
        return (part, part.skip(bytes.len()));
    };
    let line = Part {
        input,
        bytes: &bytes[..n],
        place,
    };
    (line, part.skip(n + 1))
}

impl<'a> Text<'a> {
    // An input whose lines are to be taken, or T1 for one of more than 16,384 bytes. The lines, each
    // with a line feed, are the input, up to a last line feed that it may lack; each lies within it.
    #[tactic(auto, using(crate::proofs::Feeds::joined_again, crate::proofs::Feeds::lines_inside))]
    pub fn new(input: &'a [u8]) -> Result<Text<'a>, Fault>
        ensures made { MatchResult result (λ t. (length input.now ≤ most_input) × (left_of t ≡ kinds false (lines_from 0 input.now))) (λ e. (most_input < length input.now) × (row_of e ≡ T 1 most_input)) }
        ensures whole { JoinedAgain }
        ensures inside { LinesInside }
    {
        if input.len() > MOST_INPUT {
            return Err(Fault::InputLength);
        }
        let rest = Part {
            input,
            bytes: input,
            place: 0,
        };
        Ok(Text { rest, begun: false })
    }

    // Whether what is left is identical, and the first line was taken of both or of neither.
    pub fn is_identical(&self, other: &Text<'_>) -> bool
        ensures { Decides result ((bytes_of self.now.rest ≡ bytes_of other.now.rest) × (self.now.rest.place ≡ other.now.rest.place) × (self.now.rest.input.now ≡ other.now.rest.input.now) × (self.now.begun ≡ other.now.begun)) }
    {
        self.rest.is_identical(&other.rest) && self.begun == other.begun
    }

    // Takes the next line: a rule first, and then frames. None is left at the end of the input.
    pub fn next_line(&mut self) -> Option<Line<'a>>
        ensures { MatchOption result ((left_of self.old ≡ []) × (self.new ≡ self.old)) (λ l. left_of self.old ≡ seen l ∷ left_of self.new) }
    {
        if self.rest.bytes.is_empty() {
            return None;
        }
        let (line, rest) = cut(self.rest);
        let taken = if self.begun {
            Line::Frame(line)
        } else {
            Line::Rule(line)
        };
        self.rest = rest;
        self.begun = true;
        Some(taken)
    }

    // The rule that the first line of an input means, in its first state, and the frame lines after
    // it. T1 for an input that is too long; T2 for a first line that is no rule, or none at all.
    pub fn open(input: &'a [u8]) -> Result<(Chosen, Text<'a>), Fault>
        ensures { MatchResult result (λ o. (open_fault input.now ≡ None) × (first_rule (lines_from 0 input.now) ≡ Some (meaning_of o.0)) × (state_of o.0 ≡ Many) × (left_of o.1 ≡ map frame (later_lines (lines_from 0 input.now)))) (λ e. open_fault input.now ≡ Some (row_of e)) }
    {
        let mut text = Text::new(input)?;
        match text.next_line() {
            Some(Line::Rule(part)) => Ok((part.rule()?, text)),
            _ => Err(Fault::RuleLine),
        }
    }
}
