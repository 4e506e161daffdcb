// A part of an input.
ghost use Rattle.std.specs.Prelude.{◌≡◌, ◌+◌, ◌<◌, ◌≤◌, ◌^◌, Decides, drop, length};

use std::fmt;

// Bytes that follow one another in an input, and where in it they begin. Parts are equal where
// their bytes and places are; they may be of two inputs.
#[derive(Clone, Copy)]
#[derive_where(PartialEq, Eq)]
pub struct Part<'a> {
    #[derive_where(skip)]
    pub(crate) input: &'a [u8],
    pub(crate) bytes: &'a [u8],
    pub(crate) place: usize,
    ghost within: { place + length bytes.now ≤ length input.now },
    ghost fits: { place + length bytes.now < 2 ^ 64 },
}

// Without the input, which may be long.
impl<'a> fmt::Debug for Part<'a> {
    fn fmt<W: fmt::Write>(&self, f: &mut fmt::Formatter<W>) -> fmt::Result {
        f.debug_struct("Part")
            .field("bytes", &self.bytes)
            .field("place", &self.place)
            .finish()
    }
}

impl<'a> Part<'a> {
    ghost use Rattle.lines.specs.Parts.{bytes_of};

    // What comes after so many bytes.
    pub(crate) fn skip(self, count: usize) -> Part<'a>
        requires { count ≤ length (bytes_of self) }
        ensures bytes { bytes_of result ≡ drop count (bytes_of self.entry) }
        ensures place { result.place ≡ self.entry.place + count }
    {
        let Part {
            input,
            bytes,
            place,
        } = self;
        Part {
            input,
            bytes: &bytes[count..],
            place: place + count,
        }
    }

    // The bytes of this part.
    pub fn bytes(&self) -> &'a [u8]
        ensures value { result.now ≡ bytes_of self.now }
        ensures within { self.now.place + length result.now ≤ length self.now.input.now }
        ensures fits { self.now.place + length result.now < 2 ^ 64 }
    {
        self.bytes
    }

    // Where in the input they begin.
    pub fn place(&self) -> usize
        ensures { result ≡ self.now.place }
    {
        self.place
    }

    // Whether it has the same bytes at the same place, which `==` decides.
    pub fn is_same(&self, other: &Part<'_>) -> bool
        ensures { Decides result ((bytes_of self.now ≡ bytes_of other.now) × (self.now.place ≡ other.now.place)) }
    {
        self == other
    }

    // The same, where both inputs have the same bytes too.
    pub fn is_identical(&self, other: &Part<'_>) -> bool
        ensures { Decides result ((bytes_of self.now ≡ bytes_of other.now) × (self.now.place ≡ other.now.place) × (self.now.input.now ≡ other.now.input.now)) }
    {
        self.is_same(other) && self.input == other.input
    }
}

#[cfg(test)]
mod tests {
    use super::*;
    use crate::line::Line;
    use crate::text::Text;
    use faults::Fault;
    use std::test::Fail;

    fn line(input: &[u8], number: usize) -> Result<Part<'_>, Fault> {
        let mut text = Text::new(input)?;
        for _ in 0..number {
            let _ = text.next_line();
        }
        match text.next_line() {
            Some(Line::Rule(part) | Line::Frame(part)) => Ok(part),
            None => Err(Fault::RuleLine),
        }
    }

    #[test]
    fn parts_of_two_inputs_are_equal(rt: HostRuntime) -> Result<(), Fail> {
        let one = line(b"single\n00", 0)?;
        let other = line(b"single\n01", 0)?;
        assert_eq!(rt; one, other);
        assert!(rt; one.is_same(&other) && !one.is_identical(&other));
        assert!(rt; !one.is_same(&line(b"switch\n", 0)?));
        let second = line(b"single\n0f", 1)?;
        let printed = format!(in rt.alloc(); "{second:?}")?;
        assert_eq!(rt; printed.as_str(), "Part { bytes: [48, 102], place: 7 }");
        Ok(())
    }
}
