// The alist form of a code: sizes, degrees, and the lists of every bit and every check.
ghost use Rattle.std.specs.Prelude.{◌≡◌, [], ◌∷◌, ◌++◌, string_bytes, OnOk};
ghost use Rattle.alist.specs.Text.{number_text, line_text, lines_text, pair_text, count_of, degree_of, widest_of, entry_text, entry_of, degrees_text, lists_text, alist_text};

use codes::{Code, Side};
use std::fmt;

// A number, after a space unless it is the first.
fn push_number(text: &mut String, place: usize, n: usize) -> fmt::Result
    ensures { OnOk result (string_bytes text.new ≡ string_bytes text.old ++ number_text place n) }
{
    if place == 0 {
        write!(text, "{n}")?;
    } else {
        write!(text, " {n}")?;
    }
    Ok(())
}

fn push_pair(text: &mut String, m: usize, n: usize) -> fmt::Result
    ensures { OnOk result (string_bytes text.new ≡ string_bytes text.old ++ pair_text m n) }
{
    writeln!(text, "{m} {n}")?;
    Ok(())
}

// Numbered from 1, and 0 where there is none.
fn entry(found: Option<usize>) -> usize
    ensures { result ≡ entry_text found }
{
    found.map_or(0, |x| x.saturating_add(1))
}

// A code, by its checks or by its bits.
#[derive_where(Clone, Copy)]
struct View<'a, C> {
    code: &'a C,
    side: Side,
}

impl<C: Code> View<'_, C> {
    // How many checks or bits there are.
    fn count(&self) -> usize
        ensures { result ≡ count_of self.now.side (C.Code.answers self.now.code.now) }
    {
        match self.side {
            Side::ByCheck => self.code.checks(),
            Side::ByBit => self.code.bits(),
        }
    }

    fn degree(&self, at: usize) -> usize
        ensures { result ≡ degree_of self.now.side (C.Code.answers self.now.code.now) at }
    {
        match self.side {
            Side::ByCheck => self.code.check_degree(at).unwrap_or(0),
            Side::ByBit => self.code.bit_degree(at).unwrap_or(0),
        }
    }

    fn entry(&self, at: usize, place: usize) -> usize
        ensures { result ≡ entry_of self.now.side (C.Code.answers self.now.code.now) at place }
    {
        match self.side {
            Side::ByCheck => entry(self.code.check_bit(at, place)),
            Side::ByBit => entry(self.code.bit_check(at, place)),
        }
    }

    // The largest degree.
    fn widest(&self) -> usize
        ensures { result ≡ widest_of self.now.side (C.Code.answers self.now.code.now) }
    {
        (0..self.count()).fold(0, |widest, at| widest.max(self.degree(at)))
    }

    // The degrees of all.
    // Kept: by number, as a code is asked; and one function for this and push_list would take a closure and a clause on it.
    fn push_degrees(&self, text: &mut String) -> fmt::Result
        ensures { OnOk result (string_bytes text.new ≡ string_bytes text.old ++ degrees_text self.now.side (C.Code.answers self.now.code.now)) }
    {
        for at in 0..self.count() {
            push_number(text, at, self.degree(at))?;
        }
        writeln!(text, "")?;
        Ok(())
    }

    // The numbers of one check or bit, filled up with 0.
    // Kept: by number, as a code is asked, with nothing else to walk.
    fn push_list(&self, text: &mut String, at: usize, width: usize) -> fmt::Result
        ensures { OnOk result (string_bytes text.new ≡ string_bytes text.old ++ line_text (entry_of self.now.side (C.Code.answers self.now.code.now) at) width) }
    {
        for place in 0..width {
            push_number(text, place, self.entry(at, place))?;
        }
        writeln!(text, "")?;
        Ok(())
    }

    // The numbers of all.
    // Kept: by number, as a code is asked, with nothing else to walk.
    fn push_lists(&self, text: &mut String) -> fmt::Result
        ensures { OnOk result (string_bytes text.new ≡ string_bytes text.old ++ lists_text self.now.side (C.Code.answers self.now.code.now)) }
    {
        let width = self.widest();
        for at in 0..self.count() {
            self.push_list(text, at, width)?;
        }
        Ok(())
    }
}

// The code in alist form, after what the text holds.
pub fn push_alist<C: Code>(text: &mut String, code: &C) -> fmt::Result
    ensures { OnOk result (string_bytes text.new ≡ string_bytes text.old ++ alist_text (C.Code.answers code.now)) }
{
    let bits = View {
        code,
        side: Side::ByBit,
    };
    let checks = View {
        code,
        side: Side::ByCheck,
    };
    push_pair(text, bits.count(), checks.count())?;
    push_pair(text, bits.widest(), checks.widest())?;
    bits.push_degrees(text)?;
    checks.push_degrees(text)?;
    bits.push_lists(text)?;
    checks.push_lists(text)
}
