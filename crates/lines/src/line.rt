// A line of an input.
use crate::part::Part;

#[derive(Clone, Copy, Debug, PartialEq, Eq)]
pub enum Line<'a> {
    Rule(Part<'a>),
    Frame(Part<'a>),
}
