// What the switch rule does now: flip many bits at once, or one.
#[derive(Clone, Copy, Debug, PartialEq, Eq)]
pub enum Mode {
    Many,
    One,
}
