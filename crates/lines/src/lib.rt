// Frames as lines of text: a rule, and then frames in hexadecimal, two digits a level.
#![tactic(auto)]

mod digits;
mod frame;
mod line;
mod part;
mod rule;
mod text;

pub use digits::digits_of;
pub use line::Line;
pub use part::Part;
pub use text::Text;
