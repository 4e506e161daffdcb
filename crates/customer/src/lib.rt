// A rule and a noise source of a customer's own, used through the library's traits.
#![tactic(auto)]

mod ask;
mod logged;
mod stripes;

pub use ask::asked;
pub use logged::Logged;
pub use stripes::Stripes;
