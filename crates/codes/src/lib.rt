// Parity-check matrices behind one trait: what every code answers, matrices held as lists, and products.
#![tactic(auto)]

mod as_lists;
mod code;
mod laws;
mod limits;
mod lists;
mod matrix;
mod product;
mod shape;
mod side;

pub use as_lists::AsLists;
pub use code::Code;
pub use laws::{codewords_add, lists_agree};
pub use limits::{
    MOST_BIT_DEGREE, MOST_BITS, MOST_CHECK_DEGREE, MOST_CHECKS, MOST_SIZE, STRIDE, sizes_fit,
};
pub use lists::Lists;
pub use matrix::{AsMatrix, LendsMatrix, Matrix};
pub use product::Product;
pub use side::Side;
