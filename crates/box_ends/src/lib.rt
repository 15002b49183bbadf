//! Boxes whose scale is a number: a lower and an upper end for the flow of each arc and the squared pressure of each
//! node, in ones or in sixteenths.
#![tactic(auto)]

mod ends;
mod scaled;

pub use ends::{middle, scaled_square, with_end};
pub use scaled::ScaledBox;
