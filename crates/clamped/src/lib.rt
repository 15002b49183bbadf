//! Whole numbers that stay within 2^62 either way: sums, products, quotients and roots that clamp, and lists of numbers
//! that may be read and written at any place.
#![tactic(auto)]

mod lists;
mod numbers;

pub use lists::{
    add_number, flag_at, index_at, index_of, number_at, put_flag, put_index, put_number,
};
pub use numbers::{
    MOST, clamped, difference, portion, portion_above, root_above, root_below, scaled, share,
    share_of_product, square_over, sum,
};
