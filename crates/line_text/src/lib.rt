//! Lines of text: cut after a line feed, into words parted by one space, with whole numbers among them.
#![tactic(auto)]

mod lines;
mod long;
mod numerals;
mod words;

pub use lines::cut_line;
pub use long::{long_at, position_at, position_in, put_long};
pub use numerals::{number_at, put_number, put_position, size_at, size_in};
pub use words::{bytes_at, cut_word, field_at, number_field};
