//! The table of resistances and stations that comes beside a network file.
#![tactic(auto)]

mod fields;
mod records;
mod row;
mod row_form;
mod rows;
mod table;

pub use file_faults::ResFault;
pub use row_form::rows_have_their_form;
pub use rows::{ResRow, ResRows, ResWord};
pub use table::read_res;
