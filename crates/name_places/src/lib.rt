//! Names that strangers choose, looked up in an ordered map: whatever the names are, a look-up compares at most as many
//! of them as the number of names has binary digits, and a few more.
#![tactic(auto)]

mod by_name;
mod positions;

pub use by_name::{ByName, keep_first, no_values, set_value, value_of};
pub use positions::NamePlaces;
