//! What the readers of network, scenario and decision files share: looking up attributes and
//! children in an outline, and the checks of names and quantities in their order.
#![tactic(auto)]

mod children;
mod faults;
mod file;
mod lookup;
mod names;
mod quantity;

pub use children::children_stand_within;
pub use faults::{bad_unit, bad_value, bad_word, missing, too_large, unknown_attribute};
pub use file::outline_for;
pub use lookup::{child, next_child, value_of};
pub use names::{id_in, label};
pub use quantity::{Sort, bound_in, bound_of, bounds_in, default_of};
