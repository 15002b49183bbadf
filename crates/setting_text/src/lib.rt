//! Settings as JSON: the text of a setting of a problem, and the setting that bytes stand for.
#![tactic(auto)]

mod entries;
mod examples;
mod laws;
mod reading;
mod values;
mod writing;

pub use examples::{line_at_rest, line_backwards};
pub use file_faults::{Key, SettingFault};
pub use laws::{read_where_it_stands, text_is_read_back};
pub use reading::read_setting;
pub use writing::write_setting;
