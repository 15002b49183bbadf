//! Why an input file stands for nothing, by the kind of file.
#![tactic(auto)]

mod outline;
mod setting;
mod table;

pub use outline::{FileFault, OutlineFault};
pub use setting::{Key, SettingFault};
pub use table::ResFault;
