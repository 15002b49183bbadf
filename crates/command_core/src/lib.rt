//! What the commands share: statuses and their lines, the reading of input files, the writing of OUTs, and how a command is
//! concluded.
#![tactic(auto)]

mod command;
mod ending;
mod fault_text;
mod input;
mod line;
mod status;
mod words;

pub use command::{Command, Done};
pub use ending::{conclude, speak};
pub use input::{TEXT_LIMIT, read_input, refuse};
pub use status::{InputFault, InputFile, NotFault, Status, Stop, UndecidedBy};
