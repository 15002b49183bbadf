//! All that the program does: the words of the command line, files in, a file out, a line said.
#![tactic(auto)]

mod commands;
mod program;
mod undisturbed;

pub use command_core::{InputFault, InputFile, NotFault, Status, UndecidedBy};
pub use program::run;
pub use undisturbed::run_undisturbed;
