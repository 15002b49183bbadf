//! The words of commands as data: the form of a command's words, its options, and the one reader of both.
#![tactic(auto)]

mod budget;
mod count;
mod form;
mod options;
mod tolerance;

pub use budget::Budget;
pub use count::Count;
pub use form::{Asked, Form, Part, read_form};
pub use options::{Given, Offer};
pub use tolerance::Tolerance;
