//! Refutation trees: their lines, their one text, and what it means that one passes, over any rules.
#![tactic(auto)]

mod fault;
mod fields;
mod laws;
mod line;
mod nodes;
mod pieces;
mod reading;
mod words;
mod writing;

pub use fault::{FaultKind, LineFault, TreeFault};
pub use laws::{
    Rules, closed_trees_have_no_open_line, findings_are_unique, findings_exist, lines_are_read,
    texts_have_one_tree, walks_are_texts,
};
pub use line::{Closing, Head, Line, Rule, Step};
pub use pieces::cut_piece;
pub use reading::read_line;
pub use writing::{write_line, write_tree};
