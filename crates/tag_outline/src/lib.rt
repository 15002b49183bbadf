//! Outlines of tagged texts, in the small part of XML that gas network files are written in: the
//! elements of a file with their depths, names, attributes and places.
#![tactic(auto)]

mod fault;
mod item;
mod of_all_texts;
mod open;
mod outline;
mod scan;
mod tag;

pub use file_faults::{FileFault, OutlineFault};
pub use of_all_texts::{each_text, local_names, one_verdict};
pub use outline::{Element, Outline, read_outline};
