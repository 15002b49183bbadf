//! Where a problem comes from: one flat file, or four files that are joined.
#![tactic(auto)]

mod four_files;
mod source;

pub use four_files::FourFiles;
pub use source::Source;
