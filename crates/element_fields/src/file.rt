// From bytes to elements.
ghost use Rattle.element_fields.specs.Answers.{Gives};
ghost use Rattle.element_fields.specs.Files.{elements_in};

use std::alloc::Global;
use tag_outline::{FileFault, Outline, read_outline};

/// The elements of a file, or the fault of its outline.
pub fn outline_for(alloc: Global, bytes: &[u8]) -> Result<Outline, FileFault>
    ensures { Gives result (elements_in bytes.now) }
{
    Ok(read_outline(alloc, bytes)?)
}
