// The attributes that name things.
ghost use Rattle.std.specs.Prelude.{◌≡◌, ◌==◌};
ghost use Rattle.std.specs.List.{list_any};
ghost use Rattle.element_fields.specs.Answers.{Gives};
ghost use Rattle.element_fields.specs.Names.{is_good, label, id_in};

use crate::faults::{bad_value, missing};
use crate::lookup::value_of;
use base_types::{Name, is_id};
use std::alloc::Global;
use tag_outline::{Element, FileFault};

fn has_reference(bytes: &[u8]) -> bool
    ensures { result ≡ list_any (λ b. b == 38) bytes.now }
{
    bytes.iter().any(|b| *b == b'&')
}

// Whether a text is an id without `&`.
fn is_good(id: &str) -> bool
    ensures { result ≡ is_good id.now }
{
    is_id(id) && !has_reference(id.as_bytes())
}

/// What a fault calls an element: its id, or its word where the id is absent or bad.
pub fn label(e: &Element) -> &str
    ensures { result.now ≡ label e.now }
{
    match value_of("id", e.attributes.as_slice()) {
        Some(id) => { if is_good(id) { id } else { e.name.as_str() } }
        None => e.name.as_str(),
    }
}

/// The attribute of an element that names a thing. It must be there, be an id and have no `&`.
#[tactic(auto, unfolding(crate::specs::Names::id_in))]
pub fn id_in(alloc: Global, name: &str, e: &Element) -> Result<Name, FileFault>
    ensures { Gives result (id_in name.now e.now) }
{
    let Some(id) = value_of(name, e.attributes.as_slice()) else {
        return Err(missing(alloc, label(e), name));
    };
    if !is_good(id) {
        return Err(bad_value(alloc, label(e), name));
    }
    Ok(Name::of(alloc, id)?)
}
