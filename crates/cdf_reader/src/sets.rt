// What a decision says of an arc.
ghost use Rattle.std.specs.Prelude.{◌≡◌, ◌==◌, option_map};
ghost use Rattle.std.specs.List.{list_any};
ghost use Rattle.element_fields.specs.Answers.{Gives};
ghost use Rattle.cdf_reader.specs.Sets.{active_word, is_read, is_known, first_unknown, only_known, is_open, open_in, mode_word, mode_of, allow_in, no_children, set_of, set_in, set_rows};

use crate::rows::{ActiveWord, CdfSet};
use base_types::{Allow, List, Name};
use element_fields::{bad_word, id_in, label, missing, next_child, unknown_attribute, value_of};
use std::alloc::Global;
use tag_outline::{Element, FileFault};

fn active_word(name: &str) -> Option<ActiveWord>
    ensures { result ≡ active_word name.now }
{
    if name == "valve" {
        Some(ActiveWord::Valve)
    } else if name == "controlValve" {
        Some(ActiveWord::Control)
    } else if name == "compressorStation" {
        Some(ActiveWord::Station)
    } else {
        None
    }
}

fn has_prefix(bytes: &[u8]) -> bool
    ensures { result ≡ list_any (λ b. b == 58) bytes.now }
{
    bytes.iter().any(|b| *b == b':')
}

fn is_read(name: &str) -> bool
    ensures { result ≡ is_read name.now }
{
    name == "id" || name == "value" || name == "mode"
}

// Whether an attribute of this name may stand at what a decision says of an arc.
fn is_known(name: &str) -> bool
    ensures { result ≡ is_known name.now }
{
    is_read(name) || name == "alias" || name == "xmlns" || has_prefix(name.as_bytes())
}

// The first attribute that may not stand there.
fn first_unknown(attributes: &[(Name, Name)]) -> Option<&str>
    ensures { option_map (λ x. x.now) result ≡ first_unknown attributes.now }
{
    for a in attributes {
        if !is_known(a.0.as_str()) {
            return Some(a.0.as_str());
        }
    }
    None
}

fn only_known(alloc: Global, e: &Element) -> Result<(), FileFault>
    ensures { Gives result (only_known e.now) }
{
    match first_unknown(e.attributes.as_slice()) {
        Some(name) => Err(unknown_attribute(alloc, label(e), name)),
        None => Ok(()),
    }
}

// Whether a value lets gas through, if it is a value.
fn is_open(value: &str) -> Option<bool>
    ensures { result ≡ is_open value.now }
{
    if value == "0" {
        Some(false)
    } else if value == "1" {
        Some(true)
    } else {
        None
    }
}

#[tactic(auto, unfolding(crate::specs::Sets::open_in))]
fn open_in(alloc: Global, e: &Element) -> Result<bool, FileFault>
    ensures { Gives result (open_in e.now) }
{
    let Some(value) = value_of("value", e.attributes.as_slice()) else {
        return Err(missing(alloc, label(e), "value"));
    };
    match is_open(value) {
        Some(opened) => Ok(opened),
        None => Err(bad_word(alloc, label(e), "value")),
    }
}

fn mode_word(text: &str) -> Option<Allow>
    ensures { result ≡ mode_word text.now }
{
    if text == "active" {
        Some(Allow::Active)
    } else if text == "bypass" {
        Some(Allow::Bypass)
    } else {
        None
    }
}

// The mode of an active arc that isn't closed.
#[tactic(auto, unfolding(crate::specs::Sets::mode_of))]
fn mode_of(alloc: Global, e: &Element) -> Result<Allow, FileFault>
    ensures { Gives result (mode_of e.now) }
{
    let Some(text) = value_of("mode", e.attributes.as_slice()) else {
        return Ok(Allow::On);
    };
    match mode_word(text) {
        Some(mode) => Ok(mode),
        None => Err(bad_word(alloc, label(e), "mode")),
    }
}

// What is allowed, by the value and the mode.
fn allow_in(alloc: Global, word: ActiveWord, opened: bool, e: &Element) -> Result<Allow, FileFault>
    ensures { Gives result (allow_in word opened e.now) }
{
    if !opened {
        return Ok(Allow::Shut);
    }
    match word {
        ActiveWord::Valve => Ok(Allow::Opened),
        ActiveWord::Control | ActiveWord::Station => mode_of(alloc, e),
    }
}

fn no_children(alloc: Global, e: &Element, below: &[Element]) -> Result<(), FileFault>
    ensures { Gives result (no_children e.now below.now) }
{
    match next_child(e.depth, below) {
        Some((child, _)) => Err(bad_word(alloc, label(e), child.name.as_str())),
        None => Ok(()),
    }
}

#[tactic(auto, unfolding(crate::specs::Sets::set_of))]
fn set_of(
    alloc: Global,
    word: ActiveWord,
    e: &Element,
    below: &[Element],
) -> Result<CdfSet, FileFault>
    ensures { Gives result (set_of word e.now below.now) }
{
    only_known(alloc, e)?;
    let arc = id_in(alloc, "id", e)?;
    let opened = open_in(alloc, e)?;
    let allow = allow_in(alloc, word, opened, e)?;
    no_children(alloc, e, below)?;
    Ok(CdfSet { word, arc, allow })
}

// The row of a child of an element that is called so.
#[tactic(auto, unfolding(crate::specs::Sets::set_in))]
fn set_in(alloc: Global, parent: &str, e: &Element, below: &[Element]) -> Result<CdfSet, FileFault>
    ensures { Gives result (set_in parent.now (e.now, below.now)) }
{
    let Some(word) = active_word(e.name.as_str()) else {
        return Err(bad_word(alloc, parent, e.name.as_str()));
    };
    set_of(alloc, word, e, below)
}

/// The rows of all children of a decision, which `below` follow.
pub fn set_rows(
    alloc: Global,
    parent: &Element,
    below: &[Element],
) -> Result<List<CdfSet>, FileFault>
    ensures { Gives result (set_rows parent.now below.now) }
{
    let called = label(parent);
    let mut rows = List::new(alloc);
    let mut rest = below;
    while let Some((e, after)) = next_child(parent.depth, rest) {
        let row = set_in(alloc, called, e, after)?;
        rows.push(row)?;
        rest = after;
    }
    Ok(rows)
}
