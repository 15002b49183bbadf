// The nominated nodes of a scenario file.
ghost use Rattle.std.specs.Prelude.{◌≡◌, ℕ, List, IfOk, IfErr, Ok, Err};
ghost use Rattle.file_faults.specs.declared.outline.FileFault.{FileFault};
ghost use Rattle.element_fields.specs.Answers.{Gives};
ghost use Rattle.element_fields.specs.Files.{file_in, IsFile, MayFail, IsFileFault};
ghost use Rattle.scn_reader.specs.Scenario.{entry_word, entry_in, node_in, node_rows, scenario_in, scenario_rows};
ghost use Rattle.scn_reader.specs.declared.rows.ScnRows.{ScnRows};

use crate::bounds::node_bounds;
use crate::rows::{ScnNode, ScnRows};
use base_types::List;
use element_fields::{bad_word, child, id_in, label, missing, outline_for, value_of};
use std::alloc::Global;
use tag_outline::{Element, FileFault, OutlineFault};

// Whether gas enters at a node of this type, if it is a type.
fn entry_word(text: &str) -> Option<bool>
    ensures { result ≡ entry_word text.now }
{
    if text == "entry" {
        Some(true)
    } else if text == "exit" {
        Some(false)
    } else {
        None
    }
}

// Whether gas enters at a node.
#[tactic(auto, unfolding(crate::specs::Scenario::entry_in))]
fn entry_in(alloc: Global, e: &Element) -> Result<bool, FileFault>
    ensures { Gives result (entry_in e.now) }
{
    let Some(text) = value_of("type", e.attributes.as_slice()) else {
        return Err(missing(alloc, label(e), "type"));
    };
    match entry_word(text) {
        Some(entry) => Ok(entry),
        None => Err(bad_word(alloc, label(e), "type")),
    }
}

#[tactic(auto, unfolding(crate::specs::Scenario::node_in))]
fn node_in(alloc: Global, e: &Element, below: &[Element]) -> Result<ScnNode, FileFault>
    ensures { Gives result (node_in (e.now, below.now)) }
{
    let entry = entry_in(alloc, e)?;
    let id = id_in(alloc, "id", e)?;
    let bounds = node_bounds(alloc, e, below)?;
    Ok(ScnNode {
        id,
        entry,
        f_min: bounds.flow.0,
        f_max: bounds.flow.1,
        p_min: bounds.pressure.0,
        p_max: bounds.pressure.1,
    })
}

// The rows of the children `node` of an element at a depth, which `below` follow.
fn node_rows(alloc: Global, depth: u32, below: &[Element]) -> Result<List<ScnNode>, FileFault>
    ensures { Gives result (node_rows depth below.now) }
{
    let mut rows = List::new(alloc);
    let mut rest = below;
    while let Some((e, after)) = child(depth, "node", rest) {
        let row = node_in(alloc, e, after)?;
        rows.push(row)?;
        rest = after;
    }
    Ok(rows)
}

// The rows of the first scenario of a root, which `below` follow.
#[tactic(auto, unfolding(crate::specs::Scenario::scenario_in))]
fn scenario_in(alloc: Global, root: &Element, below: &[Element]) -> Result<ScnRows, FileFault>
    ensures { Gives result (scenario_in root.now below.now) }
{
    let Some((scenario, after)) = child(root.depth, "scenario", below) else {
        return Err(missing(alloc, root.name.as_str(), "scenario"));
    };
    let nodes = node_rows(alloc, scenario.depth, after)?;
    Ok(ScnRows { nodes })
}

// The rows that elements say, or their first offence.
#[tactic(auto, unfolding(crate::specs::Scenario::scenario_rows))]
fn scenario_rows(alloc: Global, elements: &[Element]) -> Result<ScnRows, FileFault>
    ensures { Gives result (scenario_rows elements.now) }
{
    let Some((root, below)) = elements.split_first() else {
        return Err(FileFault::Outline(OutlineFault::NotOutline { at: 0 }));
    };
    if root.name.as_str() != "boundaryValue" {
        return Err(FileFault::WrongRoot);
    }
    scenario_in(alloc, root, below)
}

// The rows of a file, by its elements.
fn rows_in(alloc: Global, bytes: &[u8]) -> Result<ScnRows, FileFault>
    ensures { Gives result (file_in scenario_rows bytes.now) }
{
    let outline = outline_for(alloc, bytes)?;
    scenario_rows(alloc, outline.as_slice())
}

/// The nodes of a scenario file, or its first offence.
///
/// The root is `boundaryValue`, and its first child `scenario` counts. Of the children `node` of
/// that, in file order, the type is checked first, then the id, and then each flow and pressure in
/// file order: which bound, the value, the unit. All bounds of a node apply together.
pub fn read_scn(alloc: Global, bytes: &[u8]) -> Result<ScnRows, FileFault>
    // What is read are the rows of the file.
    ensures found { IfOk result (IsFile scenario_rows bytes.now) }
    // The rows of the file are read, unless memory runs out.
    ensures only { (rows : ScnRows) → IsFile scenario_rows bytes.now rows → Gives result (Ok rows) }
    // A fault is that of the file.
    ensures fails { IfErr result (MayFail scenario_rows bytes.now) }
    // The fault of the file is answered, unless memory runs out.
    ensures only_fault { (f : FileFault) → IsFileFault scenario_rows bytes.now f → Gives result (Err f) }
    ensures exact { Gives result (file_in scenario_rows bytes.now) }
{
    rows_in(alloc, bytes)
}
