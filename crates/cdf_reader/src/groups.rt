// Groups and decisions.
ghost use Rattle.std.specs.Prelude.{◌≡◌, ℕ, List, IfOk, IfErr, Ok, Err};
ghost use Rattle.std.specs.Str.{bytes_eq};
ghost use Rattle.file_faults.specs.declared.outline.FileFault.{FileFault};
ghost use Rattle.element_fields.specs.Answers.{Gives};
ghost use Rattle.element_fields.specs.Files.{file_in, IsFile, MayFail, IsFileFault};
ghost use Rattle.cdf_reader.specs.Groups.{has_word, decision_in, decision_rows, group_in, group_rows, groups_in, combined_rows};
ghost use Rattle.cdf_reader.specs.declared.rows.CdfRows.{CdfRows};

use crate::rows::{CdfDecision, CdfGroup, CdfRows};
use crate::sets::set_rows;
use base_types::List;
use element_fields::{bad_word, id_in, label, next_child, outline_for};
use std::alloc::Global;
use tag_outline::{Element, FileFault, OutlineFault};

// That a child of an element that is called so has this word.
fn has_word(alloc: Global, parent: &str, word: &str, e: &Element) -> Result<(), FileFault>
    ensures { Gives result (has_word parent.now word.now e.now) }
{
    if e.name.as_str() == word {
        Ok(())
    } else {
        Err(bad_word(alloc, parent, e.name.as_str()))
    }
}

#[tactic(auto, unfolding(crate::specs::Groups::decision_in))]
fn decision_in(
    alloc: Global,
    parent: &str,
    e: &Element,
    below: &[Element],
) -> Result<CdfDecision, FileFault>
    ensures { Gives result (decision_in parent.now (e.now, below.now)) }
{
    has_word(alloc, parent, "decision", e)?;
    let id = id_in(alloc, "id", e)?;
    let sets = set_rows(alloc, e, below)?;
    Ok(CdfDecision { id, sets })
}

// The rows of all children of a group, which `below` follow.
fn decision_rows(
    alloc: Global,
    parent: &Element,
    below: &[Element],
) -> Result<List<CdfDecision>, FileFault>
    ensures { Gives result (decision_rows parent.now below.now) }
{
    let called = label(parent);
    let mut rows = List::new(alloc);
    let mut rest = below;
    while let Some((e, after)) = next_child(parent.depth, rest) {
        let row = decision_in(alloc, called, e, after)?;
        rows.push(row)?;
        rest = after;
    }
    Ok(rows)
}

#[tactic(auto, unfolding(crate::specs::Groups::group_in))]
fn group_in(
    alloc: Global,
    parent: &str,
    e: &Element,
    below: &[Element],
) -> Result<CdfGroup, FileFault>
    ensures { Gives result (group_in parent.now (e.now, below.now)) }
{
    has_word(alloc, parent, "decisionGroup", e)?;
    let id = id_in(alloc, "id", e)?;
    let decisions = decision_rows(alloc, e, below)?;
    Ok(CdfGroup { id, decisions })
}

// The rows of all children of the root, which `below` follow.
fn group_rows(alloc: Global, root: &Element, below: &[Element]) -> Result<List<CdfGroup>, FileFault>
    ensures { Gives result (group_rows root.now below.now) }
{
    let mut rows = List::new(alloc);
    let mut rest = below;
    while let Some((e, after)) = next_child(root.depth, rest) {
        let row = group_in(alloc, root.name.as_str(), e, after)?;
        rows.push(row)?;
        rest = after;
    }
    Ok(rows)
}

// The rows of a root, which `below` follow.
#[tactic(auto, unfolding(crate::specs::Groups::groups_in))]
fn groups_in(alloc: Global, root: &Element, below: &[Element]) -> Result<CdfRows, FileFault>
    ensures { Gives result (groups_in root.now below.now) }
{
    let groups = group_rows(alloc, root, below)?;
    Ok(CdfRows { groups })
}

// The rows that elements say, or their first offence.
#[tactic(auto, unfolding(crate::specs::Groups::combined_rows))]
fn combined_rows(alloc: Global, elements: &[Element]) -> Result<CdfRows, FileFault>
    ensures { Gives result (combined_rows elements.now) }
{
    let Some((root, below)) = elements.split_first() else {
        return Err(FileFault::Outline(OutlineFault::NotOutline { at: 0 }));
    };
    if root.name.as_str() != "combinedDecisions" {
        return Err(FileFault::WrongRoot);
    }
    groups_in(alloc, root, below)
}

// The rows of a file, by its elements.
fn rows_in(alloc: Global, bytes: &[u8]) -> Result<CdfRows, FileFault>
    ensures { Gives result (file_in combined_rows bytes.now) }
{
    let outline = outline_for(alloc, bytes)?;
    combined_rows(alloc, outline.as_slice())
}

/// The groups of decisions of a combined decision file, or its first offence.
///
/// The root is `combinedDecisions`, its children are `decisionGroup`, theirs `decision`, and theirs
/// `valve`, `controlValve` and `compressorStation`, which have no children. The checks go in file
/// order, those of an element before those of its children.
pub fn read_cdf(alloc: Global, bytes: &[u8]) -> Result<CdfRows, FileFault>
    // What is read are the rows of the file.
    ensures found { IfOk result (IsFile combined_rows bytes.now) }
    // The rows of the file are read, unless memory runs out.
    ensures only { (rows : CdfRows) → IsFile combined_rows bytes.now rows → Gives result (Ok rows) }
    // A fault is that of the file.
    ensures fails { IfErr result (MayFail combined_rows bytes.now) }
    // The fault of the file is answered, unless memory runs out.
    ensures only_fault { (f : FileFault) → IsFileFault combined_rows bytes.now f → Gives result (Err f) }
    ensures exact { Gives result (file_in combined_rows bytes.now) }
{
    rows_in(alloc, bytes)
}
