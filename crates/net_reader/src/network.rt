// The rows of a network file.
ghost use Rattle.std.specs.Prelude.{ℕ, List, IfOk, IfErr, Ok, Err};
ghost use Rattle.file_faults.specs.declared.outline.FileFault.{FileFault};
ghost use Rattle.element_fields.specs.Answers.{Gives};
ghost use Rattle.element_fields.specs.Files.{file_in, IsFile, MayFail, IsFileFault};
ghost use Rattle.net_reader.specs.Network.{arcs_in, network_rows};
ghost use Rattle.net_reader.specs.declared.rows.NetRows.{NetRows};

use crate::arc::arc_rows;
use crate::node::node_rows;
use crate::rows::{NetArc, NetRows};
use base_types::List;
use element_fields::{child, missing, outline_for};
use std::alloc::Global;
use tag_outline::{Element, FileFault, OutlineFault};

// The connections below the root, of which there may be none.
fn arcs_in(alloc: Global, root: &Element, below: &[Element]) -> Result<List<NetArc>, FileFault>
    ensures { Gives result (arcs_in root.now below.now) }
{
    match child(root.depth, "connections", below) {
        Some((connections, after)) => arc_rows(alloc, connections, after),
        None => Ok(List::new(alloc)),
    }
}

// The rows that elements say, or their first offence.
#[tactic(auto, unfolding(crate::specs::Network::network_rows))]
fn network_rows(alloc: Global, elements: &[Element]) -> Result<NetRows, FileFault>
    ensures { Gives result (network_rows elements.now) }
{
    let Some((root, below)) = elements.split_first() else {
        return Err(FileFault::Outline(OutlineFault::NotOutline { at: 0 }));
    };
    let Some((nodes, after)) = child(root.depth, "nodes", below) else {
        return Err(missing(alloc, root.name.as_str(), "nodes"));
    };
    let nodes = node_rows(alloc, nodes, after)?;
    let arcs = arcs_in(alloc, root, below)?;
    Ok(NetRows { nodes, arcs })
}

// The rows of a file, by its elements.
fn rows_in(alloc: Global, bytes: &[u8]) -> Result<NetRows, FileFault>
    ensures { Gives result (file_in network_rows bytes.now) }
{
    let outline = outline_for(alloc, bytes)?;
    network_rows(alloc, outline.as_slice())
}

/// The nodes and connections of a network file, or its first offence.
///
/// `nodes` is the root's first child of that name and must be there, `connections` likewise and
/// may be absent. Elements are read in file order, nodes first. Within one, the checks go by id,
/// from, to, and then by quantity. Lower bounds are rounded down, upper bounds up.
pub fn read_net(alloc: Global, bytes: &[u8]) -> Result<NetRows, FileFault>
    // What is read are the rows of the file.
    ensures found { IfOk result (IsFile network_rows bytes.now) }
    // The rows of the file are read, unless memory runs out.
    ensures only { (rows : NetRows) → IsFile network_rows bytes.now rows → Gives result (Ok rows) }
    // A fault is that of the file.
    ensures fails { IfErr result (MayFail network_rows bytes.now) }
    // The fault of the file is answered, unless memory runs out.
    ensures only_fault { (f : FileFault) → IsFileFault network_rows bytes.now f → Gives result (Err f) }
    ensures exact { Gives result (file_in network_rows bytes.now) }
{
    rows_in(alloc, bytes)
}
