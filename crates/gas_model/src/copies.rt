// Rows once more.
ghost use Rattle.std.specs.Prelude.{◌≡◌, ◌<◌, length, slice_index_or, slice_set, IfOk};
ghost use Rattle.gas_model.specs.Supplies.{no_node, node_with_supply};

use crate::rows::{ArcRow, Decision, Group, NodeRow};
use base_types::{List, NoMemory};
use std::alloc::Global;

fn copy_node(alloc: Global, node: &NodeRow) -> Result<NodeRow, NoMemory>
    ensures { IfOk result (λ copy. copy ≡ node.now) }
{
    Ok(NodeRow {
        id: node.id.copy(alloc)?,
        p_min: node.p_min,
        p_max: node.p_max,
        b_min: node.b_min,
        b_max: node.b_max,
    })
}

fn copy_nodes(alloc: Global, nodes: &[NodeRow]) -> Result<List<NodeRow>, NoMemory>
    ensures { IfOk result (λ copies. copies ≡ nodes.now) }
{
    let mut copies = List::with_room(alloc, nodes.len())?;
    for node in nodes {
        copies.push(copy_node(alloc, node)?)?;
    }
    Ok(copies)
}

// The node with these bounds of its supply.
fn node_with_supply(
    alloc: Global,
    node: &NodeRow,
    b_min: i64,
    b_max: i64,
) -> Result<NodeRow, NoMemory>
    ensures { IfOk result (λ row. row ≡ node_with_supply node.now b_min b_max) }
{
    Ok(NodeRow {
        id: node.id.copy(alloc)?,
        p_min: node.p_min,
        p_max: node.p_max,
        b_min,
        b_max,
    })
}

/// The nodes, of which one gets these bounds of its supply.
pub fn supplied_nodes(
    alloc: Global,
    nodes: &[NodeRow],
    place: usize,
    b_min: i64,
    b_max: i64,
) -> Result<List<NodeRow>, NoMemory>
    requires { place < length nodes.now }
    ensures { IfOk result (λ list. list ≡ slice_set nodes.now place (node_with_supply (slice_index_or nodes.now place no_node) b_min b_max)) }
{
    let row = node_with_supply(alloc, &nodes[place], b_min, b_max)?;
    let mut list = copy_nodes(alloc, nodes)?;
    list.put(place, row);
    Ok(list)
}

fn copy_arc(alloc: Global, arc: &ArcRow) -> Result<ArcRow, NoMemory>
    ensures { IfOk result (λ copy. copy ≡ arc.now) }
{
    Ok(ArcRow {
        id: arc.id.copy(alloc)?,
        from: arc.from,
        to: arc.to,
        q_min: arc.q_min,
        q_max: arc.q_max,
        kind: arc.kind,
    })
}

pub fn copy_arcs(alloc: Global, arcs: &[ArcRow]) -> Result<List<ArcRow>, NoMemory>
    ensures { IfOk result (λ copies. copies ≡ arcs.now) }
{
    let mut copies = List::with_room(alloc, arcs.len())?;
    for arc in arcs {
        copies.push(copy_arc(alloc, arc)?)?;
    }
    Ok(copies)
}

fn copy_decision(alloc: Global, decision: &Decision) -> Result<Decision, NoMemory>
    ensures { IfOk result (λ copy. copy ≡ decision.now) }
{
    Ok(Decision {
        id: decision.id.copy(alloc)?,
        sets: List::of(alloc, decision.sets.as_slice())?,
    })
}

fn copy_decisions(alloc: Global, decisions: &[Decision]) -> Result<List<Decision>, NoMemory>
    ensures { IfOk result (λ copies. copies ≡ decisions.now) }
{
    let mut copies = List::with_room(alloc, decisions.len())?;
    for decision in decisions {
        copies.push(copy_decision(alloc, decision)?)?;
    }
    Ok(copies)
}

fn copy_group(alloc: Global, group: &Group) -> Result<Group, NoMemory>
    ensures { IfOk result (λ copy. copy ≡ group.now) }
{
    Ok(Group {
        id: group.id.copy(alloc)?,
        decisions: copy_decisions(alloc, group.decisions.as_slice())?,
    })
}

pub fn copy_groups(alloc: Global, groups: &[Group]) -> Result<List<Group>, NoMemory>
    ensures { IfOk result (λ copies. copies ≡ groups.now) }
{
    let mut copies = List::with_room(alloc, groups.len())?;
    for group in groups {
        copies.push(copy_group(alloc, group)?)?;
    }
    Ok(copies)
}
