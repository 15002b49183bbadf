// Rows with positions in place of names, or their first offence.
ghost use Rattle.std.specs.Prelude.{◌≡◌, None, Some, IfOk, IfErr, OnOk, [], ◌∷◌, ◌++◌, ◌≤◌, length, map};
ghost use Rattle.gas_model.specs.Rows.{node_id, node_ids, node_fault, nodes_fault, text_id, text_ids, arc_of, arc_fault, arcs_fault, count_fault, uncounted_fault, rows_fault, Tells};
ghost use Rattle.gas_model.specs.Placing.{IsPlaced};

use crate::faults::{no_such_node, over_limit, same_ends, twice_named};
use crate::grouping::{count_groups, place_groups};
use crate::limits::{is_arc_within, is_node_within};
use crate::rows::{ArcRow, ArcText, Group, Many, ModelFault, NodeRow, Rows};
use base_types::List;
use name_places::NamePlaces;
use std::alloc::Global;

const MAX_NODES: usize = 2_000;

const MAX_ARCS: usize = 2_000;

// Adds the id of a node to those of the nodes before it.
fn add_node<'a>(
    alloc: Global,
    ids: &mut NamePlaces<'a>,
    node: &'a NodeRow,
) -> Result<(), ModelFault>
    ensures ok { OnOk result (ids.new ≡ ids.old ++ node_id node.now ∷ []) }
    ensures clean { OnOk result (node_fault ids.old node.now ≡ None) }
    ensures err { IfErr result (λ e. Tells e (node_fault ids.old node.now)) }
{
    if !is_node_within(node) {
        return Err(over_limit(alloc, &node.id));
    }
    if !ids.add(node.id.as_str())? {
        return Err(twice_named(alloc, &node.id));
    }
    Ok(())
}

// The ids of the nodes with their places.
fn place_nodes(alloc: Global, nodes: &[NodeRow]) -> Result<NamePlaces<'_>, ModelFault>
    ensures places { IfOk result (λ ids. ids ≡ node_ids nodes.now) }
    ensures clean { OnOk result (nodes_fault nodes.now ≡ None) }
    ensures err { IfErr result (λ e. Tells e (nodes_fault nodes.now)) }
{
    let mut ids = NamePlaces::new(alloc);
    for node in nodes {
        add_node(alloc, &mut ids, node)?;
    }
    Ok(ids)
}

// The places of the ends of an arc whose id is new.
fn ends_of(alloc: Global, nodes: &NamePlaces<'_>, arc: &ArcText) -> Result<(u32, u32), ModelFault>
    requires { length nodes.now ≤ 2000 }
    ensures ok { IfOk result (λ ends. (ends.0 ≡ (arc_of nodes.now arc.now).from) × (ends.1 ≡ (arc_of nodes.now arc.now).to)) }
    ensures clean { OnOk result (arc_fault nodes.now [] arc.now ≡ None) }
    ensures err { IfErr result (λ e. Tells e (arc_fault nodes.now [] arc.now)) }
{
    let Some(from) = nodes.place(arc.from.as_str()) else {
        return Err(no_such_node(alloc, &arc.id, &arc.from));
    };
    let Some(to) = nodes.place(arc.to.as_str()) else {
        return Err(no_such_node(alloc, &arc.id, &arc.to));
    };
    if arc.from.as_str() == arc.to.as_str() {
        return Err(same_ends(alloc, &arc.id));
    }
    if !is_arc_within(arc) {
        return Err(over_limit(alloc, &arc.id));
    }
    Ok((from as u32, to as u32))
}

// An arc with the places of its ends, after arcs of the ids in `earlier`.
fn add_arc<'a>(
    alloc: Global,
    nodes: &NamePlaces<'_>,
    earlier: &mut NamePlaces<'a>,
    arc: &'a ArcText,
) -> Result<ArcRow, ModelFault>
    requires { length nodes.now ≤ 2000 }
    ensures row { IfOk result (λ row. row ≡ arc_of nodes.now arc.now) }
    ensures earlier { OnOk result (earlier.new ≡ earlier.old ++ text_id arc.now ∷ []) }
    ensures clean { OnOk result (arc_fault nodes.now earlier.old arc.now ≡ None) }
    ensures err { IfErr result (λ e. Tells e (arc_fault nodes.now earlier.old arc.now)) }
{
    if !earlier.add(arc.id.as_str())? {
        return Err(twice_named(alloc, &arc.id));
    }
    let (from, to) = ends_of(alloc, nodes, arc)?;
    Ok(ArcRow {
        id: arc.id.copy(alloc)?,
        from,
        to,
        q_min: arc.q_min,
        q_max: arc.q_max,
        kind: arc.kind,
    })
}

// All arcs with the places of their ends, and their ids in `ids`.
fn place_arcs<'a>(
    alloc: Global,
    nodes: &NamePlaces<'_>,
    ids: &mut NamePlaces<'a>,
    arcs: &'a [ArcText],
) -> Result<List<ArcRow>, ModelFault>
    requires few { length nodes.now ≤ 2000 }
    requires fresh { ids.old ≡ [] }
    ensures rows { IfOk result (λ rows. rows ≡ map (arc_of nodes.now) arcs.now) }
    ensures ids { OnOk result (ids.new ≡ text_ids arcs.now) }
    ensures clean { OnOk result (arcs_fault nodes.now arcs.now ≡ None) }
    ensures err { IfErr result (λ e. Tells e (arcs_fault nodes.now arcs.now)) }
{
    let mut rows = List::new(alloc);
    for arc in arcs {
        rows.push(add_arc(alloc, nodes, ids, arc)?)?;
    }
    Ok(rows)
}

// The counts of nodes and arcs.
fn count_rows(nodes: &[NodeRow], arcs: &[ArcText]) -> Result<(), ModelFault>
    ensures clean { OnOk result (count_fault nodes.now arcs.now ≡ None) }
    ensures err { IfErr result (λ e. Tells e (count_fault nodes.now arcs.now)) }
{
    if nodes.len() > MAX_NODES {
        return Err(ModelFault::TooMany { what: Many::Nodes });
    }
    if arcs.len() > MAX_ARCS {
        return Err(ModelFault::TooMany { what: Many::Arcs });
    }
    Ok(())
}

// The arcs and groups of rows, with positions in place of names.
#[derive(Debug, Drop)]
pub struct Placed {
    pub arcs: List<ArcRow>,
    pub groups: List<Group>,
}

// The nodes, arcs and groups in their order, once they were counted.
fn place_counted(alloc: Global, rows: &Rows) -> Result<Placed, ModelFault>
    requires nodes { length rows.now.nodes ≤ 2000 }
    requires arcs { length rows.now.arcs ≤ 2000 }
    ensures placed { IfOk result (λ x. IsPlaced rows.now x) }
    ensures clean { OnOk result (uncounted_fault rows.now ≡ None) }
    ensures err { IfErr result (λ e. Tells e (uncounted_fault rows.now)) }
{
    let texts = rows.arcs.as_slice();
    let nodes = place_nodes(alloc, rows.nodes.as_slice())?;
    let mut ids = NamePlaces::new(alloc);
    let arcs = place_arcs(alloc, &nodes, &mut ids, texts)?;
    let groups = place_groups(alloc, texts, &ids, rows.groups.as_slice())?;
    Ok(Placed { arcs, groups })
}

// The rows with positions in place of names, or their first offence.
pub fn place_rows(alloc: Global, rows: &Rows) -> Result<Placed, ModelFault>
    ensures placed { IfOk result (λ x. IsPlaced rows.now x) }
    ensures clean { OnOk result (rows_fault rows.now ≡ None) }
    ensures err { IfErr result (λ e. Tells e (rows_fault rows.now)) }
{
    count_rows(rows.nodes.as_slice(), rows.arcs.as_slice())?;
    count_groups(rows.groups.as_slice())?;
    place_counted(alloc, rows)
}
