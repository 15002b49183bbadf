// Nodes with the bounds that the network, their nominations and their pipes give them.
ghost use Rattle.std.specs.Prelude.{◌≡◌, IfOk, map};
ghost use Rattle.name_places.specs.ByName.{look};
ghost use Rattle.network.specs.Nodes.{opposite, supply, least_pressure, greatest_pressure, bounded, node_row};

use crate::limits::tighter;
use crate::nominations::Nominated;
use gas_model::{List, NoMemory, NodeRow};
use name_places::{ByName, value_of};
use net_reader::NetNode;
use std::alloc::Global;

// The flow the other way.
fn opposite(flow: i64) -> i64
    ensures { result ≡ opposite flow }
{
    -flow.max(-i64::MAX)
}

// The least and the greatest that a node brings into the network.
fn supply(node: &NetNode, nominated: Option<Nominated>) -> (i64, i64)
    ensures { result ≡ supply node.now nominated }
{
    let Some(given) = nominated else {
        return (0, 0);
    };
    let least = node.f_min.max(given.f_min);
    let greatest = node.f_max.min(given.f_max);
    if given.entry {
        (least, greatest)
    } else {
        (opposite(greatest), opposite(least))
    }
}

fn least_pressure(node: &NetNode, nominated: Option<Nominated>) -> i64
    ensures { result ≡ least_pressure node.now nominated }
{
    match nominated {
        Some(given) => node.p_min.max(given.p_min),
        None => node.p_min,
    }
}

fn greatest_pressure(node: &NetNode, nominated: Option<Nominated>, limit: Option<i64>) -> i64
    ensures { result ≡ greatest_pressure node.now nominated limit }
{
    match nominated {
        Some(given) => tighter(limit, node.p_max.min(given.p_max)),
        None => tighter(limit, node.p_max),
    }
}

// A node with its nomination, and with the limit of its pipes.
fn bounded(
    alloc: Global,
    node: &NetNode,
    nominated: Option<Nominated>,
    limit: Option<i64>,
) -> Result<NodeRow, NoMemory>
    ensures { IfOk result (λ row. row ≡ bounded node.now nominated limit) }
{
    let (b_min, b_max) = supply(node, nominated);
    Ok(NodeRow {
        id: node.id.copy(alloc)?,
        p_min: least_pressure(node, nominated),
        p_max: greatest_pressure(node, nominated, limit),
        b_min,
        b_max,
    })
}

/// All nodes with their bounds.
pub fn node_rows(
    alloc: Global,
    nominations: &ByName<'_, Nominated>,
    limits: &ByName<'_, i64>,
    nodes: &[NetNode],
) -> Result<List<NodeRow>, NoMemory>
    ensures { IfOk result (λ rows. rows ≡ map (node_row (look nominations.now) (look limits.now)) nodes.now) }
{
    let mut rows = List::new(alloc);
    for node in nodes {
        let id = node.id.as_str();
        let row = bounded(alloc, node, value_of(nominations, id), value_of(limits, id))?;
        rows.push(row)?;
    }
    Ok(rows)
}
