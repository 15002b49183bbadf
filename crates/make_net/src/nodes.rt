// The nodes, in a line.
ghost use Rattle.std.specs.Prelude.{◌≡◌, IfOk};
ghost use Rattle.make_net.specs.Made.{supply_of, made_node, made_nodes};

use crate::names::node_name;
use gas_model::{List, NoMemory, NodeRow};
use std::alloc::Global;

/// What a node brings in, in l/h.
fn supply_of(count: u32, node: u32) -> i64
    ensures { result ≡ supply_of count node }
{
    if node == 0 { i64::from(count) - 1 } else { -1 }
}

/// A node, with at most 100 bar.
fn made_node(alloc: Global, count: u32, node: u32) -> Result<NodeRow, NoMemory>
    ensures { IfOk result (λ row. row ≡ made_node count node) }
{
    let supply = supply_of(count, node);
    Ok(NodeRow {
        id: node_name(alloc, node)?,
        p_min: 0,
        p_max: 10_000_000,
        b_min: supply,
        b_max: supply,
    })
}

/// So many nodes.
pub fn made_nodes(alloc: Global, count: u32) -> Result<List<NodeRow>, NoMemory>
    ensures { IfOk result (λ nodes. nodes ≡ made_nodes count) }
{
    let mut nodes = List::new(alloc);
    for node in 0..count {
        nodes.push(made_node(alloc, count, node)?)?;
    }
    Ok(nodes)
}
