// Nodes of a network file.
ghost use Rattle.std.specs.Prelude.{◌≡◌};
ghost use Rattle.element_fields.specs.Answers.{Gives};
ghost use Rattle.net_reader.specs.Nodes.{node_word, flow_bounds, node_flows, node_of, node_in, node_rows};

use crate::rows::{NetNode, NodeWord};
use base_types::List;
use element_fields::{Sort, bad_word, bound_of, id_in, next_child};
use gas_units::Side;
use std::alloc::Global;
use tag_outline::{Element, FileFault};

fn node_word(name: &str) -> Option<NodeWord>
    ensures { result ≡ node_word name.now }
{
    if name == "source" {
        Some(NodeWord::Source)
    } else if name == "sink" {
        Some(NodeWord::Sink)
    } else if name == "innode" {
        Some(NodeWord::Inner)
    } else {
        None
    }
}

/// The bounds of the flow of a source, a sink or a connection.
#[tactic(auto, unfolding(crate::specs::Nodes::flow_bounds))]
pub fn flow_bounds(alloc: Global, e: &Element, below: &[Element]) -> Result<(i64, i64), FileFault>
    ensures { Gives result (flow_bounds e.now below.now) }
{
    let low = bound_of(alloc, Sort::Flow, Side::Down, "flowMin", e, below)?;
    let high = bound_of(alloc, Sort::Flow, Side::Up, "flowMax", e, below)?;
    Ok((low, high))
}

fn node_flows(
    alloc: Global,
    word: NodeWord,
    e: &Element,
    below: &[Element],
) -> Result<(i64, i64), FileFault>
    ensures { Gives result (node_flows word e.now below.now) }
{
    match word {
        NodeWord::Source | NodeWord::Sink => flow_bounds(alloc, e, below),
        NodeWord::Inner => Ok((0, 0)),
    }
}

#[tactic(auto, unfolding(crate::specs::Nodes::node_of))]
fn node_of(
    alloc: Global,
    word: NodeWord,
    e: &Element,
    below: &[Element],
) -> Result<NetNode, FileFault>
    ensures { Gives result (node_of word e.now below.now) }
{
    let id = id_in(alloc, "id", e)?;
    let p_min = bound_of(alloc, Sort::Pressure, Side::Down, "pressureMin", e, below)?;
    let p_max = bound_of(alloc, Sort::Pressure, Side::Up, "pressureMax", e, below)?;
    let (f_min, f_max) = node_flows(alloc, word, e, below)?;
    Ok(NetNode {
        id,
        word,
        p_min,
        p_max,
        f_min,
        f_max,
    })
}

// The row of a child of an element of this name.
#[tactic(auto, unfolding(crate::specs::Nodes::node_in))]
fn node_in(
    alloc: Global,
    parent: &str,
    e: &Element,
    below: &[Element],
) -> Result<NetNode, FileFault>
    ensures { Gives result (node_in parent.now (e.now, below.now)) }
{
    let Some(word) = node_word(e.name.as_str()) else {
        return Err(bad_word(alloc, parent, e.name.as_str()));
    };
    node_of(alloc, word, e, below)
}

/// The rows of all children of an element, which `below` follow.
pub fn node_rows(
    alloc: Global,
    parent: &Element,
    below: &[Element],
) -> Result<List<NetNode>, FileFault>
    ensures { Gives result (node_rows parent.now below.now) }
{
    let mut rows = List::new(alloc);
    let mut rest = below;
    while let Some((e, after)) = next_child(parent.depth, rest) {
        let row = node_in(alloc, parent.name.as_str(), e, after)?;
        rows.push(row)?;
        rest = after;
    }
    Ok(rows)
}
