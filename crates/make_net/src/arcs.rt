// The arcs, each from a node to the next one.
ghost use Rattle.std.specs.Prelude.{◌≡◌, ◌<◌, ◌^◌, ◌-◌, IfOk};
ghost use Rattle.make_net.specs.Made.{made_kind, made_arc, made_arcs};

use crate::names::{arc_name, node_name};
use gas_model::{ArcKind, ArcText, Drag, List, NoMemory};
use std::alloc::Global;

/// A valve after the first node, and a pipe after each other one.
fn made_kind(node: u32) -> ArcKind
    ensures { result ≡ made_kind node }
{
    if node == 0 {
        return ArcKind::Valve;
    }
    ArcKind::Pipe {
        law: Drag {
            lo: 1,
            hi: 2,
            den: 1,
        },
    }
}

/// The arc from a node to the next one, whose flow is at most the number of nodes, in l/h.
fn made_arc(alloc: Global, count: u32, node: u32) -> Result<ArcText, NoMemory>
    requires { node < 2 ^ 32 - 1 }
    ensures { IfOk result (λ arc. arc ≡ made_arc count node) }
{
    Ok(ArcText {
        id: arc_name(alloc, node)?,
        from: node_name(alloc, node)?,
        to: node_name(alloc, node + 1)?,
        q_min: 0,
        q_max: i64::from(count),
        kind: made_kind(node),
    })
}

/// The arcs of so many nodes.
pub fn made_arcs(alloc: Global, count: u32) -> Result<List<ArcText>, NoMemory>
    requires { 0 < count }
    ensures { IfOk result (λ arcs. arcs ≡ made_arcs count) }
{
    let mut arcs = List::new(alloc);
    for node in 0..count - 1 {
        arcs.push(made_arc(alloc, count, node)?)?;
    }
    Ok(arcs)
}
