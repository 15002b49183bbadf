// Problems of one node, or of two.
ghost use Rattle.std.specs.Prelude.{◌≡◌, length, IfSome};

use crate::rows::{PIPE, arc, node};
use gas_model::{ArcText, GroupText, List, ModelFault, Problem, Rows};
use std::alloc::Global;

/// The nodes `a` and `b`: bounds of their pressures in Pa, and their supplies in l/h.
#[derive(Clone, Copy, Debug)]
pub struct Pair {
    pub a: (i64, i64),
    pub b: (i64, i64),
    pub supplies: (i64, i64),
}

/// The problem of the nodes `a` and `b` with these arcs and groups.
pub fn two_nodes(
    alloc: Global,
    of: Pair,
    arcs: List<ArcText>,
    groups: List<GroupText>,
) -> Result<Problem, ModelFault> {
    let mut nodes = List::new(alloc);
    nodes.push(node(alloc, "a", of.a, of.supplies.0)?)?;
    nodes.push(node(alloc, "b", of.b, of.supplies.1)?)?;
    Problem::make(
        alloc,
        Rows {
            nodes,
            arcs,
            groups,
        },
    )
}

/// The nodes `a` and `b`, and pipes of resistance 1 with these ids from `a` to `b`, with flows within these bounds.
pub fn piped(
    alloc: Global,
    of: Pair,
    flow: (i64, i64),
    ids: &[&str],
) -> Result<Problem, ModelFault> {
    let mut arcs = List::new(alloc);
    for id in ids {
        arcs.push(arc(alloc, *id, ("a", "b"), flow, PIPE)?)?;
    }
    two_nodes(alloc, of, arcs, List::new(alloc))
}

/// The node `a` alone, with bounds of its pressure in Pa and without a supply.
pub fn single(alloc: Global, p: (i64, i64)) -> Result<Problem, ModelFault> {
    let mut nodes = List::new(alloc);
    nodes.push(node(alloc, "a", p, 0)?)?;
    let (arcs, groups) = (List::new(alloc), List::new(alloc));
    Problem::make(
        alloc,
        Rows {
            nodes,
            arcs,
            groups,
        },
    )
}

/// The problem, where it has so many nodes and so many arcs.
pub fn sized(p: Problem, nodes: usize, arcs: usize) -> Option<Problem>
    ensures nodes { IfSome result (λ p. length p.nodes ≡ nodes) }
    ensures arcs { IfSome result (λ p. length p.arcs ≡ arcs) }
{
    if p.nodes().len() == nodes && p.arcs().len() == arcs {
        Some(p)
    } else {
        None
    }
}
