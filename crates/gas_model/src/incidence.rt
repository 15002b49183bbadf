// The arcs at each node.
ghost use Rattle.std.specs.Prelude.{◌≡◌, ◌<◌, [], length, map, IfOk, OnOk};
ghost use Rattle.gas_model.specs.Incidence.{noted, AreEnds, KeepsArcsAt};

use crate::rows::ArcRow;
use base_types::{NoMemory, shared};
use smallvec::SmallVec;
use std::alloc::Global;
use std::rc::Rc;

/// The arcs that leave or enter a node, mostly a few.
pub type ArcsAt = SmallVec<u32, 4>;

// Adds an arc to the list of a node.
fn note(lists: &mut Vec<ArcsAt>, node: u32, arc: u32) -> Result<(), NoMemory>
    requires { node < length lists.old.items }
    ensures { OnOk result (map (λ v. v.items) lists.new.items ≡ noted (map (λ v. v.items) lists.old.items) node arc) }
{
    lists[node as usize].push(arc)?;
    Ok(())
}

// As many empty lists.
fn empty_lists(alloc: Global, count: usize) -> Result<Vec<ArcsAt>, NoMemory>
    ensures { IfOk result (λ lists. KeepsArcsAt (map (λ v. v.items) lists.items) count []) }
{
    let mut lists = Vec::new(alloc);
    for _n in 0..count {
        lists.push(SmallVec::new(alloc))?;
    }
    Ok(lists)
}

// The arcs at each node, in order.
fn lists_at_nodes(alloc: Global, nodes: usize, arcs: &[ArcRow]) -> Result<Vec<ArcsAt>, NoMemory>
    requires { AreEnds nodes arcs.now }
    ensures { IfOk result (λ lists. KeepsArcsAt (map (λ v. v.items) lists.items) nodes arcs.now) }
{
    let mut lists = empty_lists(alloc, nodes)?;
    for (a, row) in arcs.iter().enumerate() {
        note(&mut lists, row.from, a as u32)?;
        note(&mut lists, row.to, a as u32)?;
    }
    Ok(lists)
}

/// The arcs at each node, in order, which shapes of the network share.
pub fn arcs_at_nodes(
    alloc: Global,
    nodes: usize,
    arcs: &[ArcRow],
) -> Result<Rc<Vec<ArcsAt>>, NoMemory>
    requires { AreEnds nodes arcs.now }
    ensures { IfOk result (λ lists. KeepsArcsAt (map (λ v. v.items) lists.value.items) nodes arcs.now) }
{
    let lists = lists_at_nodes(alloc, nodes, arcs)?;
    shared(alloc, lists)
}
