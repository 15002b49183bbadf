// The flows of tree arcs, which balance the nodes from the leaves inward.
ghost use Rattle.std.specs.Prelude.{◌≡◌, ◌≢◌, ◌<◌, ◌≤◌, ◌*◌, ℕ, ℤ, pos, ◌+ℤ◌, ◌-ℤ◌, ◌≤ℤ◌, length, slice_set};
ghost use Rattle.integer_laws.specs.Sizes.{IsWithin};
ghost use Rattle.gas_model.specs.Near.{number_at};
ghost use Rattle.topo.specs.Graphs.{graph_of};
ghost use Rattle.topo.specs.Walks.{step_at, far, InOrder};
ghost use Rattle.probe_point.specs.Probes.{nearest, box_at, taking_up, AreNeeds, AreSmall, AreFlowBoxes, AreGraphEnds, HasTreeFlows, KeepsOthers};

use crate::numbers::nearest;
use gas_model::{ArcRow, Ends};
use topo::far;

// The flow of an arc by which its end `node` takes up the rest of its supply.
fn taking_up(arcs: &[ArcRow], arc: u32, node: u32, rest: i128) -> i128
    requires arc { arc < length arcs.now }
    requires rest { IsWithin 5000000000000000 rest }
    ensures { result ≡ taking_up (graph_of arcs.now) arc node rest }
{
    let row = &arcs[arc as usize];
    if row.from == node { rest } else { 0 - rest }
}

// The flow of an arc between the ends that is nearest to what balances its end `node`.
fn balancing(arcs: &[ArcRow], boxes: &[Ends], arc: u32, node: u32, need: &[i128]) -> i128
    requires arc { arc < length arcs.now }
    requires has_box { arc < length boxes.now }
    requires node { node < length need.now }
    requires need { IsWithin 5000000000000000 (number_at need.now node) }
    requires boxes { AreFlowBoxes boxes.now }
    ensures value { result ≡ nearest (box_at boxes.now arc) (taking_up (graph_of arcs.now) arc node (number_at need.now node)) }
    ensures size { IsWithin 1000000000000 result }
{
    nearest(
        boxes[arc as usize],
        taking_up(arcs, arc, node, need[node as usize]),
    )
}

// Adds `x` to what a node needs.
fn add(need: &mut [i128], node: u32, x: i128)
    requires node { node < length need.old }
    requires x { IsWithin 1000000000000 x }
    requires need { IsWithin 5000000000000000 (number_at need.old node) }
    ensures { need.new ≡ slice_set need.old node (number_at need.old node +ℤ x) }
{
    need[node as usize] += x;
}

// Takes `x` from what a node needs.
fn take(need: &mut [i128], node: u32, x: i128)
    requires node { node < length need.old }
    requires x { IsWithin 1000000000000 x }
    requires need { IsWithin 5000000000000000 (number_at need.old node) }
    ensures { need.new ≡ slice_set need.old node (number_at need.old node -ℤ x) }
{
    need[node as usize] -= x;
}

// Gives an arc a flow, which its ends no longer need.
pub fn give(flows: &mut [i128], need: &mut [i128], arcs: &[ArcRow], arc: u32, flow: i128)
    requires arc { arc < length arcs.now }
    requires place { arc < length flows.old }
    requires ends { AreGraphEnds arcs.now (length need.old) }
    requires flow { IsWithin 1000000000000 flow }
    requires need { AreSmall 5000 need.old }
    ensures flows { flows.new ≡ slice_set flows.old arc flow }
    ensures need { need.new ≡ slice_set (slice_set need.old ((graph_of arcs.now).from arc) (number_at need.old ((graph_of arcs.now).from arc) -ℤ flow)) ((graph_of arcs.now).to arc) (number_at need.old ((graph_of arcs.now).to arc) +ℤ flow) }
{
    flows[arc as usize] = flow;
    let row = &arcs[arc as usize];
    take(need, row.from, flow);
    add(need, row.to, flow);
}

/// Gives the arcs of a walk their flows, from its last step to its first: each the value of its box that is nearest to
/// the flow which balances its far node. `need` has what each node still needs, before and after.
pub fn tree_flows(
    arcs: &[ArcRow],
    boxes: &[Ends],
    walk: &[(u32, u32)],
    flows: &mut [i128],
    need: &mut [i128],
)
    requires ends { AreGraphEnds arcs.now (length need.old) }
    requires boxes { AreFlowBoxes boxes.now }
    requires box_of_each { length boxes.now ≡ length arcs.now }
    requires flow_of_each { length flows.old ≡ length arcs.now }
    requires walk { InOrder (graph_of arcs.now) walk.now }
    requires short { length walk.now ≤ 2000 }
    requires none { (i : ℕ) → i < length walk.now → number_at flows.old (step_at walk.now i).0 ≡ pos 0 }
    requires flows { AreSmall 1 flows.old }
    requires need { AreSmall 2001 need.old }
    ensures tree { (supply : ℕ → ℤ) → AreNeeds arcs.now supply (number_at flows.old) need.old → HasTreeFlows arcs.now (box_at boxes.now) supply walk.now (number_at flows.new) }
    ensures need { (supply : ℕ → ℤ) → AreNeeds arcs.now supply (number_at flows.old) need.old → AreNeeds arcs.now supply (number_at flows.new) need.new }
    ensures others { KeepsOthers walk.now (number_at flows.old) (number_at flows.new) }
    ensures flows { AreSmall 1 flows.new }
{
    let mut left = walk.len();
    while left > 0 {
        left -= 1;
        let (arc, near) = walk[left];
        let node = far(arcs, arc, near);
        let flow = balancing(arcs, boxes, arc, node, need);
        give(flows, need, arcs, arc, flow);
    }
}
