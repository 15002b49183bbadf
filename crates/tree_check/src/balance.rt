// Steps and closings by the balance of a node.
ghost use Rattle.std.specs.Prelude.{◌≡◌, slice_get, Some, false};
ghost use Rattle.std.specs.Option.{option_map_or};
ghost use Rattle.tree_rules.specs.NodeRules as node_rule;
ghost use Rattle.tree_rules.specs.Rules as spec;
ghost use Rattle.tree_rules.specs.Rules.{flow_lo, flow_hi};
ghost use Rattle.box_rules.specs.Balance.{balance_lets, AreSums};
ghost use Rattle.element_laws.specs.Sizes.{AreSafeFlows};
ghost use Rattle.tree_check.specs.Held.{IsBoxAt};

use crate::open_box::OpenBox;
use box_rules::{balance_bound, net_flow, node_closing, supply_of};
use gas_model::{ArcRow, Ends, NodeRow, Problem, Var};

// Whether the balance lets an end of a flow that leaves the node, or else enters it, become this value.
fn balance_lets(leaves: bool, supply: Ends, net: Ends, q: Ends, low: bool, value: i128) -> bool
    requires supply { AreSums supply }
    requires net { AreSums net }
    requires flow { AreSafeFlows q }
    ensures { result ≡ balance_lets leaves supply net q low value }
{
    let bound = balance_bound(leaves, supply, net, q, low);
    if low { value <= bound } else { bound <= value }
}

// Whether the balance of a node lets an end of the flow of an arc become this value.
fn flow_step(
    p: &Problem,
    b: &OpenBox,
    node: u32,
    node_row: &NodeRow,
    arc: u32,
    row: &ArcRow,
    low: bool,
    value: i128,
) -> bool
    requires fits { IsBoxAt p.now b.now }
    requires node { slice_get p.now.nodes node ≡ Some node_row.now }
    requires row { slice_get p.now.arcs arc ≡ Some row.now }
    ensures { result ≡ spec.flow_step p.now b.now node arc low value node_row.now row.now }
{
    let net = net_flow(p, b.bounds(), node);
    let supply = supply_of(b.scale(), node_row);
    let q = b.ends(Var::Flow(arc));
    if row.from == node {
        balance_lets(true, supply, net, q, low, value)
    } else if row.to == node {
        balance_lets(false, supply, net, q, low, value)
    } else {
        false
    }
}

// The same of any variable; a square has no part in it.
fn node_step(
    p: &Problem,
    b: &OpenBox,
    node: u32,
    node_row: &NodeRow,
    var: Var,
    low: bool,
    value: i128,
) -> bool
    requires fits { IsBoxAt p.now b.now }
    requires node { slice_get p.now.nodes node ≡ Some node_row.now }
    ensures { result ≡ spec.node_step p.now b.now node var low value node_row.now }
{
    match var {
        Var::Square(_) => false,
        Var::Flow(arc) => match p.arcs().get(arc as usize) {
            None => false,
            Some(row) => flow_step(p, b, node, node_row, arc, row, low, value),
        },
    }
}

/// Whether by the balance of a node an end of a variable may become this value.
pub fn balance_step(p: &Problem, b: &OpenBox, node: u32, var: Var, low: bool, value: i128) -> bool
    requires { IsBoxAt p.now b.now }
    ensures { result ≡ spec.balance_step p.now b.now node var low value }
{
    match p.nodes().get(node as usize) {
        None => false,
        Some(node_row) => node_step(p, b, node, node_row, var, low, value),
    }
}

/// Whether by the balance of a node no point of the box is left.
pub fn balance_closing(p: &Problem, b: &OpenBox, node: u32) -> bool
    requires { IsBoxAt p.now b.now }
    ensures { result ≡ option_map_or (λ row. node_rule.balance_closing row b.now.scale (flow_lo b.now.bounds) (flow_hi b.now.bounds) node p.now.arcs) (slice_get p.now.nodes node) false }
{
    match p.nodes().get(node as usize) {
        None => false,
        Some(node_row) => node_closing(p, b.bounds(), node, node_row),
    }
}
