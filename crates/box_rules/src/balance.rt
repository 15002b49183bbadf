// The balance of a node: what leaves it less what enters it, and whether that is beyond its supply.
ghost use Rattle.std.specs.Prelude.{◌≡◌, ◌<◌, ◌==◌, ◌*◌, ◌+ℤ◌, ◌-ℤ◌, ◌*ℤ◌, ◌||◌, ℤ, int_lt, neg_ℤ, if◌then◌else◌, length, slice_get, Some, IsTrue};
ghost use Rattle.gas_model.specs.BoxLimits.{IsScale};
ghost use Rattle.gas_model.specs.Boxes.{BoxFits};
ghost use Rattle.base_types.specs.Numbers.{is_flow};
ghost use Rattle.gas_model.specs.Within.{IsWithin as AreWithin};
ghost use Rattle.integer_laws.specs.Sizes.{IsWithin};
ghost use Rattle.element_laws.specs.Sizes.{most_flow, AreSafeFlows};
ghost use Rattle.tree_rules.specs.NodeRules as node_rule;
ghost use Rattle.tree_rules.specs.Rules.{flow_lo, flow_hi};
ghost use Rattle.box_rules.specs.Balance.{net_low, net_high, supply_of, balance_lets, AreSums};
ghost use Rattle.tree_rules.specs.Looser.{reaches};

use box_ends::ScaledBox;
use gas_model::{ArcRow, Ends, NodeRow, Problem, Var};

// What an arc at a node takes from it at least and at most: its flow where it leaves the node, and else, as it enters,
// that flow negated.
fn taken(row: &ArcRow, node: u32, q: Ends) -> Ends
    requires { AreSafeFlows q }
    ensures lo { result.lo ≡ (if row.now.from == node then q.lo else neg_ℤ q.hi) }
    ensures hi { result.hi ≡ (if row.now.from == node then q.hi else neg_ℤ q.lo) }
    ensures safe { AreSafeFlows result }
{
    if row.from == node {
        q
    } else {
        Ends {
            lo: -q.hi,
            hi: -q.lo,
        }
    }
}

/// What leaves a node less what enters it, at least and at most.
pub fn net_flow(p: &Problem, b: &ScaledBox, node: u32) -> Ends
    requires within { AreWithin p.now }
    requires bounds { BoxFits p.now b.now.bounds }
    requires node { node < length p.now.nodes }
    ensures lo { result.lo ≡ net_low b.now.bounds node p.now.arcs }
    ensures hi { result.hi ≡ net_high b.now.bounds node p.now.arcs }
    ensures sums { AreSums result }
{
    let arcs = p.arcs();
    let at = p.arcs_at(node);
    let mut lo: i128 = 0;
    let mut hi: i128 = 0;
    for arc in at {
        let arc = *arc;
        let q = b.ends(Var::Flow(arc));
        let term = taken(&arcs[arc as usize], node, q);
        lo += term.lo;
        hi += term.hi;
    }
    Ends { lo, hi }
}

// A bound of a supply, in units of 1/scale.
fn scaled_supply(scale: i128, supply: i64) -> i128
    requires scale { IsScale scale }
    requires supply { IsTrue (is_flow supply) }
    ensures value { result ≡ scale *ℤ supply }
    ensures size { IsWithin (2000 * most_flow) result }
{
    scale * supply as i128
}

/// The supply of a node at least and at most, in units of 1/scale.
pub fn supply_of(scale: i128, node: &NodeRow) -> Ends
    requires scale { IsScale scale }
    requires low { IsTrue (is_flow node.now.b_min) }
    requires high { IsTrue (is_flow node.now.b_max) }
    ensures value { result ≡ supply_of scale node.now }
    ensures sums { AreSums result }
{
    let lo = scaled_supply(scale, node.b_min);
    let hi = scaled_supply(scale, node.b_max);
    Ends { lo, hi }
}

// A difference and a flow.
fn left_over(x: i128, y: i128, q: i128) -> i128
    requires x { IsWithin (2000 * most_flow) x }
    requires y { IsWithin (2000 * most_flow) y }
    requires q { IsWithin most_flow q }
    ensures { result ≡ x -ℤ y +ℤ q }
{
    x - y + q
}

/// Up to where the balance lets an end of a flow go: the sums over all arcs leave to it what the supply lacks, and what
/// it gives by itself.
pub fn balance_bound(leaves: bool, supply: Ends, net: Ends, q: Ends, low: bool) -> i128
    requires supply { AreSums supply }
    requires net { AreSums net }
    requires flow { AreSafeFlows q }
    ensures { (C : ℤ) → reaches low result C ≡ balance_lets leaves supply net q low C }
{
    if leaves {
        if low {
            left_over(supply.lo, net.hi, q.hi)
        } else {
            left_over(supply.hi, net.lo, q.lo)
        }
    } else if low {
        left_over(net.lo, supply.hi, q.hi)
    } else {
        left_over(net.hi, supply.lo, q.lo)
    }
}

// Whether the supply lies beyond the net flow.
fn is_beyond(supply: Ends, net: Ends) -> bool
    ensures { result ≡ (int_lt supply.hi net.lo || int_lt net.hi supply.lo) }
{
    supply.hi < net.lo || net.hi < supply.lo
}

/// Whether no flows of the box balance the node.
pub fn node_closing(p: &Problem, b: &ScaledBox, node: u32, node_row: &NodeRow) -> bool
    requires within { AreWithin p.now }
    requires bounds { BoxFits p.now b.now.bounds }
    requires node { slice_get p.now.nodes node ≡ Some node_row.now }
    ensures { result ≡ node_rule.balance_closing node_row.now b.now.scale (flow_lo b.now.bounds) (flow_hi b.now.bounds) node p.now.arcs }
{
    is_beyond(supply_of(b.scale(), node_row), net_flow(p, b, node))
}
