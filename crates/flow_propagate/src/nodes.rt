// The first step of a node on a flow.
ghost use Rattle.std.specs.Prelude.{◌≡◌, ◌<◌, ℤ, length, MatchOption, if◌then◌else◌};
ghost use Rattle.gas_model.specs.Boxes.{BoxFits};
ghost use Rattle.gas_model.specs.declared.rows.PartState.{PartState};
ghost use Rattle.element_laws.specs.Sizes.{AreSafeFlows};
ghost use Rattle.box_rules.specs.Balance.{leaves_with, enters_with, AreSums};
ghost use Rattle.tree_rules.specs.Looser.{reaches};
ghost use Rattle.tight_steps.specs.NewEnds.{FirstEnd};
ghost use Rattle.tight_steps.specs.Moves.{is_flow, flow_number, part_box, HasNoMove, IsFirstMove};
ghost use Rattle.tight_steps.specs.declared.law.Law.TheVariants.{AtNode};
ghost use Rattle.box_rules.specs.Balance.{balance_lets};

use box_ends::ScaledBox;
use box_rules::{balance_bound, net_flow, supply_of};
use gas_model::{Ends, Problem, Var};
use tight_steps::{NewEnd, best_to};
use tree_cert::{Rule, Step};

// The first end of a flow that the balance moves.
fn best_end(leaves: bool, supply: Ends, net: Ends, q: Ends) -> Option<NewEnd>
    requires supply { AreSums supply }
    requires net { AreSums net }
    requires flow { AreSafeFlows q }
    ensures { FirstEnd q (balance_lets leaves supply net q) result }
{
    if let Some(value) = best_to(true, q, balance_bound(leaves, supply, net, q, true)) {
        return Some(NewEnd { low: true, value });
    }
    let value = best_to(false, q, balance_bound(leaves, supply, net, q, false))?;
    Some(NewEnd { low: false, value })
}

/// The first step of a node on a flow, which shrinks its width by an eighth: one pass over the arcs at the node, with the
/// sums of all their ends.
pub fn best_at_node(p: &Problem, b: &ScaledBox, node: u32) -> Option<Step>
    requires bounds { BoxFits p.now b.now.bounds }
    requires node { node < length p.now.nodes }
    ensures { (part : PartState) → MatchOption result
        (HasNoMove p.now (part_box b.now.scale part b.now.bounds) (AtNode node) is_flow)
        (IsFirstMove p.now (part_box b.now.scale part b.now.bounds) (AtNode node) is_flow flow_number) }
{
    let arcs = p.arcs();
    let at = p.arcs_at(node);
    let supply = supply_of(b.scale(), &p.nodes()[node as usize]);
    let net = net_flow(p, b, node);
    for arc in at {
        let arc = *arc;
        let var = Var::Flow(arc);
        let row = &arcs[arc as usize];
        let leaves = row.from == node;
        if let Some(end) = best_end(leaves, supply, net, b.ends(var)) {
            return Some(Step {
                var,
                low: end.low,
                value: end.value,
                rule: Rule::Balance,
                place: node,
            });
        }
    }
    None
}
