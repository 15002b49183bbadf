// The first step of a law on a flow, and the closing by balance.
ghost use Rattle.std.specs.Prelude.{◌≡◌, ◌<◌, length, MatchOption};
ghost use Rattle.gas_model.specs.Boxes.{BoxFits};
ghost use Rattle.gas_model.specs.Choices.{PartFits};
ghost use Rattle.gas_model.specs.declared.rows.PartState.{PartState};
ghost use Rattle.box_rules.specs.ArcLimits.{IsFormWithin, IsLawOf};
ghost use Rattle.tight_steps.specs.declared.law.Law.TheVariants.{AtArc};
ghost use Rattle.tree_cert.specs.declared.line.Rule.TheVariants.{Balance};
ghost use Rattle.tree_rules.specs.Rules.{closing_at};
ghost use Rattle.tight_steps.specs.Moves.{is_law, is_flow, flow_number, part_box, HasNoMove, IsFirstMove};

use crate::arcs::{best_at_arc, best_by_form};
use crate::nodes::best_at_node;
use box_core::VarBox;
use box_rules::node_closing;
use gas_model::{LawForm, PartState, Problem};
use interval_core::Grid;
use tight_steps::Law;
use tree_cert::Step;

/// The first step of a law on a flow that shrinks its width by an eighth, with the tightest value of its rule. The steps
/// of a node stand in the order of its arcs, the lower end before the upper one; an arc has one flow. `None` exactly
/// where there is no such step, so for an arc whose state isn't fixed.
///
/// The part state and the box fit the problem, and the law is one of it. Widths may be negative.
pub fn best_flow<G: Grid>(p: &Problem, state: &PartState, b: &VarBox<G>, law: Law) -> Option<Step>
    requires part { PartFits p.now state.now }
    requires bounds { BoxFits p.now b.now }
    requires law { is_law (length p.now.nodes) (length p.now.arcs) law }
    ensures { MatchOption result
        (HasNoMove p.now (part_box G.SCALE state.now b.now) law is_flow)
        (IsFirstMove p.now (part_box G.SCALE state.now b.now) law is_flow flow_number) }
{
    match law {
        Law::AtNode(node) => best_at_node(p, b.scaled(), node),
        Law::AtArc(arc) => best_at_arc(p, state, b.scaled(), arc),
    }
}

/// The first step of an arc on its flow, as `best_flow` gives it, where the arc's law is known. A caller that works the
/// laws of a part state out once needs no part state here.
///
/// The box fits the problem, the arc is one of it, and the numbers of the law are within their limits.
pub fn best_flow_by_law<G: Grid>(
    p: &Problem,
    form: &LawForm,
    b: &VarBox<G>,
    arc: u32,
) -> Option<Step>
    requires within { IsFormWithin form.now }
    requires bounds { BoxFits p.now b.now }
    requires arc { arc < length p.now.arcs }
    ensures { (part : PartState) → IsLawOf p.now part arc form.now → MatchOption result
        (HasNoMove p.now (part_box G.SCALE part b.now) (AtArc arc) is_flow)
        (IsFirstMove p.now (part_box G.SCALE part b.now) (AtArc arc) is_flow flow_number) }
{
    best_by_form(p, form, b.scaled(), arc)
}

/// Whether the balance of a node leaves no point of the box: what leaves it less what enters it is above its supply or
/// below it, for all flows of the box.
///
/// The part state and the box fit the problem, and the node is one of it. Widths may be negative.
pub fn shut_flow<G: Grid>(p: &Problem, state: &PartState, b: &VarBox<G>, node: u32) -> bool
    requires part { PartFits p.now state.now }
    requires bounds { BoxFits p.now b.now }
    requires node { node < length p.now.nodes }
    ensures { result ≡ closing_at p.now (part_box G.SCALE state.now b.now) Balance node }
{
    node_closing(p, b.scaled(), node, &p.nodes()[node as usize])
}
