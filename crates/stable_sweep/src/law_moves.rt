// The first closing and the first step of a law.
ghost use Rattle.std.specs.Prelude.{◌≡◌, MatchOption, length};
ghost use Rattle.gas_model.specs.Boxes.{BoxFits};
ghost use Rattle.gas_model.specs.Choices.{PartFits};
ghost use Rattle.tight_steps.specs.Moves.{is_law, part_box};
ghost use Rattle.stable_sweep.specs.Quiet.{ClosesNothing, HasNoStep, ClosesAt, IsTightMove};

use box_core::VarBox;
use flow_propagate::{best_flow, shut_flow};
use gas_model::{PartState, Problem};
use interval_core::Grid;
use pressure_propagate::{best_square, shut_square};
use tight_steps::Law;
use tree_cert::{Closing, Rule, Step};

/// The first closing of a law that holds. `None` exactly where none does.
pub fn first_closing<G: Grid>(
    p: &Problem,
    state: &PartState,
    b: &VarBox<G>,
    law: Law,
) -> Option<Closing>
    requires part { PartFits p.now state.now }
    requires bounds { BoxFits p.now b.now }
    requires law { is_law (length p.now.nodes) (length p.now.arcs) law }
    ensures { MatchOption result
        (ClosesNothing p.now (part_box G.SCALE state.now b.now) law)
        (ClosesAt p.now (part_box G.SCALE state.now b.now)) }
{
    match law {
        Law::AtNode(node) => {
            if shut_flow(p, state, b, node) {
                Some(Closing::At {
                    rule: Rule::Balance,
                    place: node,
                })
            } else {
                None
            }
        }
        Law::AtArc(arc) => shut_square(p, state, b, arc),
    }
}

/// The first step of a law that shrinks a width by an eighth, flows before squares, with the tightest value of its rule.
/// `None` exactly where there is none.
pub fn first_step<G: Grid>(p: &Problem, state: &PartState, b: &VarBox<G>, law: Law) -> Option<Step>
    requires part { PartFits p.now state.now }
    requires bounds { BoxFits p.now b.now }
    requires law { is_law (length p.now.nodes) (length p.now.arcs) law }
    ensures { MatchOption result
        (HasNoStep p.now (part_box G.SCALE state.now b.now) law)
        (IsTightMove p.now (part_box G.SCALE state.now b.now)) }
{
    if let Some(step) = best_flow(p, state, b, law) {
        return Some(step);
    }
    match law {
        Law::AtNode(_) => None,
        Law::AtArc(arc) => best_square(p, state, b, arc),
    }
}
