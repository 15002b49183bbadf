// Two nodes joined by one arc, with numbers worked by hand.
ghost use Rattle.std.specs.Prelude.{◌≡◌, true, length};
ghost use Rattle.tight_steps.specs.Moves.{is_law};

use crate::problems::{arc, joined, named};
use box_core::VarBox;
use flow_propagate::{Law, best_flow, shut_flow};
use gas_model::{ArcKind, ArcState, Problem, Var};
use interval_core::{Grid, Ones, Sixteenths};
use small_problems::{PIPE, loose_node};
use std::alloc::Global;
use std::test::Fail;
use tree_cert::{Rule, Step};

const LOSS: ArcKind = ArcKind::Loss { low: 2, high: 9 };

const CONTROL: ArcKind = ArcKind::Control {
    in_min: 0,
    out_max: 9,
    red_min: 0,
    red_max: 9,
};

// An arc from the node a to the node b, with bounds of the flow and of both pressures. The node a has this supply.
#[derive(Clone, Copy)]
struct OneArc {
    a: (i64, i64),
    b: (i64, i64),
    supply: i64,
    flow: (i64, i64),
    kind: ArcKind,
}

// A step by a law, in ones and in sixteenths.
#[derive(Clone, Copy)]
struct Case {
    of: OneArc,
    state: Option<ArcState>,
    law: Law,
    low: bool,
    ones: i128,
    sixteenths: i128,
    rule: Rule,
}

fn problem(alloc: Global, of: &OneArc) -> Result<Problem, Fail> {
    let taken = of.supply.wrapping_neg();
    let a = loose_node(alloc, "a", of.a, (of.supply, of.supply))?;
    let b = loose_node(alloc, "b", of.b, (taken, taken))?;
    joined(alloc, a, b, arc(alloc, "p", of.flow, of.kind)?)
}

fn is_law(p: &Problem, law: Law) -> bool
    ensures { result ≡ true → is_law (length p.now.nodes) (length p.now.arcs) law }
{
    match law {
        Law::AtNode(node) => (node as usize) < p.nodes().len(),
        Law::AtArc(arc) => (arc as usize) < p.arcs().len(),
    }
}

fn first_step<G: Grid>(
    alloc: Global,
    of: &OneArc,
    state: Option<ArcState>,
    law: Law,
) -> Result<Option<Step>, Fail> {
    let p = problem(alloc, of)?;
    let part = named(&p, state)?;
    let b = VarBox::<G>::opening(alloc, &p)?;
    if !is_law(&p, law) {
        return Err(Fail::from("no such law"));
    }
    Ok(best_flow(&p, &part, &b, law))
}

// Whether the balance closes the opening box at both nodes, or at neither.
fn shut<G: Grid>(alloc: Global, of: &OneArc) -> Result<(bool, bool), Fail> {
    let p = problem(alloc, of)?;
    let part = named(&p, None)?;
    let b = VarBox::<G>::opening(alloc, &p)?;
    if p.nodes().len() != 2 {
        return Err(Fail::from("other nodes"));
    }
    Ok((shut_flow(&p, &part, &b, 0), shut_flow(&p, &part, &b, 1)))
}

fn arc_of(a: i64, b: (i64, i64), q_min: i64, kind: ArcKind) -> OneArc {
    OneArc {
        a: (a, a),
        b,
        supply: 4,
        flow: (q_min, 10),
        kind,
    }
}

fn step_of(case: &Case, value: i128) -> Option<Step> {
    let place = match case.law {
        Law::AtNode(node) => node,
        Law::AtArc(arc) => arc,
    };
    Some(Step {
        var: Var::Flow(0),
        low: case.low,
        value,
        rule: case.rule,
        place,
    })
}

fn by_node(node: u32, of: OneArc, low: bool) -> Case {
    Case {
        of,
        state: None,
        law: Law::AtNode(node),
        low,
        ones: 4,
        sixteenths: 64,
        rule: Rule::Balance,
    }
}

fn by_arc(of: OneArc, state: Option<ArcState>, low: bool, ones: i128, rule: Rule) -> Case {
    Case {
        of,
        state,
        law: Law::AtArc(0),
        low,
        ones,
        sixteenths: ones.wrapping_mul(16),
        rule,
    }
}

// The flow may go from -10 or 0 or 4 up to 10. Squares of 25 and of 16 to 25 lie -9 to 9 apart, or 0 to 9. The balance
// asks for 4.
#[test]
fn each_rule_moves_each_of_its_ends(rt: HostRuntime) -> Result<(), Fail> {
    let wide = arc_of(5, (4, 9), -10, PIPE);
    let high = arc_of(5, (4, 9), 4, PIPE);
    let shut = Some(ArcState::Shut);
    let active = Some(ArcState::Active);
    let cases = [
        by_node(0, wide, true),
        by_node(1, wide, true),
        by_node(0, high, false),
        by_node(1, high, false),
        by_arc(arc_of(5, (4, 5), -10, PIPE), None, true, 0, Rule::Pipe),
        by_arc(arc_of(5, (4, 5), 0, PIPE), None, false, 3, Rule::Pipe),
        by_arc(arc_of(4, (5, 5), -10, PIPE), None, true, -3, Rule::Pipe),
        by_arc(
            arc_of(5, (5, 5), -10, ArcKind::Valve),
            shut,
            true,
            0,
            Rule::Zero,
        ),
        by_arc(
            arc_of(5, (5, 5), 0, ArcKind::Valve),
            shut,
            false,
            0,
            Rule::Zero,
        ),
        by_arc(arc_of(5, (5, 5), -10, CONTROL), active, true, 0, Rule::Way),
        by_arc(arc_of(9, (5, 5), -10, LOSS), None, true, 0, Rule::Sign),
        by_arc(arc_of(5, (9, 9), -10, LOSS), None, false, 0, Rule::Sign),
    ];
    for case in cases {
        let ones = first_step::<Ones>(rt.alloc(), &case.of, case.state, case.law)?;
        assert_eq!(rt; ones, step_of(&case, case.ones));
        let sixteenths = first_step::<Sixteenths>(rt.alloc(), &case.of, case.state, case.law)?;
        assert_eq!(rt; sixteenths, step_of(&case, case.sixteenths));
    }
    Ok(())
}

// A valve whose state isn't fixed has no law, and that of one that is open doesn't speak of its flow.
#[test]
fn no_rule_moves_these_flows(rt: HostRuntime) -> Result<(), Fail> {
    let arc = Law::AtArc(0);
    let valve = arc_of(5, (5, 5), -10, ArcKind::Valve);
    assert_eq!(rt; first_step::<Ones>(rt.alloc(), &valve, None, arc)?, None);
    assert_eq!(rt;
        first_step::<Ones>(rt.alloc(), &valve, Some(ArcState::Opened), arc)?,
        None
    );
    Ok(())
}

// A flow of at most 0 can't carry a supply of 4 out of the one node, nor into the other.
#[test]
fn balance_closes_a_flow_that_goes_back(rt: HostRuntime) -> Result<(), Fail> {
    let open = arc_of(5, (4, 9), -10, PIPE);
    assert_eq!(rt; shut::<Ones>(rt.alloc(), &open)?, (false, false));
    let back = OneArc {
        flow: (-10, 0),
        ..open
    };
    assert_eq!(rt; shut::<Ones>(rt.alloc(), &back)?, (true, true));
    Ok(())
}
