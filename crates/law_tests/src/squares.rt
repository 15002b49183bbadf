// Two nodes joined by one arc, with numbers worked by hand.
ghost use Rattle.std.specs.Prelude.{◌<◌, length, IsTrue, OnOk};
ghost use Rattle.gas_model.specs.Boxes.{BoxFits, is_var};

use crate::problems::{arc, joined, named};
use box_core::VarBox;
use gas_model::{ArcKind, ArcState, PartState, Problem, Var};
use interval_core::{Grid, Ones, Sixteenths};
use pressure_propagate::{best_square, shut_square};
use small_problems::{PIPE, loose_node};
use std::alloc::Global;
use std::test::Fail;
use tree_cert::{Closing, Rule, Step};

const FROM_FOUR: ArcKind = ArcKind::Control {
    in_min: 4,
    out_max: 9,
    red_min: 0,
    red_max: 9,
};

const UP_TO_SIX: ArcKind = ArcKind::Control {
    in_min: 0,
    out_max: 6,
    red_min: 0,
    red_max: 9,
};

const FALL: ArcKind = ArcKind::Control {
    in_min: 0,
    out_max: 9,
    red_min: 2,
    red_max: 4,
};

const STAYS: ArcKind = ArcKind::Station {
    in_min: 0,
    out_max: 9,
    ratio_num: 1,
    ratio_den: 1,
    rise_max: 9,
};

const RISES_FAR: ArcKind = ArcKind::Station {
    in_min: 0,
    out_max: 9,
    ratio_num: 9,
    ratio_den: 1,
    rise_max: 9,
};

const RISE: ArcKind = ArcKind::Station {
    in_min: 0,
    out_max: 9,
    ratio_num: 9,
    ratio_den: 1,
    rise_max: 2,
};

const RATIO: ArcKind = ArcKind::Station {
    in_min: 0,
    out_max: 9,
    ratio_num: 3,
    ratio_den: 2,
    rise_max: 9,
};

const LITTLE_LOSS: ArcKind = ArcKind::Loss { low: 1, high: 2 };

const WIDE_LOSS: ArcKind = ArcKind::Loss { low: 1, high: 9 };

const GREAT_LOSS: ArcKind = ArcKind::Loss { low: 2, high: 9 };

// An arc from the node a to the node b: its bounds of the flow, then those of the pressures at a and at b.
type Bounds = [i64; 6];

// The end of the square at a (`true`) or at b, and the lower (`true`) or the upper one, that moves first, by which rule
// and to what, in ones.
type Moved = (ArcKind, Bounds, bool, bool, Rule, i128);

// A pressure that falls by 3^2 along a flow of 3, by 2 to 4 Pa, rises by 2 Pa or to its half more, or loses up to 2 Pa or
// at least 2 Pa.
const MOVES: [Moved; 32] = [
    (PIPE, [3, 9, 0, 9, 5, 5], true, true, Rule::Pipe, 34),
    (PIPE, [-9, -3, 0, 9, 5, 5], true, false, Rule::Pipe, 16),
    (PIPE, [0, 3, 5, 5, 0, 9], false, true, Rule::Pipe, 16),
    (PIPE, [3, 9, 5, 5, 0, 9], false, false, Rule::Pipe, 16),
    (
        ArcKind::Short,
        [0, 9, 3, 9, 5, 5],
        true,
        true,
        Rule::Equal,
        25,
    ),
    (
        ArcKind::Short,
        [0, 9, 5, 9, 5, 5],
        true,
        false,
        Rule::Equal,
        25,
    ),
    (
        ArcKind::Short,
        [0, 9, 5, 5, 3, 9],
        false,
        true,
        Rule::Equal,
        25,
    ),
    (
        ArcKind::Short,
        [0, 9, 5, 5, 5, 9],
        false,
        false,
        Rule::Equal,
        25,
    ),
    (FROM_FOUR, [0, 9, 0, 9, 0, 9], true, true, Rule::Inner, 16),
    (UP_TO_SIX, [0, 9, 5, 5, 0, 9], false, false, Rule::Inner, 36),
    (FALL, [0, 9, 4, 9, 3, 3], true, true, Rule::Fall, 25),
    (FALL, [0, 9, 5, 9, 3, 3], true, false, Rule::Fall, 49),
    (FALL, [0, 9, 6, 6, 0, 5], false, true, Rule::Fall, 4),
    (FALL, [0, 9, 6, 6, 2, 9], false, false, Rule::Fall, 16),
    (STAYS, [0, 9, 5, 9, 5, 5], true, false, Rule::Order, 25),
    (RISES_FAR, [0, 9, 5, 5, 3, 9], false, true, Rule::Order, 25),
    (RISE, [0, 9, 0, 9, 6, 9], true, true, Rule::Rise, 16),
    (RISE, [0, 9, 5, 5, 5, 9], false, false, Rule::Rise, 49),
    (RATIO, [0, 9, 0, 9, 6, 9], true, true, Rule::Ratio, 16),
    (RATIO, [0, 9, 4, 4, 4, 9], false, false, Rule::Ratio, 36),
    (
        LITTLE_LOSS,
        [-9, 9, 0, 9, 6, 9],
        true,
        true,
        Rule::Reach,
        16,
    ),
    (
        LITTLE_LOSS,
        [-9, 9, 4, 9, 6, 6],
        true,
        false,
        Rule::Reach,
        64,
    ),
    (
        LITTLE_LOSS,
        [-9, 9, 6, 6, 0, 9],
        false,
        true,
        Rule::Reach,
        16,
    ),
    (
        LITTLE_LOSS,
        [-9, 9, 6, 6, 4, 9],
        false,
        false,
        Rule::Reach,
        64,
    ),
    (WIDE_LOSS, [0, 9, 0, 9, 6, 9], true, true, Rule::Along, 36),
    (WIDE_LOSS, [-9, 0, 4, 9, 6, 6], true, false, Rule::Along, 36),
    (WIDE_LOSS, [-9, 0, 6, 6, 0, 9], false, true, Rule::Along, 36),
    (WIDE_LOSS, [0, 9, 6, 6, 4, 9], false, false, Rule::Along, 36),
    (GREAT_LOSS, [1, 9, 6, 9, 6, 9], true, true, Rule::Drop, 64),
    (
        GREAT_LOSS,
        [-9, -1, 4, 8, 8, 8],
        true,
        false,
        Rule::Drop,
        36,
    ),
    (
        GREAT_LOSS,
        [-9, -1, 6, 6, 6, 9],
        false,
        true,
        Rule::Drop,
        64,
    ),
    (GREAT_LOSS, [1, 9, 6, 6, 1, 6], false, false, Rule::Drop, 16),
];

// The rule by which an arc closes its box first, if one does.
const CLOSINGS: [(ArcKind, Bounds, Option<Rule>); 7] = [
    (PIPE, [9, 9, 5, 5, 0, 9], Some(Rule::Pipe)),
    (FALL, [0, 9, 3, 3, 2, 9], Some(Rule::Fall)),
    (RISE, [0, 9, 4, 4, 7, 7], Some(Rule::Rise)),
    (RATIO, [0, 9, 4, 4, 7, 7], Some(Rule::Ratio)),
    (LITTLE_LOSS, [-9, 9, 9, 9, 5, 5], Some(Rule::Reach)),
    (GREAT_LOSS, [1, 9, 5, 5, 4, 9], Some(Rule::Drop)),
    (ArcKind::Short, [0, 9, 5, 5, 6, 6], None),
];

fn problem(alloc: Global, kind: ArcKind, bounds: Bounds) -> Result<Problem, Fail> {
    let [q_min, q_max, a_min, a_max, b_min, b_max] = bounds;
    let a = loose_node(alloc, "a", (a_min, a_max), (0, 0))?;
    let b = loose_node(alloc, "b", (b_min, b_max), (0, 0))?;
    joined(alloc, a, b, arc(alloc, "p", (q_min, q_max), kind)?)
}

fn first_step<G: Grid>(alloc: Global, kind: ArcKind, bounds: Bounds) -> Result<Option<Step>, Fail> {
    let p = problem(alloc, kind, bounds)?;
    let part = named(&p, Some(ArcState::Active))?;
    let b = VarBox::<G>::opening(alloc, &p)?;
    if p.arcs().is_empty() {
        return Err(Fail::from("no arc"));
    }
    Ok(best_square(&p, &part, &b, 0))
}

// The rule by which the arc closes the opening box.
fn first_closing<G: Grid>(
    alloc: Global,
    kind: ArcKind,
    bounds: Bounds,
) -> Result<Option<Rule>, Fail> {
    let p = problem(alloc, kind, bounds)?;
    let part = named(&p, Some(ArcState::Active))?;
    let b = VarBox::<G>::opening(alloc, &p)?;
    if p.arcs().is_empty() {
        return Err(Fail::from("no arc"));
    }
    match shut_square(&p, &part, &b, 0) {
        None => Ok(None),
        Some(Closing::At { rule, .. }) => Ok(Some(rule)),
        Some(_) => Err(Fail::from("a closing of another kind")),
    }
}

fn step_of(from: bool, low: bool, rule: Rule, value: i128) -> Option<Step> {
    Some(Step {
        var: Var::Square(if from { 0 } else { 1 }),
        low,
        value,
        rule,
        place: 0,
    })
}

#[test]
fn each_rule_moves_each_of_its_ends(rt: HostRuntime) -> Result<(), Fail> {
    for (kind, bounds, from, low, rule, ones) in MOVES {
        let step = first_step::<Ones>(rt.alloc(), kind, bounds)?;
        assert_eq!(rt; step, step_of(from, low, rule, ones));
    }
    Ok(())
}

// Each value is 16 times as great, since it is whole.
#[test]
fn sixteenths_move_as_ones(rt: HostRuntime) -> Result<(), Fail> {
    for (kind, bounds, from, low, rule, ones) in MOVES {
        let step = first_step::<Sixteenths>(rt.alloc(), kind, bounds)?;
        assert_eq!(rt; step, step_of(from, low, rule, ones.wrapping_mul(16)));
    }
    Ok(())
}

// A drop of 9 from 25 leaves 16, first at the lower end, then at the upper one, and then nothing moves. A valve whose
// state isn't fixed has no law.
#[test]
fn drop_of_nine_moves_both_ends(rt: HostRuntime) -> Result<(), Fail> {
    let lower = first_step::<Ones>(rt.alloc(), PIPE, [3, 3, 5, 5, 0, 9])?;
    assert_eq!(rt; lower, step_of(false, true, Rule::Pipe, 16));
    let upper = first_step::<Ones>(rt.alloc(), PIPE, [3, 3, 5, 5, 4, 9])?;
    assert_eq!(rt; upper, step_of(false, false, Rule::Pipe, 16));
    assert_eq!(rt;
        first_step::<Ones>(rt.alloc(), PIPE, [3, 3, 5, 5, 4, 4])?,
        None
    );
    assert_eq!(rt;
        first_step::<Ones>(rt.alloc(), ArcKind::Valve, [0, 9, 5, 5, 6, 6])?,
        None
    );
    Ok(())
}

// In ones and in sixteenths.
#[test]
fn each_rule_closes_its_boxes(rt: HostRuntime) -> Result<(), Fail> {
    for (kind, bounds, rule) in CLOSINGS {
        assert_eq!(rt; first_closing::<Ones>(rt.alloc(), kind, bounds)?, rule);
        assert_eq!(rt;
            first_closing::<Sixteenths>(rt.alloc(), kind, bounds)?,
            rule
        );
    }
    Ok(())
}

// Sets the upper and then the lower end of the square of a node, where both move inward.
#[tactic(auto, using(gas_model::proofs::BoxFacts::tightened_fits))]
fn narrow<G: Grid>(p: &Problem, b: &mut VarBox<G>, node: u32, to: (i128, i128)) -> Result<(), Fail>
    requires { BoxFits p.now b.old }
    ensures { OnOk result (BoxFits p.now b.new) }
{
    if node as usize >= p.nodes().len() {
        return Err(Fail::from("no such node"));
    }
    let (lo, hi) = b.ends(Var::Square(node));
    if to.1 < lo || hi <= to.1 {
        return Err(Fail::from("other ends"));
    }
    b.tighten(Var::Square(node), false, to.1);
    let (lo, hi) = b.ends(Var::Square(node));
    if to.0 <= lo || hi < to.0 {
        return Err(Fail::from("other ends"));
    }
    b.tighten(Var::Square(node), true, to.0);
    Ok(())
}

// The first step on a square by a loss, where the square at b is known and the one at a is at least 1 unit, and at most
// `most`.
fn step_beside<G: Grid>(
    alloc: Global,
    kind: ArcKind,
    flow: (i64, i64),
    known: i128,
    most: i128,
) -> Result<Option<Step>, Fail> {
    let p = problem(alloc, kind, [flow.0, flow.1, 0, 9, 0, 9])?;
    let part = named(&p, Some(ArcState::Active))?;
    let mut b = VarBox::<G>::opening(alloc, &p)?;
    narrow(&p, &mut b, 0, (1, most))?;
    narrow(&p, &mut b, 1, (known, known))?;
    if p.arcs().is_empty() {
        return Err(Fail::from("no arc"));
    }
    Ok(best_square(&p, &part, &b, 0))
}

// The root of 10 is 3.16, so 2 Pa more are 5.16 and 2 Pa less are 1.16, of which the squares are 26.65 and 1.35; in
// sixteenths 426.39 and 21.61.
#[test]
fn roots_are_rounded_into_the_box(rt: HostRuntime) -> Result<(), Fail> {
    let alloc = rt.alloc();
    let reach = step_beside::<Ones>(alloc, LITTLE_LOSS, (-9, 9), 10, 80)?;
    assert_eq!(rt; reach, step_of(true, false, Rule::Reach, 27));
    let reach = step_beside::<Sixteenths>(alloc, LITTLE_LOSS, (-9, 9), 160, 1280)?;
    assert_eq!(rt; reach, step_of(true, false, Rule::Reach, 427));
    let near = step_beside::<Sixteenths>(alloc, LITTLE_LOSS, (-9, 9), 160, 100)?;
    assert_eq!(rt; near, step_of(true, true, Rule::Reach, 21));
    let apart = step_beside::<Ones>(alloc, GREAT_LOSS, (1, 9), 10, 80)?;
    assert_eq!(rt; apart, step_of(true, true, Rule::Drop, 26));
    let apart = step_beside::<Ones>(alloc, GREAT_LOSS, (-9, -1), 10, 5)?;
    assert_eq!(rt; apart, step_of(true, false, Rule::Drop, 2));
    let apart = step_beside::<Sixteenths>(alloc, GREAT_LOSS, (-9, -1), 160, 100)?;
    assert_eq!(rt; apart, step_of(true, false, Rule::Drop, 22));
    Ok(())
}
