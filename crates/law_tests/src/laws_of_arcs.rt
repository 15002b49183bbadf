// Drops, roots, and the laws of two nodes joined by an arc of each kind, with numbers worked by hand.
ghost use Rattle.std.specs.Prelude.{◌≡◌, IsTrue};
ghost use Rattle.std.specs.List.{list_all};
ghost use Rattle.base_types.specs.Numbers.{is_flow, is_square};
ghost use Rattle.gas_model.specs.Choices.{ArePicks};
ghost use Rattle.gas_model.specs.Near.{SettingFits};

use crate::problems::{arc, joined, problem};
use element_laws::{Broken, at_least, at_most, drop_high, drop_low, first_broken};
use gas_model::{
    Allow, ArcKind, ArcState, DecisionText, Drag, Group, GroupText, List, Name, NoMemory, Problem,
    SetText, Setting,
};
use small_problems::{ONE, PIPE, loose_node};
use std::alloc::Global;
use std::test::Fail;

const ONE_TO_TWO: Drag = Drag {
    lo: 1,
    hi: 2,
    den: 1,
};

// Forward 3^2 = 9 and back -9, times the resistance: the greater one bounds the drop below where the flow goes back.
#[test]
fn flow_back_drops_by_the_greater_resistance(rt: HostRuntime) {
    assert_eq!(rt; drop_low(&ONE, 3), 9);
    assert_eq!(rt; drop_low(&ONE, -3), -9);
    assert_eq!(rt; drop_low(&ONE_TO_TWO, -3), -18);
    assert_eq!(rt; drop_high(&ONE_TO_TWO, -3), -9);
    assert_eq!(rt; drop_high(&ONE_TO_TWO, 3), 18);
}

// 5 is 3 and 2: 25 - 9 - 4 = 12, and 12^2 = 144 = 4 * 4 * 9. From 26 it is 13^2 = 169, from 24 it is 11^2 = 121.
// At 12 the excess is -1, whose square doesn't count.
#[test]
fn roots_are_compared_by_squares(rt: HostRuntime) {
    assert!(rt; at_most(25, 9, 2) && at_least(25, 9, 2));
    assert!(rt; !at_most(26, 9, 2) && at_least(26, 9, 2));
    assert!(rt; at_most(24, 9, 2) && !at_least(24, 9, 2));
    assert!(rt; at_most(12, 9, 2) && !at_least(12, 9, 2));
}

// Whether a pick for each group is one of its decisions.
fn are_picks(groups: &[Group], picks: &[u32]) -> bool
    ensures { IsTrue result → ArePicks groups.now picks.now }
{
    if picks.len() != groups.len() {
        return false;
    }
    for (k, group) in groups.iter().enumerate() {
        if picks[k] as usize >= group.decisions.as_slice().len() {
            return false;
        }
    }
    true
}

fn are_flows(flows: &[i64]) -> bool
    ensures { result ≡ list_all is_flow flows.now }
{
    flows
        .iter()
        .all(|q| -1_000_000_000_000 <= *q && *q <= 1_000_000_000_000)
}

fn are_squares(squares: &[i64]) -> bool
    ensures { result ≡ list_all is_square squares.now }
{
    squares
        .iter()
        .all(|s| 0 <= *s && *s <= 10_000_000_000_000_000)
}

// Whether a setting is one for the problem.
fn fits(p: &Problem, s: &Setting) -> bool
    ensures { IsTrue result → SettingFits p.now s.now }
{
    s.states.as_slice().len() == p.arcs().len()
        && s.flows.as_slice().len() == p.arcs().len()
        && s.squares.as_slice().len() == p.nodes().len()
        && are_picks(p.groups(), s.picks.as_slice())
        && are_flows(s.flows.as_slice())
        && are_squares(s.squares.as_slice())
}

// What the setting breaks first.
fn broken(p: &Problem, s: &Setting, tol: i64) -> Result<Option<Broken>, Fail> {
    if !fits(p, s) || tol < 0 || tol > 100 {
        return Err(Fail::from("no setting for the problem"));
    }
    Ok(first_broken(p, s, tol as i128))
}

// Two nodes at 0 to 9 Pa, with supplies from -10 to 10 l/h, joined by an arc of this kind.
fn free_nodes(alloc: Global, kind: ArcKind, groups: List<GroupText>) -> Result<Problem, Fail> {
    let a = loose_node(alloc, "a", (0, 9), (-10, 10))?;
    let b = loose_node(alloc, "b", (0, 9), (-10, 10))?;
    let mut arcs = List::new(alloc);
    arcs.push(arc(alloc, "x", (-10, 10), kind)?)?;
    problem(alloc, a, b, arcs, groups)
}

// The arc in this state with this flow, and the squares of a and b.
fn setting(
    alloc: Global,
    picks: List<u32>,
    state: ArcState,
    flow: i64,
    squares: (i64, i64),
) -> Result<Setting, NoMemory> {
    let mut s = Setting {
        picks,
        states: List::new(alloc),
        flows: List::new(alloc),
        squares: List::new(alloc),
    };
    s.states.push(state)?;
    s.flows.push(flow)?;
    s.squares.push(squares.0)?;
    s.squares.push(squares.1)?;
    Ok(s)
}

// A pipe of resistance 1 from the node a at 5 Pa, which brings in 3 l/h, to the node b at 0 to 9 Pa, which takes them.
fn three_through_a_pipe(
    alloc: Global,
    flow: i64,
    squares: (i64, i64),
    tol: i64,
) -> Result<Option<Broken>, Fail> {
    let a = loose_node(alloc, "a", (5, 5), (3, 3))?;
    let b = loose_node(alloc, "b", (0, 9), (-3, -3))?;
    let p = joined(alloc, a, b, arc(alloc, "x", (-10, 10), PIPE)?)?;
    let s = setting(alloc, List::new(alloc), ArcState::Opened, flow, squares)?;
    broken(&p, &s, tol)
}

// 25 - 16 = 3^2, and 3 leave a and come to b. At 17 the squares drop by 8, which is 9 within a tolerance of 1.
#[test]
fn flow_of_three_drops_nine(rt: HostRuntime) -> Result<(), Fail> {
    let alloc = rt.alloc();
    assert_eq!(rt; three_through_a_pipe(alloc, 3, (25, 16), 0)?, None);
    assert_eq!(rt; three_through_a_pipe(alloc, 3, (25, 17), 1)?, None);
    assert_eq!(rt;
        three_through_a_pipe(alloc, 3, (25, 17), 0)?,
        Some(Broken::Law { arc: 0 })
    );
    Ok(())
}

// A flow of 4 isn't the supply of a, and doesn't drop 9 either. One of 11 is out of its bounds, which come first.
// A square of 24 isn't that of 5 Pa.
#[test]
fn first_of_several_broken_laws_is_named(rt: HostRuntime) -> Result<(), Fail> {
    let alloc = rt.alloc();
    assert_eq!(rt;
        three_through_a_pipe(alloc, 4, (25, 16), 0)?,
        Some(Broken::Balance { node: 0 })
    );
    assert_eq!(rt;
        three_through_a_pipe(alloc, 11, (25, 16), 0)?,
        Some(Broken::FlowBound { arc: 0 })
    );
    assert_eq!(rt;
        three_through_a_pipe(alloc, 3, (24, 15), 0)?,
        Some(Broken::PressureBound { node: 0 })
    );
    Ok(())
}

const RESISTOR: ArcKind = ArcKind::Resist { law: ONE_TO_TWO };

const LOSS: ArcKind = ArcKind::Loss { low: 2, high: 2 };

const CONTROL: ArcKind = ArcKind::Control {
    in_min: 4,
    out_max: 4,
    red_min: 1,
    red_max: 2,
};

const STATION: ArcKind = ArcKind::Station {
    in_min: 4,
    out_max: 7,
    ratio_num: 3,
    ratio_den: 2,
    rise_max: 3,
};

// A station that is bound by its rise alone.
const LIFT: ArcKind = ArcKind::Station {
    in_min: 0,
    out_max: 100_000_000,
    ratio_num: 1_048_576,
    ratio_den: 1,
    rise_max: 2,
};

const CHOICE: Option<Broken> = Some(Broken::Choice { arc: 0 });

const LAW: Option<Broken> = Some(Broken::Law { arc: 0 });

// A kind of arc in a state, its flow, the squares of a and b, the tolerance, and what is broken.
type Case = (ArcKind, ArcState, i64, (i64, i64), i64, Option<Broken>);

// The drop lies from 9 to 18 at a flow of 3, within the tolerance.
const RESISTANCES: [Case; 6] = [
    (RESISTOR, ArcState::Opened, 3, (25, 9), 0, None),
    (RESISTOR, ArcState::Opened, -3, (9, 25), 0, None),
    (RESISTOR, ArcState::Opened, 3, (25, 17), 0, LAW),
    (RESISTOR, ArcState::Opened, 3, (25, 17), 1, None),
    (RESISTOR, ArcState::Opened, 3, (25, 6), 0, LAW),
    (RESISTOR, ArcState::Opened, 3, (25, 6), 1, None),
];

// From 5 to 3 Pa the loss is 2, and the squares 25 and 9 may be off by the tolerance.
const LOSSES: [Case; 10] = [
    (LOSS, ArcState::Opened, 1, (25, 9), 0, None),
    (LOSS, ArcState::Opened, -1, (25, 9), 0, LAW),
    (LOSS, ArcState::Opened, -1, (9, 25), 0, None),
    (LOSS, ArcState::Opened, 1, (24, 9), 1, None),
    (LOSS, ArcState::Opened, 1, (23, 9), 1, LAW),
    (LOSS, ArcState::Opened, 1, (26, 9), 1, None),
    (LOSS, ArcState::Opened, 1, (27, 9), 1, LAW),
    (LOSS, ArcState::Opened, 1, (0, 0), 4, None),
    (LOSS, ArcState::Opened, 0, (25, 24), 0, LAW),
    (LOSS, ArcState::Opened, 0, (25, 24), 1, None),
];

// Equal squares have no tolerance, and shut arcs leave both free.
const SHORTS_AND_VALVES: [Case; 7] = [
    (ArcKind::Short, ArcState::Opened, 3, (25, 25), 0, None),
    (ArcKind::Short, ArcState::Opened, 3, (25, 24), 1, LAW),
    (ArcKind::Valve, ArcState::Opened, 3, (25, 25), 0, None),
    (ArcKind::Valve, ArcState::Opened, 3, (25, 24), 1, LAW),
    (ArcKind::Valve, ArcState::Shut, 0, (81, 0), 0, None),
    (ArcKind::Valve, ArcState::Shut, 3, (81, 0), 0, LAW),
    (ArcKind::Valve, ArcState::Active, 3, (25, 25), 0, CHOICE),
];

// From 5 to 3 Pa it takes 2, and to 4 Pa 1. Below 4 Pa before it, and above 4 Pa after it, it can't be active.
const CONTROLS: [Case; 9] = [
    (CONTROL, ArcState::Active, 3, (25, 9), 0, None),
    (CONTROL, ArcState::Active, 3, (25, 16), 0, None),
    (CONTROL, ArcState::Active, -3, (25, 9), 0, LAW),
    (CONTROL, ArcState::Active, 3, (25, 8), 0, LAW),
    (CONTROL, ArcState::Active, 3, (16, 16), 0, LAW),
    (CONTROL, ArcState::Active, 3, (36, 25), 0, LAW),
    (CONTROL, ArcState::Active, 3, (15, 4), 0, LAW),
    (CONTROL, ArcState::Bypass, -3, (25, 25), 0, None),
    (CONTROL, ArcState::Shut, 0, (81, 0), 0, None),
];

// From 4 to 6 Pa it raises by 2 and to the 3/2-fold: 4 * 36 is 9 * 16. By its rise alone it comes from 4 to 6 Pa, and
// not to 7: 49 - 16 - 4 is 29, and 29^2 is more than 4 * 4 * 16.
const STATIONS: [Case; 10] = [
    (STATION, ArcState::Active, 1, (16, 36), 0, None),
    (STATION, ArcState::Active, -1, (16, 36), 0, LAW),
    (STATION, ArcState::Active, 1, (16, 37), 0, LAW),
    (STATION, ArcState::Active, 1, (36, 16), 0, LAW),
    (STATION, ArcState::Active, 1, (36, 64), 0, LAW),
    (STATION, ArcState::Active, 1, (9, 16), 0, LAW),
    (STATION, ArcState::Bypass, -1, (25, 24), 1, LAW),
    (STATION, ArcState::Opened, 1, (25, 25), 0, CHOICE),
    (LIFT, ArcState::Active, 1, (16, 36), 0, None),
    (LIFT, ArcState::Active, 1, (16, 49), 0, LAW),
];

// Whether each case breaks what it says.
fn are_so(alloc: Global, cases: &[Case]) -> Result<bool, Fail> {
    for (kind, state, flow, squares, tol, says) in cases {
        let p = free_nodes(alloc, *kind, List::new(alloc))?;
        let s = setting(alloc, List::new(alloc), *state, *flow, *squares)?;
        if broken(&p, &s, *tol)? != *says {
            return Ok(false);
        }
    }
    Ok(true)
}

#[test]
fn each_kind_keeps_its_law(rt: HostRuntime) -> Result<(), Fail> {
    let alloc = rt.alloc();
    assert!(rt; are_so(alloc, &RESISTANCES)?);
    assert!(rt; are_so(alloc, &LOSSES)?);
    assert!(rt; are_so(alloc, &SHORTS_AND_VALVES)?);
    assert!(rt; are_so(alloc, &CONTROLS)?);
    assert!(rt; are_so(alloc, &STATIONS)?);
    Ok(())
}

// A group of two decisions, of which the first shuts the arc x, and the second opens it.
fn shut_or_open(alloc: Global) -> Result<GroupText, NoMemory> {
    let mut group = GroupText {
        id: Name::of(alloc, "g")?,
        decisions: List::new(alloc),
    };
    for allow in [Allow::Shut, Allow::Opened] {
        let mut decision = DecisionText {
            id: Name::of(alloc, if allow == Allow::Shut { "s" } else { "o" })?,
            sets: List::new(alloc),
        };
        decision.sets.push(SetText {
            arc: Name::of(alloc, "x")?,
            allow,
        })?;
        group.decisions.push(decision)?;
    }
    Ok(group)
}

// What a valve in this state breaks, which the picked decision shuts or opens, at equal squares and no flow.
fn decided(alloc: Global, pick: u32, state: ArcState) -> Result<Option<Broken>, Fail> {
    let mut groups = List::new(alloc);
    groups.push(shut_or_open(alloc)?)?;
    let p = free_nodes(alloc, ArcKind::Valve, groups)?;
    let mut picks = List::new(alloc);
    picks.push(pick)?;
    let s = setting(alloc, picks, state, 0, (25, 25))?;
    broken(&p, &s, 0)
}

#[test]
fn only_the_picked_decision_binds(rt: HostRuntime) -> Result<(), Fail> {
    let alloc = rt.alloc();
    assert_eq!(rt; decided(alloc, 0, ArcState::Shut)?, None);
    assert_eq!(rt; decided(alloc, 0, ArcState::Opened)?, CHOICE);
    assert_eq!(rt; decided(alloc, 1, ArcState::Opened)?, None);
    assert_eq!(rt; decided(alloc, 1, ArcState::Shut)?, CHOICE);
    Ok(())
}
