// Shapes of small networks, worked by hand.
ghost use Rattle.std.specs.Prelude.{◌≡◌, ◌<◌, ℕ, IsTrue, Some, slice_get, length};
ghost use Rattle.gas_model.specs.Choices.{PartFits, has_state};
ghost use Rattle.gas_model.specs.declared.rows.ArcRow.{ArcRow};
ghost use Rattle.base_types.specs.declared.states.ArcState.{ArcState};

use gas_model::{
    ArcKind, ArcRow, ArcState, ArcText, Drag, List, Name, NodeRow, PartState, Problem, Rows, Var,
    has_state,
};
use std::alloc::Global;
use std::test::Fail;
use topo::Shape;

// Nodes and arcs are called by these in their order.
const NAMES: [&str; 6] = ["a", "b", "c", "d", "e", "f"];

const PIPE: ArcKind = ArcKind::Pipe {
    law: Drag {
        lo: 1,
        hi: 1,
        den: 1,
    },
};

const STATION: ArcKind = ArcKind::Station {
    in_min: 0,
    out_max: 9,
    ratio_num: 2,
    ratio_den: 1,
    rise_max: 9,
};

// Arcs by their ends and their state: a pipe has none that is named, a valve is shut, a station is active.
struct Case {
    nodes: usize,
    arcs: &'static [(usize, usize, Option<ArcState>)],
    roots: &'static [u32],
    root_of_last: u32,
    chords: &'static [u32],
    walk: &'static [(u32, u32)],
    at_second: &'static [u32],
    split_list: &'static [Var],
}

fn name(alloc: Global, n: usize) -> Result<Name, Fail> {
    match NAMES.get(n) {
        Some(name) => Ok(Name::of(alloc, name)?),
        None => Err(Fail::from("no such name")),
    }
}

fn nodes_of(alloc: Global, count: usize) -> Result<List<NodeRow>, Fail> {
    let mut nodes = List::new(alloc);
    for n in 0..count {
        nodes.push(NodeRow {
            id: name(alloc, n)?,
            p_min: 0,
            p_max: 9,
            b_min: 0,
            b_max: 0,
        })?;
    }
    Ok(nodes)
}

fn kind_of(state: Option<ArcState>) -> ArcKind {
    match state {
        None => PIPE,
        Some(ArcState::Active) => STATION,
        Some(_) => ArcKind::Valve,
    }
}

fn arcs_of(
    alloc: Global,
    arcs: &[(usize, usize, Option<ArcState>)],
) -> Result<List<ArcText>, Fail> {
    let mut texts = List::new(alloc);
    for (a, (from, to, state)) in arcs.iter().enumerate() {
        texts.push(ArcText {
            id: name(alloc, a)?,
            from: name(alloc, *from)?,
            to: name(alloc, *to)?,
            q_min: -9,
            q_max: 9,
            kind: kind_of(*state),
        })?;
    }
    Ok(texts)
}

fn part_of(alloc: Global, arcs: &[(usize, usize, Option<ArcState>)]) -> Result<PartState, Fail> {
    let mut states = List::new(alloc);
    for (_, _, state) in arcs {
        states.push(*state)?;
    }
    Ok(PartState {
        picks: List::new(alloc),
        states,
    })
}

fn are_states(arcs: &[ArcRow], states: &[Option<ArcState>]) -> bool
    ensures { IsTrue result → (a : ℕ) (row : ArcRow) (state : ArcState) → slice_get arcs.now a ≡ Some row → slice_get states.now a ≡ Some (Some state) → IsTrue (has_state row.kind state) }
{
    if states.len() != arcs.len() {
        return false;
    }
    for (a, row) in arcs.iter().enumerate() {
        if let Some(state) = states[a] {
            if !has_state(&row.kind, state) {
                return false;
            }
        }
    }
    true
}

// Whether a part state without groups is one for the problem.
fn fits(p: &Problem, part: &PartState) -> bool
    ensures { IsTrue result → PartFits p.now part.now }
{
    p.groups().is_empty()
        && part.picks.as_slice().is_empty()
        && part.states.as_slice().len() == p.arcs().len()
        && are_states(p.arcs(), part.states.as_slice())
}

fn problem_of(alloc: Global, case: &Case) -> Result<Problem, Fail> {
    let rows = Rows {
        nodes: nodes_of(alloc, case.nodes)?,
        arcs: arcs_of(alloc, case.arcs)?,
        groups: List::new(alloc),
    };
    Ok(Problem::make(alloc, rows)?)
}

fn lists_are(shape: &Shape, case: &Case) -> bool {
    shape.roots() == case.roots
        && shape.chords() == case.chords
        && shape.walk() == case.walk
        && shape.split_list() == case.split_list
}

// Whether the network has the shape that the case says.
fn is_shaped(alloc: Global, case: &Case) -> Result<bool, Fail> {
    let p = problem_of(alloc, case)?;
    let part = part_of(alloc, case.arcs)?;
    let count = p.nodes().len();
    if count < 2 || !fits(&p, &part) {
        return Err(Fail::from("no part state for the problem"));
    }
    let shape = Shape::of(alloc, &p, &part)?;
    let last = shape.root_of(count as u32 - 1);
    let second = shape.at_node(1);
    Ok(last == case.root_of_last && second == case.at_second && lists_are(&shape, case))
}

// Two pipes beside each other: the later one is the chord.
const PARALLEL: Case = Case {
    nodes: 2,
    arcs: &[(0, 1, None), (0, 1, None)],
    roots: &[0],
    root_of_last: 0,
    chords: &[1],
    walk: &[(0, 0)],
    at_second: &[0, 1],
    split_list: &[Var::Flow(1), Var::Square(0)],
};

// Two pipes with a shut valve between them: the valve is in no walk, and in the list at its ends.
const PARTED: Case = Case {
    nodes: 4,
    arcs: &[(0, 1, None), (1, 2, Some(ArcState::Shut)), (3, 2, None)],
    roots: &[0, 2],
    root_of_last: 2,
    chords: &[],
    walk: &[(0, 0), (2, 2)],
    at_second: &[0, 1],
    split_list: &[Var::Square(0), Var::Square(2)],
};

// A ring of four, whose last arc is the chord, and a node alone. From the first node both neighbours are reached before
// the node behind them.
const RING: Case = Case {
    nodes: 5,
    arcs: &[(0, 1, None), (1, 2, None), (3, 0, None), (2, 3, None)],
    roots: &[0, 4],
    root_of_last: 4,
    chords: &[3],
    walk: &[(0, 0), (2, 0), (1, 1)],
    at_second: &[0, 1],
    split_list: &[Var::Flow(3), Var::Square(0), Var::Square(4)],
};

// Two stations lead to the third node, and one to the root: each square stands once.
const ACTIVE: Case = Case {
    nodes: 3,
    arcs: &[
        (1, 2, Some(ArcState::Active)),
        (0, 2, Some(ArcState::Active)),
        (1, 0, Some(ArcState::Active)),
    ],
    roots: &[0],
    root_of_last: 0,
    chords: &[2],
    walk: &[(1, 0), (0, 2)],
    at_second: &[0, 2],
    split_list: &[Var::Flow(2), Var::Square(0), Var::Square(2)],
};

#[test]
fn shapes_are_those_worked_by_hand(rt: HostRuntime) -> Result<(), Fail> {
    assert!(rt; is_shaped(rt.alloc(), &PARALLEL)?, "two parallel pipes");
    assert!(rt; is_shaped(rt.alloc(), &PARTED)?, "two components");
    assert!(rt; is_shaped(rt.alloc(), &RING)?, "a ring and a node alone");
    assert!(rt; is_shaped(rt.alloc(), &ACTIVE)?, "active stations");
    Ok(())
}
