// Rows that make a problem, and rows that don't, with what is fixed by part states.
use gas_model::{
    Allow, ArcKind, ArcState, Bytes, List, ModelFault, Name, NoMemory, NodeRow, PartState, Problem,
    Rows, state_named, state_word,
};
use small_problems::{PIPE, arc, decision, group, node, station};
use std::alloc::Global;
use std::test::Fail;

// The bounds of the supply of a node, where it is there.
fn supply_at(p: &Problem, node: usize) -> Option<(i64, i64)> {
    let row = p.nodes().get(node)?;
    Some((row.b_min, row.b_max))
}

// A node `a` and another, which has this greatest pressure.
fn two_nodes(alloc: Global, second: &str, p_max: i64) -> Result<List<NodeRow>, NoMemory> {
    let mut nodes = List::new(alloc);
    nodes.push(node(alloc, "a", (0, 9), 0)?)?;
    nodes.push(node(alloc, second, (0, p_max), 0)?)?;
    Ok(nodes)
}

// The problem of these nodes and a pipe between nodes of these names.
fn problem(
    alloc: Global,
    nodes: List<NodeRow>,
    from: &str,
    to: &str,
) -> Result<Problem, ModelFault> {
    let mut arcs = List::new(alloc);
    arcs.push(arc(alloc, "p", (from, to), (-10, 10), PIPE)?)?;
    let groups = List::new(alloc);
    Problem::make(
        alloc,
        Rows {
            nodes,
            arcs,
            groups,
        },
    )
}

// What is wrong with such a problem, in a word.
fn offence(
    alloc: Global,
    second: &str,
    p_max: i64,
    from: &str,
    to: &str,
) -> Result<&'static str, NoMemory> {
    let nodes = two_nodes(alloc, second, p_max)?;
    match problem(alloc, nodes, from, to) {
        Err(ModelFault::OverLimit { .. }) => Ok("over limit"),
        Err(ModelFault::TwiceNamed { .. }) => Ok("twice named"),
        Err(ModelFault::NoSuchNode { .. }) => Ok("no such node"),
        Err(ModelFault::SameEnds { .. }) => Ok("same ends"),
        Err(_) => Ok("other"),
        Ok(_) => Ok("none"),
    }
}

// The ends of the first arc, and how many arcs are at node 1.
fn placed(p: &Problem) -> Option<(u32, u32, usize)> {
    let first = p.arcs().first()?;
    if p.nodes().len() < 2 {
        return None;
    }
    Some((first.from, first.to, p.arcs_at(1).len()))
}

#[test]
fn lists_bytes_and_names_grow(rt: HostRuntime) -> Result<(), Fail> {
    let alloc = rt.alloc();
    let mut list: List<u8> = List::filled(alloc, 7, 2)?;
    list.push(8)?;
    list.put(0, 9);
    assert_eq!(rt; list.as_slice(), [9, 7, 8].as_slice());
    let mut bytes = Bytes::new(alloc);
    bytes.push(b'x')?;
    bytes.append(b"yz")?;
    assert_eq!(rt; bytes.as_slice(), b"xyz".as_slice());
    bytes.clear();
    assert_eq!(rt; bytes.len(), 0);
    let mut name = Name::of(alloc, "ab")?;
    name.push_text("c")?;
    assert_eq!(rt; name.copy(alloc)?.as_str(), "abc");
    Ok(())
}

#[test]
fn a_pipe_is_placed_between_its_nodes(rt: HostRuntime) -> Result<(), Fail> {
    let alloc = rt.alloc();
    let p = problem(alloc, two_nodes(alloc, "b", 9)?, "b", "a")?;
    assert_eq!(rt; placed(&p), Some((1, 0, 1)));
    Ok(())
}

#[test]
fn nothing_is_picked_or_named_at_first(rt: HostRuntime) -> Result<(), Fail> {
    let alloc = rt.alloc();
    let p = problem(alloc, two_nodes(alloc, "b", 9)?, "a", "b")?;
    let part = p.fresh()?;
    assert_eq!(rt; part.picks.as_slice().len(), p.groups().len());
    assert_eq!(rt; part.states.as_slice(), [None].as_slice());
    Ok(())
}

#[test]
fn the_first_offence_is_answered(rt: HostRuntime) -> Result<(), Fail> {
    let alloc = rt.alloc();
    assert_eq!(rt; offence(alloc, "b", 100_000_001, "a", "c")?, "over limit");
    assert_eq!(rt; offence(alloc, "a", 9, "a", "c")?, "twice named");
    assert_eq!(rt; offence(alloc, "b", 9, "a", "c")?, "no such node");
    assert_eq!(rt; offence(alloc, "b", 9, "b", "b")?, "same ends");
    Ok(())
}

// Two nodes, a pipe `p`, a valve `v` and a station `c` between them, and a group with these words.
fn decided(alloc: Global, first: (&str, Allow), second: (&str, Allow)) -> Result<Rows, NoMemory> {
    let mut arcs = List::new(alloc);
    for (id, kind) in [("p", PIPE), ("v", ArcKind::Valve), ("c", station(3, 2))] {
        arcs.push(arc(alloc, id, ("a", "b"), (-10, 10), kind)?)?;
    }
    let mut groups = List::new(alloc);
    let d = decision(alloc, "d", &[first])?;
    let e = decision(alloc, "e", &[second])?;
    groups.push(group(alloc, "g", d, e)?)?;
    Ok(Rows {
        nodes: two_nodes(alloc, "b", 9)?,
        arcs,
        groups,
    })
}

// What is wrong with a group of these words, in a word.
fn group_offence(
    alloc: Global,
    first: (&str, Allow),
    second: (&str, Allow),
) -> Result<&'static str, NoMemory> {
    match Problem::make(alloc, decided(alloc, first, second)?) {
        Err(ModelFault::NoSuchArc { .. }) => Ok("no such arc"),
        Err(ModelFault::NotActive { .. }) => Ok("not active"),
        Err(_) => Ok("other"),
        Ok(_) => Ok("none"),
    }
}

// A pipe takes no word, a valve isn't active, and both decisions of a group may speak of one arc.
#[test]
fn a_group_speaks_of_valves_and_stations(rt: HostRuntime) -> Result<(), Fail> {
    let alloc = rt.alloc();
    let shut = ("v", Allow::Shut);
    assert_eq!(rt;
        group_offence(alloc, shut, ("w", Allow::Shut))?,
        "no such arc"
    );
    assert_eq!(rt;
        group_offence(alloc, shut, ("p", Allow::Shut))?,
        "not active"
    );
    assert_eq!(rt; group_offence(alloc, ("v", Allow::On), shut)?, "not active");
    assert_eq!(rt; group_offence(alloc, shut, ("v", Allow::Opened))?, "none");
    Ok(())
}

// What the part state that picks this decision of the only group fixes of the pipe, the valve and the station.
fn fixed(alloc: Global, p: &Problem, pick: u32) -> Result<Option<[Option<ArcState>; 3]>, NoMemory> {
    let groups = p.groups();
    let arcs = p.arcs();
    if groups.len() != 1
        || arcs.len() != 3
        || pick as usize >= groups[0].decisions.as_slice().len()
    {
        return Ok(None);
    }
    let part = PartState {
        picks: List::filled(alloc, Some(pick), 1)?,
        states: List::filled(alloc, None, 3)?,
    };
    Ok(Some([
        p.state_of(&part, 0),
        p.state_of(&part, 1),
        p.state_of(&part, 2),
    ]))
}

// A pipe is always open. The first decision shuts the valve and leaves the station its three states, the second turns
// the station on, which is active or bypass, and leaves the valve its two states.
#[test]
fn a_picked_decision_fixes_the_valve(rt: HostRuntime) -> Result<(), Fail> {
    let alloc = rt.alloc();
    let p = Problem::make(alloc, decided(alloc, ("v", Allow::Shut), ("c", Allow::On))?)?;
    let open = Some(ArcState::Opened);
    assert_eq!(rt;
        fixed(alloc, &p, 0)?,
        Some([open, Some(ArcState::Shut), None])
    );
    assert_eq!(rt; fixed(alloc, &p, 1)?, Some([open, None, None]));
    Ok(())
}

// The supply of a becomes 4 to 5 l/h, and that of b stays 0.
#[test]
fn a_node_gets_another_supply(rt: HostRuntime) -> Result<(), Fail> {
    let alloc = rt.alloc();
    let p = problem(alloc, two_nodes(alloc, "b", 9)?, "a", "b")?;
    if p.nodes().is_empty() {
        return Err(Fail::from("no nodes"));
    }
    let other = p.with_supply(0, 4, 5)?;
    let supplies: [Option<(i64, i64)>; 2] = [0, 1].map(|n| supply_at(&other, n));
    assert_eq!(rt; supplies, [Some((4, 5)), Some((0, 0))]);
    Ok(())
}

#[test]
fn each_state_has_its_word(rt: HostRuntime) -> Result<(), Fail> {
    let named = [
        state_named("bypass"),
        state_named("shut"),
        state_named(state_word(ArcState::Shut)),
    ];
    assert_eq!(rt; named, [Some(ArcState::Bypass), None, Some(ArcState::Shut)]);
    Ok(())
}
