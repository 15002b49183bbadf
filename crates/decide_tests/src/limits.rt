// Problems at the limits of the model: a call returns, and no number overflows.
use decide::decide;
use flat_text::read_flat;
use gas_model::{ArcKind, ArcText, Drag, List, NodeRow, Problem, Rows};
use proposer::propose;
use small_problems::{arc, node};
use std::alloc::Global;
use std::test::Fail;

// Flows of 10^12 l/h, resistances of 2^38 and of 1 / 2^38, and the greatest pressures, ratios and rises.
const GREATEST: &str = "gasflat 1\n\
    node a 0 100000000 1000000000000 1000000000000\n\
    node b 0 100000000 -1000000000000 -1000000000000\n\
    node c 0 100000000 0 0\n\
    pipe x a b -1000000000000 1000000000000 274877906944 274877906944 1\n\
    pipe y a b -1000000000000 1000000000000 1 1 274877906944\n\
    pipe z b c -1000000000000 1000000000000 1 274877906944 1\n\
    pipe u a c -1000000000000 1000000000000 1 1 274877906944\n\
    control k a c -1000000000000 1000000000000 400000000 100000000 400000000 400000000\n\
    station s c b -1000000000000 1000000000000 0 100000000 1048576 1 400000000\n\
    loss l a b -1000000000000 1000000000000 0 400000000\n\
    end\n";

// A resistance between 390 and 410 millionths, and the greatest bounds of a flow.
const PIPE: ArcKind = ArcKind::Pipe {
    law: Drag {
        lo: 390,
        hi: 410,
        den: 1_000_000,
    },
};

const FLOW: (i64, i64) = (-1_000_000_000_000, 1_000_000_000_000);

fn name(alloc: Global, number: u32) -> Result<String, Fail> {
    Ok(format!(in alloc; "n{number}")?)
}

fn end(alloc: Global, number: u32, supply: i64) -> Result<NodeRow, Fail> {
    let id = name(alloc, number)?;
    Ok(node(alloc, id.as_str(), (0, 100_000_000), supply)?)
}

// A source, and sinks that take 10^5 l/h each.
fn ends(alloc: Global, sinks: u32) -> Result<List<NodeRow>, Fail> {
    let mut nodes = List::new(alloc);
    nodes.push(end(alloc, 0, i64::from(sinks) * 100_000)?)?;
    for sink in 0..sinks {
        nodes.push(end(alloc, sink.saturating_add(1), -100_000)?)?;
    }
    Ok(nodes)
}

fn pipe(alloc: Global, number: u32, from: u32, to: u32) -> Result<ArcText, Fail> {
    let id = name(alloc, number)?;
    let from = name(alloc, from)?;
    let to = name(alloc, to)?;
    Ok(arc(alloc, id.as_str(), (from.as_str(), to.as_str()), FLOW, PIPE)?)
}

fn joined(alloc: Global, sinks: u32, arcs: List<ArcText>) -> Result<Problem, Fail> {
    let nodes = ends(alloc, sinks)?;
    let groups = List::new(alloc);
    let rows = Rows {
        nodes,
        arcs,
        groups,
    };
    Ok(Problem::make(alloc, rows)?)
}

// Each sink at the source.
fn star(alloc: Global, sinks: u32) -> Result<Problem, Fail> {
    let mut arcs = List::new(alloc);
    for sink in 0..sinks {
        arcs.push(pipe(alloc, sink, 0, sink.saturating_add(1))?)?;
    }
    joined(alloc, sinks, arcs)
}

// Each sink behind the one before it.
fn chain(alloc: Global, sinks: u32) -> Result<Problem, Fail> {
    let mut arcs = List::new(alloc);
    for sink in 0..sinks {
        arcs.push(pipe(alloc, sink, sink, sink.saturating_add(1))?)?;
    }
    joined(alloc, sinks, arcs)
}

const SIDE: u32 = 32;

// 32 rows of 32 nodes, each joined to the next one in its row and in its column: 1,984 arcs.
fn grid(alloc: Global) -> Result<Problem, Fail> {
    let mut arcs = List::new(alloc);
    for node in 0..SIDE * SIDE {
        if node % SIDE < SIDE - 1 {
            arcs.push(pipe(alloc, node, node, node.saturating_add(1))?)?;
        }
        if node / SIDE < SIDE - 1 {
            let number = node.saturating_add(SIDE * SIDE);
            arcs.push(pipe(alloc, number, node, node.saturating_add(SIDE))?)?;
        }
    }
    joined(alloc, SIDE * SIDE - 1, arcs)
}

#[test]
fn the_greatest_numbers_are_decided(rt: HostRuntime) -> Result<(), Fail> {
    let greatest = read_flat(rt.alloc(), GREATEST.as_bytes())?;
    assert!(rt; propose(rt.alloc(), &greatest, 0).is_ok());
    assert!(rt; decide(rt.alloc(), &greatest, 0, 64).is_ok());
    Ok(())
}

#[test]
fn proposals_end_at_the_limits(rt: HostRuntime) -> Result<(), Fail> {
    let star = star(rt.alloc(), 1_999)?;
    assert!(rt; propose(rt.alloc(), &star, 100_000_000)?.is_some());
    let chain = chain(rt.alloc(), 1_999)?;
    assert!(rt; propose(rt.alloc(), &chain, 100_000_000).is_ok());
    let grid = grid(rt.alloc())?;
    assert!(rt; propose(rt.alloc(), &grid, 100_000_000)?.is_some());
    Ok(())
}
