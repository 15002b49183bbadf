use gas_model::{Allow, ArcKind, Drag, Problem};
use make_net::{MakeFault, make};
use std::alloc::Global;
use std::test::Fail;

fn sizes(p: &Problem) -> (usize, usize, usize) {
    (p.nodes().len(), p.arcs().len(), p.groups().len())
}

fn made(alloc: Global, count: u32) -> Result<(usize, usize, usize), MakeFault> {
    Ok(sizes(&make(alloc, count)?))
}

#[test]
fn three_nodes_have_a_valve_and_a_pipe(rt: HostRuntime) -> Result<(), Fail> {
    let p = make(rt.alloc(), 3)?;
    let ([n0, n1, _], [v0, p1], [g]) = (p.nodes(), p.arcs(), p.groups()) else {
        return Err("another size")?;
    };
    assert_eq!(rt; (n0.id.as_str(), n0.p_min, n0.p_max), ("n0", 0, 10_000_000));
    assert_eq!(rt; (n0.b_min, n0.b_max, n1.b_min, n1.b_max), (2, 2, -1, -1));
    assert_eq!(rt;
        (v0.id.as_str(), v0.kind, v0.q_min, v0.q_max),
        ("v0", ArcKind::Valve, 0, 3)
    );
    let law = Drag {
        lo: 1,
        hi: 2,
        den: 1,
    };
    assert_eq!(rt;
        (p1.id.as_str(), p1.kind, p1.from, p1.to),
        ("p1", ArcKind::Pipe { law }, 1, 2)
    );
    let [shut, pass] = g.decisions.as_slice() else {
        return Err("two decisions")?;
    };
    assert_eq!(rt;
        (g.id.as_str(), shut.id.as_str(), pass.id.as_str()),
        ("g", "shut", "pass")
    );
    assert_eq!(rt; shut.sets.as_slice(), [(0, Allow::Shut)].as_slice());
    assert_eq!(rt; pass.sets.as_slice(), [(0, Allow::Opened)].as_slice());
    Ok(())
}

#[test]
fn each_number_of_nodes_in_range_makes_a_problem(rt: HostRuntime) {
    assert_eq!(rt; made(rt.alloc(), 0), Err(MakeFault::OutOfRange));
    assert_eq!(rt; made(rt.alloc(), 1), Ok((1, 0, 0)));
    assert_eq!(rt; made(rt.alloc(), 2), Ok((2, 1, 1)));
    assert_eq!(rt; made(rt.alloc(), 2000), Ok((2000, 1999, 1)));
    assert_eq!(rt; made(rt.alloc(), 2001), Err(MakeFault::OutOfRange));
}
