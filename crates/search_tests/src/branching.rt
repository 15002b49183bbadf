// The branches of one node, with numbers worked by hand.
use box_core::VarBox;
use box_split::{Fork, branch};
use gas_model::Var;
use interval_core::Ones;
use small_problems::single;
use std::alloc::Global;
use std::test::Fail;
use topo::Shape;

// The branch of a node alone with pressures from 0 to so many Pa.
fn branch_of(alloc: Global, p_max: i64, turn: u32) -> Result<Fork, Fail> {
    let p = single(alloc, (0, p_max))?;
    let state = p.fresh()?;
    let shape = Shape::of(alloc, &p, &state)?;
    let b = VarBox::<Ones>::opening(alloc, &p)?;
    Ok(branch(&p, &shape, &state, &b, turn))
}

// From 0 to 81 Pa^2 the middle is 40; from 0 to 1 Pa^2 there is none. A turn that is no place counts as 0.
#[test]
fn square_of_a_root_is_halved_in_the_middle(rt: HostRuntime) -> Result<(), Fail> {
    let halved = Fork::Halve {
        var: Var::Square(0),
        at: 40,
        next: 0,
    };
    assert_eq!(rt; branch_of(rt.alloc(), 9, 0)?, halved);
    assert_eq!(rt; branch_of(rt.alloc(), 9, 7)?, halved);
    assert_eq!(rt; branch_of(rt.alloc(), 1, 0)?, Fork::Least);
    Ok(())
}
