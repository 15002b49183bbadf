// The box of two nodes joined by a pipe, with numbers worked by hand.
ghost use Rattle.std.specs.Prelude.{◌≡◌, length, IfOk};

use crate::problems::{arc, joined};
use box_core::VarBox;
use gas_model::{Problem, Var};
use interval_core::{Grid, Ones, Sixteenths};
use small_problems::{PIPE, loose_node};
use std::alloc::Global;
use std::test::Fail;

const Q0: Var = Var::Flow(0);

const S0: Var = Var::Square(0);

const S1: Var = Var::Square(1);

// A pipe with a flow from -10 to 10 l/h from the node a at 5 Pa to the node b at 0 to 9 Pa.
fn two_nodes(alloc: Global) -> Result<Problem, Fail>
    ensures arcs { IfOk result (λ p. length p.arcs ≡ 1) }
    ensures nodes { IfOk result (λ p. length p.nodes ≡ 2) }
{
    let a = loose_node(alloc, "a", (5, 5), (3, 3))?;
    let b = loose_node(alloc, "b", (0, 9), (-3, -3))?;
    let p = joined(alloc, a, b, arc(alloc, "p", (-10, 10), PIPE)?)?;
    if p.arcs().len() != 1 || p.nodes().len() != 2 {
        return Err(Fail::from("the problem has other rows"));
    }
    Ok(p)
}

fn opened<G: Grid>(alloc: Global) -> Result<VarBox<G>, Fail>
    ensures flows { IfOk result (λ b. length b.flows ≡ 1) }
    ensures squares { IfOk result (λ b. length b.squares ≡ 2) }
{
    let p = two_nodes(alloc)?;
    Ok(VarBox::opening(alloc, &p)?)
}

#[test]
fn opening_has_the_bounds(rt: HostRuntime) -> Result<(), Fail> {
    let b = opened::<Ones>(rt.alloc())?;
    assert_eq!(rt; b.ends(Q0), (-10, 10));
    assert_eq!(rt; b.ends(S0), (25, 25));
    assert_eq!(rt; b.ends(S1), (0, 81));
    assert_eq!(rt; b.first_empty(), None);
    Ok(())
}

#[test]
fn end_past_the_other_leaves_nothing(rt: HostRuntime) -> Result<(), Fail> {
    let mut b = opened::<Ones>(rt.alloc())?;
    let (lo, hi) = b.ends(S0);
    if lo != 25 || hi != 25 {
        return Err(Fail::from("other ends"));
    }
    b.tighten(S0, true, 26);
    assert_eq!(rt; b.ends(S0), (26, 25));
    assert_eq!(rt; b.width(S0), -1);
    assert_eq!(rt; b.first_empty(), Some(S0));
    Ok(())
}

// 16 * 81 is 1296, and 16 * 80 is 1280. What becomes of a copy doesn't touch the box.
#[test]
fn sixteenths_count_sixteen_to_a_unit(rt: HostRuntime) -> Result<(), Fail> {
    let b = opened::<Sixteenths>(rt.alloc())?;
    assert_eq!(rt; b.ends(Q0), (-160, 160));
    assert_eq!(rt; b.ends(S0), (400, 400));
    let mut copy = b.copy()?;
    let (lo, hi) = copy.ends(S1);
    if lo != 0 || hi != 1296 {
        return Err(Fail::from("other ends"));
    }
    copy.tighten(S1, false, 1280);
    assert_eq!(rt; copy.width(S1), 1280);
    assert_eq!(rt; b.width(S1), 1296);
    Ok(())
}
