// The probes of two nodes, with numbers worked by hand.
ghost use Rattle.std.specs.Prelude.{OnOk};
ghost use Rattle.gas_model.specs.Boxes.{BoxFits};

use crate::problems::{arc, problem};
use box_core::VarBox;
use gas_model::{ArcKind, ArcState, ArcText, Drag, List, NoMemory, Problem, Setting, Var};
use interval_core::{Grid, Ones, Sixteenths};
use probe_point::{is_same_part, probe};
use small_problems::loose_node;
use std::alloc::Global;
use std::test::Fail;

// The nodes a and b, with bounds of the pressures and a supply at a which b takes up.
#[derive(Clone, Copy)]
struct Pair {
    a: (i64, i64),
    b: (i64, i64),
    supply: i64,
}

fn pipe(alloc: Global, id: &str, flow: (i64, i64), hi: i64) -> Result<ArcText, NoMemory> {
    let law = Drag { lo: 1, hi, den: 1 };
    arc(alloc, id, flow, ArcKind::Pipe { law })
}

fn paired(alloc: Global, of: Pair, arcs: List<ArcText>) -> Result<Problem, Fail> {
    let taken = of.supply.wrapping_neg();
    let a = loose_node(alloc, "a", of.a, (of.supply, of.supply))?;
    let b = loose_node(alloc, "b", of.b, (taken, taken))?;
    problem(alloc, a, b, arcs, List::new(alloc))
}

// Lowers the upper end of the square of a node.
#[tactic(auto, using(gas_model::proofs::BoxFacts::tightened_fits))]
fn lower<G: Grid>(p: &Problem, b: &mut VarBox<G>, node: u32, value: i128) -> Result<(), Fail>
    requires { BoxFits p.now b.old }
    ensures { OnOk result (BoxFits p.now b.new) }
{
    if node as usize >= p.nodes().len() {
        return Err(Fail::from("no such node"));
    }
    let (lo, hi) = b.ends(Var::Square(node));
    if value < lo || hi <= value {
        return Err(Fail::from("other ends"));
    }
    b.tighten(Var::Square(node), false, value);
    Ok(())
}

// The probe of a box where nothing is chosen yet.
fn probe_in<G: Grid>(alloc: Global, p: &Problem, b: &VarBox<G>) -> Result<Setting, Fail>
    requires { BoxFits p.now b.now }
{
    if b.first_empty().is_some() {
        return Err(Fail::from("an empty variable"));
    }
    let part = p.fresh()?;
    Ok(probe(alloc, p, &part, b)?)
}

// The probe of the box of the bounds, in which the upper ends of both squares are lowered.
fn probe_below<G: Grid>(alloc: Global, p: &Problem, value: i128) -> Result<Setting, Fail> {
    let mut b = VarBox::<G>::opening(alloc, p)?;
    lower(p, &mut b, 0, value)?;
    lower(p, &mut b, 1, value)?;
    probe_in(alloc, p, &b)
}

// At a flow of 3 the square falls from 25 by 13, halfway from 9 to 18, and the box of b has but 9.
#[test]
fn far_square_is_moved_into_its_box(rt: HostRuntime) -> Result<(), Fail> {
    let mut arcs = List::new(rt.alloc());
    arcs.push(pipe(rt.alloc(), "p", (-10, 10), 2)?)?;
    let of = Pair {
        a: (5, 5),
        b: (3, 3),
        supply: 3,
    };
    let p = paired(rt.alloc(), of, arcs)?;
    let b = VarBox::<Ones>::opening(rt.alloc(), &p)?;
    let s = probe_in(rt.alloc(), &p, &b)?;
    assert_eq!(rt; s.flows.as_slice(), &[3i64][..]);
    assert_eq!(rt; s.squares.as_slice(), &[25i64, 9][..]);
    Ok(())
}

// Of two pipes side by side the second is a chord: from 0 to 1 its middle is 0, and the first carries all. From 16 to 20
// the middle is 18, of which 1 is lost. The whole number above 313 sixteenths is 20.
#[test]
fn chord_has_its_middle_and_the_tree_the_rest(rt: HostRuntime) -> Result<(), Fail> {
    let mut arcs = List::new(rt.alloc());
    arcs.push(pipe(rt.alloc(), "p", (0, 1), 1)?)?;
    arcs.push(pipe(rt.alloc(), "r", (0, 1), 1)?)?;
    let of = Pair {
        a: (4, 5),
        b: (4, 5),
        supply: 1,
    };
    let p = paired(rt.alloc(), of, arcs)?;
    let s = probe_below::<Ones>(rt.alloc(), &p, 20)?;
    assert_eq!(rt; s.flows.as_slice(), &[1i64, 0][..]);
    assert_eq!(rt; s.squares.as_slice(), &[18i64, 17][..]);
    let s = probe_below::<Sixteenths>(rt.alloc(), &p, 313)?;
    assert_eq!(rt; s.flows.as_slice(), &[1i64, 0][..]);
    assert_eq!(rt; s.squares.as_slice(), &[18i64, 17][..]);
    Ok(())
}

// Part states of one pipe are the same until one names its state.
#[test]
fn part_states_are_compared_item_by_item(rt: HostRuntime) -> Result<(), Fail> {
    let mut arcs = List::new(rt.alloc());
    arcs.push(pipe(rt.alloc(), "p", (0, 1), 1)?)?;
    let of = Pair {
        a: (4, 5),
        b: (4, 5),
        supply: 1,
    };
    let p = paired(rt.alloc(), of, arcs)?;
    let part = p.fresh()?;
    let mut other = p.fresh()?;
    assert!(rt; is_same_part(&part, &other));
    other.states = List::filled(rt.alloc(), Some(ArcState::Opened), 1)?;
    assert!(rt; !is_same_part(&part, &other));
    Ok(())
}
