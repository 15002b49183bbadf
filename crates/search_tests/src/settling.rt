// Two nodes joined by pipes, settled by hand.
use box_core::VarBox;
use gas_model::{List, Problem, Var};
use interval_core::Ones;
use small_problems::{Pair, piped};
use stable_sweep::{LawQueue, Settled, settle, steps_are_few};
use std::alloc::Global;
use std::test::Fail;
use topo::Shape;
use tree_cert::{Closing, Rule, Step};

const Q0: Var = Var::Flow(0);

const Q1: Var = Var::Flow(1);

const S1: Var = Var::Square(1);

// The nodes a at 5 Pa and b between these pressures, with these supplies, and so many pipes from a to b, with flows from
// -10 to 10 l/h.
fn joined(
    alloc: Global,
    b: (i64, i64),
    supplies: (i64, i64),
    pipes: &[&str],
) -> Result<Problem, Fail> {
    let of = Pair {
        a: (5, 5),
        b,
        supplies,
    };
    Ok(piped(alloc, of, (-10, 10), pipes)?)
}

// The steps that settle the opening box, and how it ended.
fn settled(alloc: Global, p: &Problem) -> Result<(List<Step>, Settled), Fail> {
    let part = p.fresh()?;
    let shape = Shape::of(alloc, p, &part)?;
    let mut b = VarBox::<Ones>::opening(alloc, p)?;
    let slots = (p.nodes().len() + p.arcs().len()) as u32;
    let mut queue = LawQueue::new(alloc, slots)?;
    let mut out = List::new(alloc);
    let end = settle(alloc, p, &shape, &part, &mut b, &mut queue, &mut out)?;
    Ok((out, end))
}

fn step(var: Var, low: bool, value: i128, rule: Rule, place: u32) -> Step {
    Step {
        var,
        low,
        value,
        rule,
        place,
    }
}

// Between 25 Pa^2 and at least 16 a flow of 4 has a drop of 16.
#[test]
fn drop_of_nine_cannot_carry_four(rt: HostRuntime) -> Result<(), Fail> {
    let p = joined(rt.alloc(), (4, 9), (4, -4), &["p"])?;
    let (out, end) = settled(rt.alloc(), &p)?;
    assert!(rt;
        out.as_slice()
            == [
                step(Q0, true, 4, Rule::Balance, 0),
                step(Q0, false, 4, Rule::Balance, 0),
            ]
            .as_slice()
    );
    assert!(rt;
        matches!(
            &end,
            Settled::Shut(Closing::At {
                rule: Rule::Pipe,
                place: 0
            })
        )
    );
    Ok(())
}

// Two pipes share a flow of 1, and each has a drop of at most 9.
#[test]
fn box_of_two_pipes_is_stable_after_seven_steps(rt: HostRuntime) -> Result<(), Fail> {
    let p = joined(rt.alloc(), (4, 5), (1, -1), &["p", "r"])?;
    let (out, end) = settled(rt.alloc(), &p)?;
    assert!(rt;
        out.as_slice()
            == [
                step(Q0, true, 0, Rule::Pipe, 0),
                step(Q0, false, 3, Rule::Pipe, 0),
                step(Q1, true, 0, Rule::Pipe, 1),
                step(Q1, false, 3, Rule::Pipe, 1),
                step(Q0, false, 1, Rule::Balance, 0),
                step(Q1, false, 1, Rule::Balance, 0),
                step(S1, true, 24, Rule::Pipe, 0),
            ]
            .as_slice()
    );
    assert!(rt; matches!(&end, Settled::Stable));
    Ok(())
}

// No arc joins the second node, which wants 4 l/h, to the first, which brings in nothing.
#[test]
fn node_alone_that_wants_a_flow_is_cut_off(rt: HostRuntime) -> Result<(), Fail> {
    let p = joined(rt.alloc(), (4, 9), (0, -4), &[])?;
    let (out, end) = settled(rt.alloc(), &p)?;
    assert!(rt; out.as_slice().is_empty());
    let Settled::Shut(Closing::Cut(nodes)) = &end else {
        return Err(Fail::from("no cut"));
    };
    assert!(rt; nodes.as_slice() == [1].as_slice());
    Ok(())
}

// Of 3 laws 2 and 0 wait: 0 comes first. It is put back after its turn, and 1 before its own: 0 comes last.
#[test]
fn law_put_back_after_its_turn_comes_behind_the_round(rt: HostRuntime) -> Result<(), Fail> {
    let mut queue = LawQueue::new(rt.alloc(), 3)?;
    queue.put(2);
    queue.put(0);
    assert_eq!(rt; queue.take(), Some(0));
    queue.put(0);
    queue.put(1);
    assert_eq!(rt; queue.take(), Some(1));
    assert_eq!(rt; queue.take(), Some(2));
    assert_eq!(rt; queue.take(), Some(0));
    assert_eq!(rt; queue.take(), None);
    Ok(())
}

// How often an eighth, and at least one, can be taken from a width until it is below zero. At most 400.
fn slowest_run(at_first: u64) -> u32 {
    let mut width = at_first;
    for count in 0..400 {
        let least = width.div_ceil(8).max(1);
        let Some(left) = width.checked_sub(least) else {
            return count + 1;
        };
        width = left;
    }
    400
}

#[test]
fn slowest_run_from_the_greatest_width_is_of_few_steps(rt: HostRuntime) -> Result<(), Fail> {
    steps_are_few();
    assert_eq!(rt; slowest_run(160_000_000_000_000_000), 287);
    assert_eq!(rt; slowest_run(0), 1);
    Ok(())
}
