// Pools of small problems, with boxes and texts worked by hand.
ghost use Rattle.std.specs.Prelude.{◌≡◌, ◌+◌, ◌<◌, ◌^◌, length, IfOk, OnOk};
ghost use Rattle.gas_model.specs.Within.{IsWithin};
ghost use Rattle.tree_pool.specs.Calls.{IsHeld};
ghost use Rattle.box_pool.specs.Pools.{PoolFits, ViewFits};

use box_core::VarBox;
use box_pool::{
    BoxView, Pool, Work, WorkEnd, children_of, forks_are_expected, forks_are_of_the_problem,
};
use box_split::{Fork, branch};
use gas_model::{GroupText, List, NoMemory, Problem, Var};
use small_problems::{PIPE, Pair, arc, decision, group, two_nodes};
use std::alloc::Global;
use std::test::Fail;

// A group of two decisions.
fn two_decisions(alloc: Global) -> Result<GroupText, NoMemory> {
    let (first, second) = (decision(alloc, "d", &[])?, decision(alloc, "e", &[])?);
    group(alloc, "g", first, second)
}

// Two pipes with flows from -10 to 10 l/h, from the node a at 5 Pa to the node b at 4 to 5 Pa, and these groups.
fn two_pipes(alloc: Global, groups: List<GroupText>) -> Result<Problem, Fail>
    ensures arcs { IfOk result (λ p. length p.arcs ≡ 2) }
    ensures within { IfOk result IsWithin }
{
    let of = Pair {
        a: (5, 5),
        b: (4, 5),
        supplies: (1, -1),
    };
    let mut arcs = List::new(alloc);
    arcs.push(arc(alloc, "p", ("a", "b"), (-10, 10), PIPE)?)?;
    arcs.push(arc(alloc, "r", ("a", "b"), (-10, 10), PIPE)?)?;
    let p = two_nodes(alloc, of, arcs, groups)?;
    if p.arcs().len() != 2 {
        return Err(Fail::from("the problem has other arcs"));
    }
    Ok(p)
}

// A pool of the root box alone.
fn begin(alloc: Global, p: &Problem) -> Result<Pool, Fail>
    ensures fits { IfOk result (PoolFits p.now) }
    ensures count { IfOk result (λ pool. length pool.rows ≡ 1) }
{
    Ok(Pool::new(alloc, p)?)
}

// The same pool, by its box.
fn begin_at(alloc: Global, p: &Problem) -> Result<Pool, Fail>
    ensures fits { IfOk result (PoolFits p.now) }
    ensures count { IfOk result (λ pool. length pool.rows ≡ 1) }
{
    let (part, bounds) = (p.fresh()?, VarBox::opening(alloc, p)?);
    Ok(Pool::at(alloc, p, part, bounds)?)
}

// Takes the next box, which has this number.
fn take(pool: &mut Pool, p: &Problem, n: u32) -> Result<(), Fail>
    requires { PoolFits p.now pool.old }
    ensures held { OnOk result (IsHeld pool.new.rows n) }
    ensures id { OnOk result (n < length pool.new.rows) }
    ensures fits { OnOk result (PoolFits p.now pool.new) }
    ensures count { OnOk result (length pool.new.rows ≡ length pool.old.rows) }
{
    let Some(m) = pool.take() else {
        return Err(Fail::from("no box waits"));
    };
    if m != n {
        return Err(Fail::from("another box comes first"));
    }
    Ok(())
}

// The box of this number, which wasn't worked on.
fn look(pool: &Pool, alloc: Global, p: &Problem, n: u32) -> Result<BoxView, Fail>
    requires id { n < length pool.now.rows }
    requires fits { PoolFits p.now pool.now }
    ensures { IfOk result (ViewFits p.now) }
{
    let Some(view) = pool.look(alloc, p, n)? else {
        return Err(Fail::from("the box was worked on"));
    };
    Ok(view)
}

// The turn of a box that wasn't worked on, and the ends of a flow.
fn shown(
    pool: &Pool,
    alloc: Global,
    p: &Problem,
    n: u32,
    arc: u32,
) -> Result<(u32, (i128, i128)), Fail>
    requires id { n < length pool.now.rows }
    requires fits { PoolFits p.now pool.now }
    requires arc { arc < length p.now.arcs }
{
    let view = look(pool, alloc, p, n)?;
    Ok((view.turn, view.bounds.ends(Var::Flow(arc))))
}

// Gives a held box back without steps, split by its fork, which has two children.
fn split(pool: &mut Pool, alloc: Global, p: &Problem, n: u32) -> Result<Fork, Fail>
    requires held { IsHeld pool.old.rows n }
    requires id { n < length pool.old.rows }
    requires fits { PoolFits p.now pool.old }
    requires within { IsWithin p.now }
    requires room { length pool.old.rows + 2 < 2 ^ 32 }
    ensures { OnOk result (PoolFits p.now pool.new) }
{
    let view = look(pool, alloc, p, n)?;
    let fork = branch(p, &view.shape, &view.part, &view.bounds, view.turn);
    forks_are_of_the_problem();
    forks_are_expected();
    let Some(children) = children_of(alloc, p, &view.part, fork)? else {
        return Err(Fail::from("no variable is wide"));
    };
    if children.heads.as_slice().len() != 2 {
        return Err(Fail::from("another count of children"));
    }
    let work = Work {
        steps: List::new(alloc),
        end: WorkEnd::Split(fork),
    };
    pool.give_back(alloc, p, n, work, view)?;
    Ok(fork)
}

const HALVED: &str = "gastree 2
halve q1
half q1 hi 0
open
half q1 lo 0
open
end
";

// The pipe r is the chord. Its flow, of -10 to 10, or -160 to 160 sixteenths, is the first place of the list of variables to
// split, and the square of a the second.
#[test]
fn box_of_two_pipes_is_halved_at_the_chord(rt: HostRuntime) -> Result<(), Fail> {
    let alloc = rt.alloc();
    let p = two_pipes(alloc, List::new(alloc))?;
    let mut pool = begin(alloc, &p)?;
    take(&mut pool, &p, 0)?;
    assert_eq!(rt; shown(&pool, alloc, &p, 0, 1)?, (0, (-160, 160)));
    let halves = Fork::Halve {
        var: Var::Flow(1),
        at: 0,
        next: 1,
    };
    assert_eq!(rt; split(&mut pool, alloc, &p, 0)?, halves);
    take(&mut pool, &p, 1)?;
    assert_eq!(rt; shown(&pool, alloc, &p, 1, 0)?, (1, (-160, 160)));
    assert_eq!(rt; shown(&pool, alloc, &p, 1, 1)?, (1, (-160, 0)));
    assert_eq!(rt; pool.branched(), 1);
    assert_eq!(rt; pool.depth_of(1), 1);
    assert_eq!(rt; pool.line_of(1), 4);
    pool.lose(1);
    assert_eq!(rt; pool.take(), Some(1));
    let text = pool.write(alloc)?;
    assert_eq!(rt; text.as_slice(), HALVED.as_bytes());
    Ok(())
}

// A box that was split is no longer shown.
#[test]
fn decisions_are_picked_in_order(rt: HostRuntime) -> Result<(), Fail> {
    let alloc = rt.alloc();
    let mut groups = List::new(alloc);
    groups.push(two_decisions(alloc)?)?;
    let p = two_pipes(alloc, groups)?;
    let mut pool = begin_at(alloc, &p)?;
    take(&mut pool, &p, 0)?;
    assert_eq!(rt; split(&mut pool, alloc, &p, 0)?, Fork::Group(0));
    take(&mut pool, &p, 1)?;
    let first = look(&pool, alloc, &p, 1)?;
    assert_eq!(rt; first.part.picks.as_slice(), [Some(0)].as_slice());
    take(&mut pool, &p, 2)?;
    let second = look(&pool, alloc, &p, 2)?;
    assert_eq!(rt; second.part.picks.as_slice(), [Some(1)].as_slice());
    assert_eq!(rt; second.turn, 0);
    assert!(rt; pool.look(alloc, &p, 0)?.is_none());
    Ok(())
}
