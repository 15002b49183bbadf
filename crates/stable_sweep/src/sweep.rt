// Settling: one law after the other, until none waits.
ghost use Rattle.std.specs.Prelude.{◌≡◌, ◌<◌, ◌+◌, length, None, IfOk, IfSome, IfNone, IsTrue, MatchOption};
ghost use Rattle.gas_model.specs.Boxes.{ends_of, is_empty, is_in_box, BoxFits};
ghost use Rattle.gas_model.specs.Choices.{PartFits};
ghost use Rattle.box_ends.specs.Empty.{LeavesAll, LeavesNone};
ghost use Rattle.tight_steps.specs.Moves.{part_box};
ghost use Rattle.topo.specs.Shapes.{IsShapeOf};
ghost use Rattle.stable_sweep.specs.Children.{ComesBy, IsHeadOf, LeavesBy, NoneCutsBy};
ghost use Rattle.stable_sweep.specs.Components.{Cuts, Holds};
ghost use Rattle.stable_sweep.specs.Runs.{Extends};
ghost use Rattle.stable_sweep.specs.Settling.{AreSettled, AreSettledBut, Falls, SettledAs};
ghost use Rattle.stable_sweep.specs.Waiting.{IsFew};
ghost use Rattle.stable_sweep.specs.Widths.{total};

use crate::cuts::first_cut;
use crate::law_moves::{first_closing, first_step};
use crate::law_queue::LawQueue;
use crate::waiting::{law_in, put_back};
use crate::waking::wake;
use box_core::VarBox;
use gas_model::{List, NoMemory, PartState, Problem, Var};
use interval_core::Grid;
use std::alloc::Global;
use topo::Shape;
use tree_cert::{Closing, Head, Step};

/// How settling ended: no closing holds, and no step shrinks a width by an eighth; or a closing holds.
#[derive(Debug, Drop)]
pub enum Settled {
    Stable,
    Shut(Closing),
}

// Whether a variable is empty.
fn is_empty<G: Grid>(b: &VarBox<G>, var: Var) -> bool
    requires { IsTrue (is_in_box b.now var) }
    ensures { result ≡ is_empty (ends_of b.now var) }
{
    let (lo, hi) = b.ends(var);
    hi < lo
}

// Makes steps of the law in the slot `current`, until it has no closing and no step.
fn settle_law<G: Grid>(
    p: &Problem,
    state: &PartState,
    b: &mut VarBox<G>,
    queue: &mut LawQueue,
    out: &mut List<Step>,
    current: u32,
) -> Result<Option<Closing>, NoMemory>
    requires part { PartFits p.now state.now }
    requires bounds { BoxFits p.now b.old }
    requires size { queue.old.size ≡ length p.now.nodes + length p.now.arcs }
    requires current { current < queue.old.size }
    requires few { IsFew queue.old }
    requires filled { LeavesAll b.old }
    requires settled { AreSettledBut p.now (part_box G.SCALE state.now b.old) queue.old.held current }
    ensures bounds { BoxFits p.now b.new }
    ensures size { queue.new.size ≡ queue.old.size }
    ensures few { IsFew queue.new }
    ensures extends { Extends p.now (part_box G.SCALE state.now b.old) (part_box G.SCALE state.now b.new) out.old out.new }
    ensures falls { Falls (total b.old) (total b.new) queue.old.held queue.new.held }
    ensures closing { IfOk result (λ r. IfSome r (Holds p.now (part_box G.SCALE state.now b.new))) }
    ensures filled { IfOk result (λ r. IfNone r (LeavesAll b.new)) }
    ensures settled { IfOk result (λ r. IfNone r (AreSettled p.now (part_box G.SCALE state.now b.new) queue.new.held)) }
{
    let law = law_in(p, current);
    'steps: loop {
        if let Some(closing) = first_closing(p, state, b, law) {
            return Ok(Some(closing));
        }
        let Some(step) = first_step(p, state, b, law) else {
            return Ok(None);
        };
        out.push(step)?;
        b.tighten(step.var, step.low, step.value);
        if is_empty(b, step.var) {
            return Ok(Some(Closing::Empty(step.var)));
        }
        put_back(p, state, queue, step.var, current);
    }
}

// A variable that is empty, of those that the head may empty: flows before squares, where there is no head.
fn first_empty<G: Grid>(p: &Problem, b: &VarBox<G>, head: Option<Head>) -> Option<Var>
    requires bounds { BoxFits p.now b.now }
    requires head { IsHeadOf p.now head }
    ensures { MatchOption result (LeavesBy b.now head) (LeavesNone b.now) }
{
    match head {
        None => b.first_empty(),
        Some(Head::Half { var, .. }) if is_empty(b, var) => Some(var),
        Some(_) => None,
    }
}

// The nodes of the first component that can't balance, where the head may cut some off.
fn first_cut_by(
    alloc: Global,
    p: &Problem,
    shape: &Shape,
    state: &PartState,
    head: Option<Head>,
) -> Result<Option<List<u32>>, NoMemory>
    requires { IsShapeOf p.now state.now shape.now }
    ensures { IfOk result (λ r. MatchOption r (NoneCutsBy p.now state.now head) (Cuts p.now state.now)) }
{
    match head {
        Some(Head::Half { .. }) => Ok(None),
        _ => first_cut(alloc, p, shape),
    }
}

// The closing of the box as it is at first: a variable that is empty, or a component that can't balance.
fn first_shut<G: Grid>(
    alloc: Global,
    p: &Problem,
    shape: &Shape,
    state: &PartState,
    b: &VarBox<G>,
    head: Option<Head>,
) -> Result<Option<Closing>, NoMemory>
    requires shape { IsShapeOf p.now state.now shape.now }
    requires bounds { BoxFits p.now b.now }
    requires head { IsHeadOf p.now head }
    ensures none { IfOk result (λ r. IfNone r (LeavesBy b.now head × NoneCutsBy p.now state.now head)) }
    ensures some { IfOk result (λ r. IfSome r (Holds p.now (part_box G.SCALE state.now b.now))) }
{
    if let Some(var) = first_empty(p, b, head) {
        return Ok(Some(Closing::Empty(var)));
    }
    match first_cut_by(alloc, p, shape, state, head)? {
        None => Ok(None),
        Some(nodes) => Ok(Some(Closing::Cut(nodes))),
    }
}

/// Makes the steps that shrink a width by an eighth, one law after the other, until the box is stable or a closing
/// holds: no variable is empty, no closing holds, cuts being tried for whole components alone, and no rule allows a step
/// that shrinks its width by an eighth. `Stable` exactly where the box that is left is so; `Shut` only with a closing
/// that holds at it.
///
/// Variables are looked at first, flows before squares, then components in the order of their roots. Then all laws
/// wait, those of nodes before those of arcs. The front law is closed by its first closing; else its first step is made,
/// each other law that mentions the variable and doesn't wait goes to the back, and the same law is tried again.
///
/// Where the box is the child by `head` of a box that is stable, only what the head may change is looked at: the variable
/// that it halves, the components where it isn't a half, and the laws that it may wake. All other laws have nothing to do
/// at first, so that the steps and the closing are the same.
///
/// The shape is that of the part state, part state and box fit the problem, and the queue has a slot for each node and
/// each arc. Steps are added to `out`, and in each answer, `NoMemory` too, the box is the old one after them.
pub fn settle_child<G: Grid>(
    alloc: Global,
    p: &Problem,
    shape: &Shape,
    state: &PartState,
    b: &mut VarBox<G>,
    head: Option<Head>,
    queue: &mut LawQueue,
    out: &mut List<Step>,
) -> Result<Settled, NoMemory>
    requires shape { IsShapeOf p.now state.now shape.now }
    requires part { PartFits p.now state.now }
    requires bounds { BoxFits p.now b.old }
    requires head { IsHeadOf p.now head }
    requires comes { ComesBy p.now (part_box G.SCALE state.now b.old) head }
    requires size { queue.old.size ≡ length p.now.nodes + length p.now.arcs }
    ensures bounds { BoxFits p.now b.new }
    ensures size { queue.new.size ≡ queue.old.size }
    ensures extends { Extends p.now (part_box G.SCALE state.now b.old) (part_box G.SCALE state.now b.new) out.old out.new }
    ensures settled { IfOk result (SettledAs p.now (part_box G.SCALE state.now b.new)) }
{
    if let Some(closing) = first_shut(alloc, p, shape, state, b, head)? {
        return Ok(Settled::Shut(closing));
    }
    wake(p, state, queue, head);
    'laws: while let Some(current) = queue.take() {
        if let Some(closing) = settle_law(p, state, b, queue, out, current)? {
            return Ok(Settled::Shut(closing));
        }
    }
    Ok(Settled::Stable)
}

/// The same for a box of which nothing is known: all its variables, components and laws are looked at.
pub fn settle<G: Grid>(
    alloc: Global,
    p: &Problem,
    shape: &Shape,
    state: &PartState,
    b: &mut VarBox<G>,
    queue: &mut LawQueue,
    out: &mut List<Step>,
) -> Result<Settled, NoMemory>
    requires shape { IsShapeOf p.now state.now shape.now }
    requires part { PartFits p.now state.now }
    requires bounds { BoxFits p.now b.old }
    requires size { queue.old.size ≡ length p.now.nodes + length p.now.arcs }
    ensures bounds { BoxFits p.now b.new }
    ensures size { queue.new.size ≡ queue.old.size }
    ensures extends { Extends p.now (part_box G.SCALE state.now b.old) (part_box G.SCALE state.now b.new) out.old out.new }
    ensures settled { IfOk result (SettledAs p.now (part_box G.SCALE state.now b.new)) }
{
    settle_child(alloc, p, shape, state, b, None, queue, out)
}
