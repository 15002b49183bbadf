// How a box is split.
ghost use Rattle.std.specs.Prelude.{◌≡◌, ◌<◌, ◌≤◌, length, is_none, IsTrue};
ghost use Rattle.gas_model.specs.Boxes.{BoxFits, is_in_box};
ghost use Rattle.gas_model.specs.Choices.{PartFits};
ghost use Rattle.gas_model.specs.Rulings.{pick_in};
ghost use Rattle.gas_model.specs.Within.{IsWithin};
ghost use Rattle.topo.specs.Shapes.{IsShapeOf};
ghost use Rattle.topo.specs.States.{fixed_at};
ghost use Rattle.box_split.specs.Forks.{AreVars, after, at_turn, first, fork_of, halved, round, start};
ghost use Rattle.box_split.specs.Parts.{halving, other_fork};

use crate::places::{after, place_at};
use crate::wide::{first_wide_flow, first_wide_split, first_wide_square, middle};
use box_core::VarBox;
use gas_model::{PartState, Problem, Var};
use interval_core::Grid;
use topo::Shape;

/// How a box is split. Its children are those of the branch in the tree that is written.
#[derive(Clone, Copy, Debug, PartialEq, Eq)]
pub enum Fork {
    /// By the decisions of this group.
    Group(u32),
    /// By the allowed states of this arc.
    Free(u32),
    /// Into two halves of a variable, at `at`, in parts of `1 / G::SCALE` of its unit. The search for the next variable
    /// begins at the place `next` of the split list.
    Halve { var: Var, at: i128, next: u32 },
    /// Not at all: each variable is less than 2 parts wide.
    Least,
}

// The first group that isn't picked.
fn first_open_group(p: &Problem, state: &PartState) -> Option<u32>
    requires { PartFits p.now state.now }
    ensures { result ≡ first (λ k. is_none (pick_in state.now.picks k)) (length p.now.groups) }
{
    let picks = state.picks.as_slice();
    for k in 0..p.groups().len() {
        if picks[k].is_none() {
            return Some(k as u32);
        }
    }
    None
}

// The first arc whose state isn't fixed.
fn first_free_arc(p: &Problem, state: &PartState) -> Option<u32>
    requires { PartFits p.now state.now }
    ensures first { result ≡ first (λ a. is_none (fixed_at p.now state.now a)) (length p.now.arcs) }
    ensures within { IsWithin p.now }
{
    for a in 0..p.arcs().len() {
        if p.state_of(state, a as u32).is_none() {
            return Some(a as u32);
        }
    }
    None
}

// A variable, halved.
fn halved<G: Grid>(b: &VarBox<G>, var: Var, next: u32) -> Fork
    requires { IsTrue (is_in_box b.now var) }
    ensures { result ≡ halved b.now var next }
{
    Fork::Halve {
        var,
        at: middle(b, var),
        next,
    }
}

// By the place of the split list that is this far from the turn.
fn halved_at<G: Grid>(split: &[Var], b: &VarBox<G>, turn: u32, k: usize) -> Fork
    requires k { k < length split.now }
    requires few { length split.now ≤ 6000 }
    requires vars { AreVars b.now split.now }
    ensures { result ≡ halved b.now (at_turn split.now turn k) (after (length split.now) (round (length split.now) (start (length split.now) turn) k)) }
{
    let place = place_at(split.len(), turn as usize, k);
    halved(b, split[place], after(split.len(), place) as u32)
}

// By a variable that isn't in the split list, where all in it are narrow.
fn halved_other<G: Grid>(p: &Problem, b: &VarBox<G>, turn: u32) -> Fork
    requires { BoxFits p.now b.now }
    ensures { result ≡ other_fork p.now b.now turn }
{
    if let Some(arc) = first_wide_flow(p, b) {
        return halved(b, Var::Flow(arc), turn);
    }
    match first_wide_square(p, b) {
        Some(node) => halved(b, Var::Square(node), turn),
        None => Fork::Least,
    }
}

// By a variable.
fn halving<G: Grid>(p: &Problem, split: &[Var], b: &VarBox<G>, turn: u32) -> Fork
    requires fits { BoxFits p.now b.now }
    requires few { length split.now ≤ 6000 }
    requires vars { AreVars b.now split.now }
    ensures { result ≡ halving p.now split.now b.now turn }
{
    match first_wide_split(split, b, turn) {
        Some(k) => halved_at(split, b, turn, k),
        None => halved_other(p, b, turn),
    }
}

/// The branch of a box: the first group that isn't picked; else the first arc whose state isn't fixed; else the first
/// variable at least 2 parts of `1 / G::SCALE` wide, in the split list from the place `turn` on and round once, and then
/// among the others, flows before squares. A variable is halved at the sum of its ends, halved and rounded down. The
/// place after it is its `next`, 0 after the last one; outside the split list, `next` is `turn`. A `turn` that is no
/// place of the list counts as 0. It takes no memory.
pub fn branch<G: Grid>(
    p: &Problem,
    shape: &Shape,
    state: &PartState,
    b: &VarBox<G>,
    turn: u32,
) -> Fork
    requires state { PartFits p.now state.now }
    requires shape { IsShapeOf p.now state.now shape.now }
    requires fits { BoxFits p.now b.now }
    ensures { result ≡ fork_of p.now shape.now.split_list state.now b.now turn }
{
    if let Some(group) = first_open_group(p, state) {
        return Fork::Group(group);
    }
    if let Some(arc) = first_free_arc(p, state) {
        return Fork::Free(arc);
    }
    halving(p, shape.split_list(), b, turn)
}
