// Variables that are wide enough to be halved.
ghost use Rattle.std.specs.Prelude.{◌≡◌, ◌<◌, ◌≤◌, length, IfSome, IsTrue};
ghost use Rattle.gas_model.specs.Boxes.{BoxFits, ends_of, is_in_box};
ghost use Rattle.base_types.specs.declared.variables.Var.TheVariants.{Flow, Square};
ghost use Rattle.box_split.specs.Forks.{AreVars, at_turn, first, is_wide};
ghost use Rattle.box_ends.specs.Middle.{middle};

use crate::places::place_at;
use box_core::VarBox;
use gas_model::{Ends, Problem, Var};
use interval_core::Grid;

fn is_wide<G: Grid>(b: &VarBox<G>, var: Var) -> bool
    requires { IsTrue (is_in_box b.now var) }
    ensures { result ≡ is_wide b.now var }
{
    b.width(var) >= 2
}

/// The sum of the ends of a variable, halved and rounded down.
pub fn middle<G: Grid>(b: &VarBox<G>, var: Var) -> i128
    requires { IsTrue (is_in_box b.now var) }
    ensures { result ≡ middle (ends_of b.now var) }
{
    let (lo, hi) = b.ends(var);
    box_ends::middle(Ends { lo, hi })
}

/// How far from the turn the first wide variable of the split list is.
pub fn first_wide_split<G: Grid>(split: &[Var], b: &VarBox<G>, turn: u32) -> Option<usize>
    requires few { length split.now ≤ 6000 }
    requires vars { AreVars b.now split.now }
    ensures value { result ≡ first (λ k. is_wide b.now (at_turn split.now turn k)) (length split.now) }
    ensures within { IfSome result (λ k. k < length split.now) }
{
    for k in 0..split.len() {
        if is_wide(b, split[place_at(split.len(), turn as usize, k)]) {
            return Some(k);
        }
    }
    None
}

/// The first arc whose flow is wide.
pub fn first_wide_flow<G: Grid>(p: &Problem, b: &VarBox<G>) -> Option<u32>
    requires { BoxFits p.now b.now }
    ensures value { result ≡ first (λ a. is_wide b.now (Flow a)) (length p.now.arcs) }
    ensures within { IfSome result (λ a. a < length p.now.arcs) }
{
    for a in 0..p.arcs().len() {
        if is_wide(b, Var::Flow(a as u32)) {
            return Some(a as u32);
        }
    }
    None
}

/// The first node whose square is wide.
pub fn first_wide_square<G: Grid>(p: &Problem, b: &VarBox<G>) -> Option<u32>
    requires { BoxFits p.now b.now }
    ensures value { result ≡ first (λ n. is_wide b.now (Square n)) (length p.now.nodes) }
    ensures within { IfSome result (λ n. n < length p.now.nodes) }
{
    for n in 0..p.nodes().len() {
        if is_wide(b, Var::Square(n as u32)) {
            return Some(n as u32);
        }
    }
    None
}
