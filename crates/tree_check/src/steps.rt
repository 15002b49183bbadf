// The steps that are allowed in a box, and the closings that hold there.
ghost use Rattle.std.specs.Prelude.{◌≡◌, ◌&&◌};
ghost use Rattle.gas_model.specs.Boxes.{is_var, is_empty, ends_of, may_become};
ghost use Rattle.tree_rules.specs.Rules as spec;
ghost use Rattle.element_laws.specs.Sizes.{IsSafe, AreSafe};
ghost use Rattle.tree_check.specs.Held.{IsBoxAt};

use crate::arc_steps::{law_closing, law_step};
use crate::balance::{balance_closing, balance_step};
use crate::cuts::cuts;
use crate::open_box::OpenBox;
use box_rules::keeps_sign;
use gas_model::{Ends, Problem, Var};
use tree_cert::{Closing, Rule, Step};

/// Whether the variable is one of the problem.
pub fn is_var(p: &Problem, var: Var) -> bool
    ensures { result ≡ is_var p.now var }
{
    match var {
        Var::Flow(arc) => (arc as usize) < p.arcs().len(),
        Var::Square(node) => (node as usize) < p.nodes().len(),
    }
}

// Whether an end may become the value: it moves inward, and at most one past the other end.
fn may_become(var: Var, low: bool, value: i128, ends: Ends) -> bool
    requires { AreSafe var ends }
    ensures { result ≡ may_become low value ends }
{
    if low {
        ends.lo < value && value <= ends.hi + 1
    } else {
        ends.lo - 1 <= value && value < ends.hi
    }
}

// Whether the condition of a rule holds for the value of an end.
fn rule_holds(p: &Problem, b: &OpenBox, s: Step) -> bool
    requires fits { IsBoxAt p.now b.now }
    requires value { IsSafe s.var s.value }
    ensures { result ≡ spec.rule_holds p.now b.now s.rule s.place s.var s.low s.value }
{
    match s.rule {
        Rule::Balance => balance_step(p, b, s.place, s.var, s.low, s.value),
        _ => law_step(p, b, s.rule, s.place, s.var, s.low, s.value),
    }
}

/// Whether a step is allowed in the box.
pub fn step_holds(p: &Problem, b: &OpenBox, s: Step) -> bool
    requires { IsBoxAt p.now b.now }
    ensures { result ≡ spec.step_holds p.now b.now s }
{
    if !is_var(p, s.var) {
        return false;
    }
    if !may_become(s.var, s.low, s.value, b.ends(s.var)) || !keeps_sign(s.rule, s.value) {
        return false;
    }
    rule_holds(p, b, s)
}

// Whether a variable has no value left.
fn is_empty(p: &Problem, b: &OpenBox, var: Var) -> bool
    requires { IsBoxAt p.now b.now }
    ensures { result ≡ (is_var p.now var && is_empty (ends_of b.now.bounds var)) }
{
    if !is_var(p, var) {
        return false;
    }
    let ends = b.ends(var);
    ends.hi < ends.lo
}

// Whether a rule at a node or an arc leaves no point of the box.
fn closing_at(p: &Problem, b: &OpenBox, rule: Rule, place: u32) -> bool
    requires { IsBoxAt p.now b.now }
    ensures { result ≡ spec.closing_at p.now b.now rule place }
{
    match rule {
        Rule::Balance => balance_closing(p, b, place),
        _ => law_closing(p, b, rule, place),
    }
}

/// Whether a closing holds in the box.
pub fn closing_holds(p: &Problem, b: &OpenBox, closing: &Closing) -> bool
    requires { IsBoxAt p.now b.now }
    ensures { result ≡ spec.closing_holds p.now b.now closing.now }
{
    match closing {
        Closing::Empty(var) => is_empty(p, b, *var),
        Closing::Cut(nodes) => cuts(p, b, nodes.as_slice()),
        Closing::At { rule, place } => closing_at(p, b, *rule, *place),
    }
}
