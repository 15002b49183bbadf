// Steps and closings by the law of an arc of a problem.
ghost use Rattle.std.specs.Prelude.{◌≡◌, ℤ, false, slice_get, Some, IfSome};
ghost use Rattle.std.specs.Option.{option_map_or};
ghost use Rattle.tree_rules.specs.Rules as spec;
ghost use Rattle.box_rules.specs.ArcLimits.{IsSafeAt};
ghost use Rattle.element_laws.specs.Sizes.{IsSafe};
ghost use Rattle.tree_check.specs.Held.{IsBoxAt};

use crate::lookup::arc_at;
use crate::open_box::OpenBox;
use box_rules::{Aim, fixed_form, form_closing, form_step, sides};
use gas_model::{ArcRow, Problem, Var};
use tree_cert::Rule;
use tree_rules::ArcVar;

// Which variable of an arc it is, if it is one.
fn side_of(arc: u32, row: &ArcRow, var: Var) -> Option<ArcVar>
    ensures side { result ≡ spec.arc_var arc row.now var }
    ensures safe { (C : ℤ) → IsSafe var C → IfSome result (λ side. IsSafeAt side C) }
{
    match var {
        Var::Flow(of) => {
            if of == arc {
                Some(ArcVar::OfFlow)
            } else {
                None
            }
        }
        Var::Square(node) => {
            if node == row.from {
                Some(ArcVar::OfFrom)
            } else if node == row.to {
                Some(ArcVar::OfTo)
            } else {
                None
            }
        }
    }
}

// Whether by a rule of the law of an arc the end of a variable may become this value.
fn row_step(
    p: &Problem,
    b: &OpenBox,
    rule: Rule,
    arc: u32,
    row: &ArcRow,
    var: Var,
    low: bool,
    value: i128,
) -> bool
    requires fits { IsBoxAt p.now b.now }
    requires row { slice_get p.now.arcs arc ≡ Some row.now }
    requires value { IsSafe var value }
    ensures { result ≡ spec.row_step p.now b.now rule arc var low value row.now }
{
    match fixed_form(p, b.part(), arc, row) {
        None => false,
        Some(form) => match side_of(arc, row, var) {
            None => false,
            Some(side) => {
                let e = sides(p, b.bounds(), arc, row);
                form_step(&form, rule, b.scale(), e, Aim { side, low, value })
            }
        },
    }
}

/// Whether by a rule of the law of an arc the end of a variable may become this value, which has the size of its ends.
pub fn law_step(
    p: &Problem,
    b: &OpenBox,
    rule: Rule,
    arc: u32,
    var: Var,
    low: bool,
    value: i128,
) -> bool
    requires fits { IsBoxAt p.now b.now }
    requires value { IsSafe var value }
    ensures { result ≡ spec.law_step p.now b.now rule arc var low value }
{
    match arc_at(p, arc) {
        None => false,
        Some(row) => row_step(p, b, rule, arc, row, var, low, value),
    }
}

// Whether the law of an arc leaves no point of the box, by a rule.
fn row_closing(p: &Problem, b: &OpenBox, rule: Rule, arc: u32, row: &ArcRow) -> bool
    requires fits { IsBoxAt p.now b.now }
    requires row { slice_get p.now.arcs arc ≡ Some row.now }
    ensures { result ≡ spec.row_closing p.now b.now rule arc row.now }
{
    match fixed_form(p, b.part(), arc, row) {
        None => false,
        Some(form) => form_closing(&form, rule, b.scale(), sides(p, b.bounds(), arc, row)),
    }
}

/// Whether the law of an arc leaves no point of the box, by a rule.
pub fn law_closing(p: &Problem, b: &OpenBox, rule: Rule, arc: u32) -> bool
    requires { IsBoxAt p.now b.now }
    ensures { result ≡ option_map_or (spec.row_closing p.now b.now rule arc) (slice_get p.now.arcs arc) false }
{
    match p.arcs().get(arc as usize) {
        None => false,
        Some(row) => row_closing(p, b, rule, arc, row),
    }
}
