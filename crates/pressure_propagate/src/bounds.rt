// Up to where the rules of an arc let an end of a square go, where they move it.
ghost use Rattle.std.specs.Prelude.{◌≡◌, ℤ, IsTrue};
ghost use Rattle.gas_model.specs.BoxLimits.{IsScale};
ghost use Rattle.gas_model.specs.declared.law_forms.LawForm.TheVariants.{Drags, Loses, Reduces, Raises};
ghost use Rattle.gas_model.specs.Laws.{is_pipe_within};
ghost use Rattle.base_types.specs.Numbers.{is_difference, is_ratio_part};
ghost use Rattle.element_laws.specs.Sizes.{is_wide_square};
ghost use Rattle.box_rules.specs.ArcLimits.{IsFormWithin, AreBoxSides};
ghost use Rattle.tree_cert.specs.declared.line.Rule.TheVariants.{Pipe, Fall};
ghost use Rattle.tight_steps.specs.Best.{IsBound};
ghost use Rattle.tight_steps.specs.Moves.{allows, ends_at};
ghost use Rattle.pressure_propagate.specs.SquareRules.{square_at, opposite, inner_bound, BoundsSquare, IsRatioBound};

use crate::root_bounds::{apart_bound, reach_bound};
use box_ends::scaled_square;
use element_laws::{drop_high, drop_low, ratio_square};
use gas_model::{LawForm, PipeLaw};
use gas_units::{ceil_div, floor_div};
use tree_cert::Rule;
use tree_rules::ArcEnds;

// The end of the square at the other end of the arc.
fn opposite(e: ArcEnds, from: bool, low: bool) -> i128
    ensures { result ≡ opposite e from low }
{
    let other = if from { e.v } else { e.u };
    if low { other.lo } else { other.hi }
}

// By the drop along a resistance: the other square and the drop at the least or the greatest flow.
fn drag_bound(law: &PipeLaw, scale: i128, e: ArcEnds, from: bool, low: bool) -> i128
    requires law { IsTrue (is_pipe_within law.now) }
    requires ends { AreBoxSides scale e }
    ensures { IsBound low (ends_at e (square_at from)) (allows Pipe (Drags law.now) scale e (square_at from) low) result }
{
    let part = law.drag.den as i128 * scale;
    if from {
        if low {
            e.v.lo + floor_div(drop_low(&law.drag, e.q.lo), part)
        } else {
            e.v.hi + ceil_div(drop_high(&law.drag, e.q.hi), part)
        }
    } else if low {
        e.u.lo - ceil_div(drop_high(&law.drag, e.q.hi), part)
    } else {
        e.u.hi - floor_div(drop_low(&law.drag, e.q.lo), part)
    }
}

// By a constant loss.
fn loses_bound(
    low_loss: i64,
    high_loss: i64,
    rule: Rule,
    scale: i128,
    e: ArcEnds,
    from: bool,
    low: bool,
) -> i128
    requires within { IsFormWithin (Loses low_loss high_loss) }
    requires ends { AreBoxSides scale e }
    ensures { BoundsSquare (Loses low_loss high_loss) scale e from low rule result }
{
    let other = opposite(e, from, low);
    match rule {
        Rule::Reach => reach_bound(scale, other, high_loss, low),
        Rule::Drop => apart_bound(scale, other, low_loss, low),
        _ => other,
    }
}

// By the least pressure before and the greatest one after an active arc.
fn inner_bound(in_min: i64, out_max: i64, scale: i128, from: bool) -> i128
    requires in_min { IsTrue (is_difference in_min) }
    requires out_max { IsTrue (is_difference out_max) }
    requires scale { IsScale scale }
    ensures { result ≡ inner_bound in_min out_max scale from }
{
    if from {
        scaled_square(scale, in_min)
    } else {
        scaled_square(scale, out_max)
    }
}

// By a control valve: the pressure before it is at least `red_min` Pa above the one after it, and within `red_max` Pa.
fn fall_bound(red_min: i64, red_max: i64, scale: i128, e: ArcEnds, from: bool, low: bool) -> i128
    requires red_min { IsTrue (is_difference red_min) }
    requires red_max { IsTrue (is_difference red_max) }
    requires ends { AreBoxSides scale e }
    ensures { (in_min out_max : ℤ) → BoundsSquare (Reduces in_min out_max red_min red_max) scale e from low Fall result }
{
    let other = opposite(e, from, low);
    if from == low {
        apart_bound(scale, other, red_min, low)
    } else {
        reach_bound(scale, other, red_max, low)
    }
}

fn reduces_bound(
    in_min: i64,
    out_max: i64,
    red_min: i64,
    red_max: i64,
    rule: Rule,
    scale: i128,
    e: ArcEnds,
    from: bool,
    low: bool,
) -> i128
    requires within { IsFormWithin (Reduces in_min out_max red_min red_max) }
    requires ends { AreBoxSides scale e }
    ensures { BoundsSquare (Reduces in_min out_max red_min red_max) scale e from low rule result }
{
    match rule {
        Rule::Fall => fall_bound(red_min, red_max, scale, e, from, low),
        _ => inner_bound(in_min, out_max, scale, from),
    }
}

// By the greatest ratio of a station: at its `from` a lower end, at its `to` an upper one.
fn ratio_bound(num: i64, den: i64, other: i128, low: bool) -> i128
    requires num { IsTrue (is_ratio_part num) }
    requires den { IsTrue (is_ratio_part den) }
    requires other { IsTrue (is_wide_square other) }
    ensures { IsRatioBound num den other low result }
{
    if low {
        floor_div(ratio_square(den, other), ratio_square(num, 1))
    } else {
        ceil_div(ratio_square(num, other), ratio_square(den, 1))
    }
}

// By a station: the pressure doesn't fall, and rises by at most `rise_max` Pa and to its `num / den`-fold.
fn raises_bound(
    in_min: i64,
    out_max: i64,
    num: i64,
    den: i64,
    rise_max: i64,
    rule: Rule,
    scale: i128,
    e: ArcEnds,
    from: bool,
    low: bool,
) -> i128
    requires within { IsFormWithin (Raises in_min out_max num den rise_max) }
    requires ends { AreBoxSides scale e }
    ensures { BoundsSquare (Raises in_min out_max num den rise_max) scale e from low rule result }
{
    let other = opposite(e, from, low);
    match rule {
        Rule::Inner => inner_bound(in_min, out_max, scale, from),
        Rule::Rise => reach_bound(scale, other, rise_max, low),
        Rule::Ratio => ratio_bound(num, den, other, low),
        _ => other,
    }
}

/// Up to where a rule lets an end of a square go, where it moves it.
pub fn square_bound(
    form: &LawForm,
    rule: Rule,
    scale: i128,
    e: ArcEnds,
    from: bool,
    low: bool,
) -> i128
    requires within { IsFormWithin form.now }
    requires ends { AreBoxSides scale e }
    ensures { BoundsSquare form.now scale e from low rule result }
{
    match form {
        LawForm::Drags(law) => drag_bound(law, scale, e, from, low),
        LawForm::Equals => opposite(e, from, low),
        LawForm::Loses { low: least, high } => loses_bound(
            *least, *high, rule, scale, e, from, low,
        ),
        LawForm::Reduces {
            in_min,
            out_max,
            red_min,
            red_max,
        } => reduces_bound(
            *in_min, *out_max, *red_min, *red_max, rule, scale, e, from, low,
        ),
        LawForm::Raises {
            in_min,
            out_max,
            ratio_num,
            ratio_den,
            rise_max,
        } => raises_bound(
            *in_min, *out_max, *ratio_num, *ratio_den, *rise_max, rule, scale, e, from, low,
        ),
        LawForm::Shuts => 0,
        LawForm::Never => 0,
    }
}
