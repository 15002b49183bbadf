// Steps and closings by the law of an arc.
ghost use Rattle.std.specs.Prelude.{◌≡◌, ℤ, IsTrue};
ghost use Rattle.base_types.specs.Numbers.{is_difference, is_ratio_part};
ghost use Rattle.gas_model.specs.declared.law_forms.LawForm.TheVariants.{Drags, Equals, Shuts, Loses, Reduces, Raises};
ghost use Rattle.tree_rules.specs.ArcRules.{arc_step, arc_closing, keeps_sign};
ghost use Rattle.box_rules.specs.ArcLimits.{IsFormWithin, AreSafeSides, IsSafeAt};
ghost use Rattle.gas_model.specs.BoxLimits.{IsScale};

use crate::arc_rules::{
    along_step, drop_closing, drop_step, equal_step, fall_closing, fall_step, inner_step,
    order_step, pipe_closing, pipe_step, ratio_closing, ratio_step, reach_closing, reach_step,
    rise_closing, rise_step, sign_step, way_step, zero_step,
};
use gas_model::{LawForm, PipeLaw};
use tree_cert::Rule;
use tree_rules::{ArcEnds, ArcVar};

/// An end of a variable of an arc, and the value that it is to have.
#[derive(Clone, Copy, Debug, PartialEq, Eq)]
pub struct Aim {
    pub side: ArcVar,
    pub low: bool,
    pub value: i128,
}

/// Whether the value has the sign of its rule.
pub fn keeps_sign(rule: Rule, value: i128) -> bool
    ensures { result ≡ keeps_sign rule value }
{
    match rule {
        Rule::Fall => 0 <= value,
        Rule::Rise => 0 <= value,
        Rule::Reach => 0 <= value,
        Rule::Drop => 0 <= value,
        _ => true,
    }
}

fn drags_step(law: &PipeLaw, rule: Rule, scale: i128, e: ArcEnds, aim: Aim) -> bool
    requires law { IsFormWithin (Drags law.now) }
    requires scale { IsScale scale }
    requires ends { AreSafeSides e }
    requires value { IsSafeAt aim.side aim.value }
    ensures { result ≡ arc_step rule (Drags law.now) scale e aim.side aim.low aim.value }
{
    match rule {
        Rule::Pipe => pipe_step(law, scale, e, aim.side, aim.low, aim.value),
        _ => false,
    }
}

fn equals_step(rule: Rule, scale: i128, e: ArcEnds, aim: Aim) -> bool
    ensures { result ≡ arc_step rule Equals scale e aim.side aim.low aim.value }
{
    match rule {
        Rule::Equal => equal_step(e, aim.side, aim.low, aim.value),
        _ => false,
    }
}

fn shuts_step(rule: Rule, scale: i128, e: ArcEnds, aim: Aim) -> bool
    ensures { result ≡ arc_step rule Shuts scale e aim.side aim.low aim.value }
{
    match rule {
        Rule::Zero => zero_step(aim.side, aim.low, aim.value),
        _ => false,
    }
}

fn loses_step(low: i64, high: i64, rule: Rule, scale: i128, e: ArcEnds, aim: Aim) -> bool
    requires within { IsFormWithin (Loses low high) }
    requires scale { IsScale scale }
    requires ends { AreSafeSides e }
    requires value { IsSafeAt aim.side aim.value }
    ensures { result ≡ arc_step rule (Loses low high) scale e aim.side aim.low aim.value }
{
    match rule {
        Rule::Sign => sign_step(low, scale, e, aim.side, aim.low, aim.value),
        Rule::Reach => reach_step(high, scale, e, aim.side, aim.low, aim.value),
        Rule::Along => along_step(e, aim.side, aim.low, aim.value),
        Rule::Drop => drop_step(low, scale, e, aim.side, aim.low, aim.value),
        _ => false,
    }
}

fn reduces_step(
    in_min: i64,
    out_max: i64,
    red_min: i64,
    red_max: i64,
    rule: Rule,
    scale: i128,
    e: ArcEnds,
    aim: Aim,
) -> bool
    requires within { IsFormWithin (Reduces in_min out_max red_min red_max) }
    requires scale { IsScale scale }
    requires ends { AreSafeSides e }
    requires value { IsSafeAt aim.side aim.value }
    ensures { result ≡ arc_step rule (Reduces in_min out_max red_min red_max) scale e aim.side aim.low aim.value }
{
    match rule {
        Rule::Way => way_step(aim.side, aim.low, aim.value),
        Rule::Inner => inner_step(in_min, out_max, scale, aim.side, aim.low, aim.value),
        Rule::Fall => fall_step(red_min, red_max, scale, e, aim.side, aim.low, aim.value),
        _ => false,
    }
}

fn raises_step(
    in_min: i64,
    out_max: i64,
    num: i64,
    den: i64,
    rise_max: i64,
    rule: Rule,
    scale: i128,
    e: ArcEnds,
    aim: Aim,
) -> bool
    requires within { IsFormWithin (Raises in_min out_max num den rise_max) }
    requires scale { IsScale scale }
    requires ends { AreSafeSides e }
    requires value { IsSafeAt aim.side aim.value }
    ensures { result ≡ arc_step rule (Raises in_min out_max num den rise_max) scale e aim.side aim.low aim.value }
{
    match rule {
        Rule::Way => way_step(aim.side, aim.low, aim.value),
        Rule::Inner => inner_step(in_min, out_max, scale, aim.side, aim.low, aim.value),
        Rule::Order => order_step(e, aim.side, aim.low, aim.value),
        Rule::Rise => rise_step(rise_max, scale, e, aim.side, aim.low, aim.value),
        Rule::Ratio => ratio_step(num, den, e, aim.side, aim.low, aim.value),
        _ => false,
    }
}

/// Whether a rule of the law of an arc gives an end of a variable a value.
pub fn form_step(form: &LawForm, rule: Rule, scale: i128, e: ArcEnds, aim: Aim) -> bool
    requires within { IsFormWithin form.now }
    requires scale { IsScale scale }
    requires ends { AreSafeSides e }
    requires value { IsSafeAt aim.side aim.value }
    ensures { result ≡ arc_step rule form.now scale e aim.side aim.low aim.value }
{
    match form {
        LawForm::Drags(law) => drags_step(law, rule, scale, e, aim),
        LawForm::Equals => equals_step(rule, scale, e, aim),
        LawForm::Shuts => shuts_step(rule, scale, e, aim),
        LawForm::Loses { low, high } => loses_step(*low, *high, rule, scale, e, aim),
        LawForm::Reduces {
            in_min,
            out_max,
            red_min,
            red_max,
        } => reduces_step(*in_min, *out_max, *red_min, *red_max, rule, scale, e, aim),
        LawForm::Raises {
            in_min,
            out_max,
            ratio_num,
            ratio_den,
            rise_max,
        } => raises_step(
            *in_min, *out_max, *ratio_num, *ratio_den, *rise_max, rule, scale, e, aim,
        ),
        LawForm::Never => false,
    }
}

fn drags_closing(law: &PipeLaw, rule: Rule, scale: i128, e: ArcEnds) -> bool
    requires law { IsFormWithin (Drags law.now) }
    requires scale { IsScale scale }
    requires ends { AreSafeSides e }
    ensures { result ≡ arc_closing rule (Drags law.now) scale e }
{
    match rule {
        Rule::Pipe => pipe_closing(law, scale, e),
        _ => false,
    }
}

fn loses_closing(low: i64, high: i64, rule: Rule, scale: i128, e: ArcEnds) -> bool
    requires within { IsFormWithin (Loses low high) }
    requires scale { IsScale scale }
    requires ends { AreSafeSides e }
    ensures { result ≡ arc_closing rule (Loses low high) scale e }
{
    match rule {
        Rule::Reach => reach_closing(high, scale, e),
        Rule::Drop => drop_closing(low, scale, e),
        _ => false,
    }
}

fn reduces_closing(red_min: i64, red_max: i64, rule: Rule, scale: i128, e: ArcEnds) -> bool
    requires red_min { IsTrue (is_difference red_min) }
    requires red_max { IsTrue (is_difference red_max) }
    requires scale { IsScale scale }
    requires ends { AreSafeSides e }
    ensures { (in_min out_max : ℤ) → result ≡ arc_closing rule (Reduces in_min out_max red_min red_max) scale e }
{
    match rule {
        Rule::Fall => fall_closing(red_min, red_max, scale, e),
        _ => false,
    }
}

fn raises_closing(num: i64, den: i64, rise_max: i64, rule: Rule, scale: i128, e: ArcEnds) -> bool
    requires num { IsTrue (is_ratio_part num) }
    requires den { IsTrue (is_ratio_part den) }
    requires rise_max { IsTrue (is_difference rise_max) }
    requires scale { IsScale scale }
    requires ends { AreSafeSides e }
    ensures { (in_min out_max : ℤ) → result ≡ arc_closing rule (Raises in_min out_max num den rise_max) scale e }
{
    match rule {
        Rule::Rise => rise_closing(rise_max, scale, e),
        Rule::Ratio => ratio_closing(num, den, e),
        _ => false,
    }
}

/// Whether the law of an arc holds nowhere between the ends, by a rule that closes boxes.
pub fn form_closing(form: &LawForm, rule: Rule, scale: i128, e: ArcEnds) -> bool
    requires within { IsFormWithin form.now }
    requires scale { IsScale scale }
    requires ends { AreSafeSides e }
    ensures { result ≡ arc_closing rule form.now scale e }
{
    match form {
        LawForm::Drags(law) => drags_closing(law, rule, scale, e),
        LawForm::Loses { low, high } => loses_closing(*low, *high, rule, scale, e),
        LawForm::Reduces {
            red_min,
            red_max,
            ..
        } => reduces_closing(*red_min, *red_max, rule, scale, e),
        LawForm::Raises {
            ratio_num,
            ratio_den,
            rise_max,
            ..
        } => raises_closing(*ratio_num, *ratio_den, *rise_max, rule, scale, e),
        LawForm::Equals => false,
        LawForm::Shuts => false,
        LawForm::Never => false,
    }
}
