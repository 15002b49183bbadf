// The first rule that moves an end of a square.
ghost use Rattle.std.specs.Prelude.{◌≡◌, MatchOption};
ghost use Rattle.box_rules.specs.ArcLimits.{IsFormWithin, AreBoxSides};
ghost use Rattle.tight_steps.specs.Best.{Best};
ghost use Rattle.tight_steps.specs.Moves.{allows, ends_at};
ghost use Rattle.pressure_propagate.specs.SquareRules.{square_rules, square_at, HasNoRule, IsFirstRule, HasNoRuleEnd, IsFirstRuleEnd};

use crate::bounds::square_bound;
use gas_model::LawForm;
use tight_steps::{cut, own_ends, shrinks_by};
use tree_cert::Rule;
use tree_rules::{ArcEnds, ArcVar};

/// A rule, and the value that it gives.
#[derive(Clone, Copy, Debug, PartialEq, Eq)]
pub struct RuleValue {
    pub rule: Rule,
    pub value: i128,
}

/// The lower (`low`) or the upper end of a square becomes `value`, by a rule.
#[derive(Clone, Copy, Debug, PartialEq, Eq)]
pub struct RuleEnd {
    pub low: bool,
    pub rule: Rule,
    pub value: i128,
}

// The rules by which a law moves squares, in order.
fn square_rules(form: &LawForm) -> &'static [Rule]
    ensures { result.now ≡ square_rules form.now }
{
    match form {
        LawForm::Drags(_) => &[Rule::Pipe],
        LawForm::Equals => &[Rule::Equal],
        LawForm::Loses { .. } => &[Rule::Reach, Rule::Along, Rule::Drop],
        LawForm::Reduces { .. } => &[Rule::Inner, Rule::Fall],
        LawForm::Raises { .. } => &[Rule::Inner, Rule::Order, Rule::Rise, Rule::Ratio],
        LawForm::Shuts | LawForm::Never => &[],
    }
}

// The square at the `from` of an arc, or at its `to`.
fn side_of(from: bool) -> ArcVar
    ensures { result ≡ square_at from }
{
    if from { ArcVar::OfFrom } else { ArcVar::OfTo }
}

// The tightest value of an end of a square by a rule, where it shrinks the width by an eighth.
fn best_value(
    form: &LawForm,
    rule: Rule,
    scale: i128,
    e: ArcEnds,
    from: bool,
    low: bool,
) -> Option<i128>
    requires within { IsFormWithin form.now }
    requires ends { AreBoxSides scale e }
    ensures { Best low (ends_at e (square_at from)) (allows rule form.now scale e (square_at from) low) result }
{
    let side = side_of(from);
    if !shrinks_by(form, rule, scale, e, side, low) {
        return None;
    }
    Some(cut(
        low,
        own_ends(e, side),
        square_bound(form, rule, scale, e, from, low),
    ))
}

// The first rule that moves an end of a square by an eighth of its width, with its tightest value.
fn first_rule(form: &LawForm, scale: i128, e: ArcEnds, from: bool, low: bool) -> Option<RuleValue>
    requires within { IsFormWithin form.now }
    requires ends { AreBoxSides scale e }
    ensures { MatchOption result
        (HasNoRule form.now scale e (square_at from) low)
        (IsFirstRule form.now scale e (square_at from) low) }
{
    for rule in square_rules(form) {
        let rule = *rule;
        if let Some(value) = best_value(form, rule, scale, e, from, low) {
            return Some(RuleValue { rule, value });
        }
    }
    None
}

/// The first end of a square that a rule moves by an eighth of its width, the lower one before the upper one, with the
/// tightest value of the first such rule.
pub fn first_end(form: &LawForm, scale: i128, e: ArcEnds, from: bool) -> Option<RuleEnd>
    requires within { IsFormWithin form.now }
    requires ends { AreBoxSides scale e }
    ensures { MatchOption result
        (HasNoRuleEnd form.now scale e (square_at from))
        (IsFirstRuleEnd form.now scale e (square_at from)) }
{
    if let Some(found) = first_rule(form, scale, e, from, true) {
        return Some(RuleEnd {
            low: true,
            rule: found.rule,
            value: found.value,
        });
    }
    let found = first_rule(form, scale, e, from, false)?;
    Some(RuleEnd {
        low: false,
        rule: found.rule,
        value: found.value,
    })
}
