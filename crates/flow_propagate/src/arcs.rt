// The first step of an arc on its flow.
ghost use Rattle.std.specs.Prelude.{◌≡◌, ◌<◌, Some, length, MatchOption};
ghost use Rattle.gas_model.specs.Boxes.{BoxFits};
ghost use Rattle.gas_model.specs.Choices.{PartFits};
ghost use Rattle.box_rules.specs.ArcLimits.{IsFormWithin, IsLawOf, AreBoxSides};
ghost use Rattle.gas_model.specs.declared.rows.PartState.{PartState};
ghost use Rattle.tree_rules.specs.declared.arc_vars.ArcVar.TheVariants.{OfFlow};
ghost use Rattle.tight_steps.specs.Best.{Best, CanShrink, IsBound};
ghost use Rattle.tight_steps.specs.NewEnds.{FirstEnd};
ghost use Rattle.tight_steps.specs.Moves.{allows, is_flow, flow_number, part_box, HasNoMove, IsFirstMove};
ghost use Rattle.tight_steps.specs.declared.law.Law.TheVariants.{AtArc};
ghost use Rattle.flow_propagate.specs.FlowRules.{flow_rule};
ghost use Rattle.tree_cert.specs.declared.line.Rule.{Rule};

use crate::drags::flow_to;
use box_ends::ScaledBox;
use box_rules::{fixed_form, sides};
use gas_model::{LawForm, PartState, Problem, Var};
use tight_steps::{NewEnd, cut, shrinks_by};
use tree_cert::{Rule, Step};
use tree_rules::{ArcEnds, ArcVar};

// The one rule by which the law of an arc moves its flow, if there is one.
fn flow_rule(form: &LawForm) -> Option<Rule>
    ensures { result ≡ flow_rule form.now }
{
    match form {
        LawForm::Drags(_) => Some(Rule::Pipe),
        LawForm::Shuts => Some(Rule::Zero),
        LawForm::Loses { .. } => Some(Rule::Sign),
        LawForm::Reduces { .. } | LawForm::Raises { .. } => Some(Rule::Way),
        LawForm::Equals | LawForm::Never => None,
    }
}

// Up to where that rule lets an end go, where it shrinks the width by an eighth: a resistance up to the flow that drops
// what the squares may, and each other law up to 0.
fn flow_bound(form: &LawForm, scale: i128, e: ArcEnds, low: bool) -> i128
    requires within { IsFormWithin form.now }
    requires ends { AreBoxSides scale e }
    ensures { (rule : Rule) → flow_rule form.now ≡ Some rule
        → CanShrink low e.q (allows rule form.now scale e OfFlow low)
        → IsBound low e.q (allows rule form.now scale e OfFlow low) result }
{
    match form {
        LawForm::Drags(law) => flow_to(law, scale, e, low),
        _ => 0,
    }
}

// The tightest value of an end of the flow by this rule, where it shrinks the width by an eighth.
fn best_value(form: &LawForm, rule: Rule, scale: i128, e: ArcEnds, low: bool) -> Option<i128>
    requires within { IsFormWithin form.now }
    requires rule { flow_rule form.now ≡ Some rule }
    requires ends { AreBoxSides scale e }
    ensures { Best low e.q (allows rule form.now scale e OfFlow low) result }
{
    if !shrinks_by(form, rule, scale, e, ArcVar::OfFlow, low) {
        return None;
    }
    Some(cut(low, e.q, flow_bound(form, scale, e, low)))
}

// The first end of the flow that this rule moves.
fn best_end(form: &LawForm, rule: Rule, scale: i128, e: ArcEnds) -> Option<NewEnd>
    requires within { IsFormWithin form.now }
    requires rule { flow_rule form.now ≡ Some rule }
    requires ends { AreBoxSides scale e }
    ensures { FirstEnd e.q (allows rule form.now scale e OfFlow) result }
{
    if let Some(value) = best_value(form, rule, scale, e, true) {
        return Some(NewEnd { low: true, value });
    }
    let value = best_value(form, rule, scale, e, false)?;
    Some(NewEnd { low: false, value })
}

/// The first step of an arc on its flow by its law, which shrinks its width by an eighth.
pub fn best_by_form(p: &Problem, form: &LawForm, b: &ScaledBox, arc: u32) -> Option<Step>
    requires within { IsFormWithin form.now }
    requires bounds { BoxFits p.now b.now.bounds }
    requires arc { arc < length p.now.arcs }
    ensures { (part : PartState) → IsLawOf p.now part arc form.now → MatchOption result
        (HasNoMove p.now (part_box b.now.scale part b.now.bounds) (AtArc arc) is_flow)
        (IsFirstMove p.now (part_box b.now.scale part b.now.bounds) (AtArc arc) is_flow flow_number) }
{
    let row = &p.arcs()[arc as usize];
    let rule = flow_rule(form)?;
    let end = best_end(form, rule, b.scale(), sides(p, b, arc, row))?;
    Some(Step {
        var: Var::Flow(arc),
        low: end.low,
        value: end.value,
        rule,
        place: arc,
    })
}

/// The first step of an arc on its flow, which shrinks its width by an eighth.
pub fn best_at_arc(p: &Problem, state: &PartState, b: &ScaledBox, arc: u32) -> Option<Step>
    requires part { PartFits p.now state.now }
    requires bounds { BoxFits p.now b.now.bounds }
    requires arc { arc < length p.now.arcs }
    ensures { MatchOption result
        (HasNoMove p.now (part_box b.now.scale state.now b.now.bounds) (AtArc arc) is_flow)
        (IsFirstMove p.now (part_box b.now.scale state.now b.now.bounds) (AtArc arc) is_flow flow_number) }
{
    let form = fixed_form(p, state, arc, &p.arcs()[arc as usize])?;
    best_by_form(p, &form, b, arc)
}
