// The first rule by which an arc closes a box.
ghost use Rattle.std.specs.Prelude.{◌≡◌, ◌<◌, MatchOption, IsTrue};
ghost use Rattle.gas_model.specs.BoxLimits.{IsScale};
ghost use Rattle.box_rules.specs.ArcLimits.{IsFormWithin, AreSafeSides};
ghost use Rattle.pressure_propagate.specs.SquareRules.{closing_rules, HasNoClosing, IsFirstClosing};

use box_rules::form_closing;
use gas_model::LawForm;
use tree_cert::Rule;
use tree_rules::ArcEnds;

// The rules by which a law closes boxes, in order.
fn closing_rules(form: &LawForm) -> &'static [Rule]
    ensures { result.now ≡ closing_rules form.now }
{
    match form {
        LawForm::Drags(_) => &[Rule::Pipe],
        LawForm::Loses { .. } => &[Rule::Reach, Rule::Drop],
        LawForm::Reduces { .. } => &[Rule::Fall],
        LawForm::Raises { .. } => &[Rule::Rise, Rule::Ratio],
        LawForm::Equals | LawForm::Shuts | LawForm::Never => &[],
    }
}

/// The first rule by which the law of an arc leaves no point between the ends.
pub fn first_closing(form: &LawForm, scale: i128, e: ArcEnds) -> Option<Rule>
    requires within { IsFormWithin form.now }
    requires scale { IsScale scale }
    requires ends { AreSafeSides e }
    ensures { MatchOption result
        (HasNoClosing form.now scale e)
        (IsFirstClosing form.now scale e) }
{
    for rule in closing_rules(form) {
        let rule = *rule;
        if form_closing(form, rule, scale, e) {
            return Some(rule);
        }
    }
    None
}
