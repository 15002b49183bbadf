// Whether a rule of the law of an arc shrinks a width by an eighth.
ghost use Rattle.std.specs.Prelude.{◌≡◌};
ghost use Rattle.std.specs.Bool.{MatchBool};
ghost use Rattle.box_rules.specs.ArcLimits.{IsFormWithin, AreBoxSides, AreSafeSides, IsSafeAt};
ghost use Rattle.gas_model.specs.BoxLimits.{IsScale};
ghost use Rattle.tight_steps.specs.Best.{CanShrink, HasNoBest};
ghost use Rattle.tight_steps.specs.Moves.{allows, ends_at};

use crate::best::loosest;
use box_rules::{Aim, form_step, keeps_sign};
use gas_model::{Ends, LawForm};
use tree_cert::Rule;
use tree_rules::{ArcEnds, ArcVar};

/// The ends of one of the variables of an arc.
pub fn own_ends(e: ArcEnds, side: ArcVar) -> Ends
    ensures { result ≡ ends_at e side }
{
    match side {
        ArcVar::OfFlow => e.q,
        ArcVar::OfFrom => e.u,
        ArcVar::OfTo => e.v,
    }
}

// Whether a rule allows a value, which has the sign of the rule.
fn allows(form: &LawForm, rule: Rule, scale: i128, e: ArcEnds, aim: Aim) -> bool
    requires within { IsFormWithin form.now }
    requires scale { IsScale scale }
    requires ends { AreSafeSides e }
    requires value { IsSafeAt aim.side aim.value }
    ensures { result ≡ allows rule form.now scale e aim.side aim.low aim.value }
{
    keeps_sign(rule, aim.value) && form_step(form, rule, scale, e, aim)
}

/// Whether a rule of the law of an arc shrinks the width of a variable by an eighth, at its lower (`low`) or its upper
/// end. A condition that holds for a value holds for each looser one, so the loosest value that shrinks the width
/// tells: no root and no quotient is taken.
pub fn shrinks_by(
    form: &LawForm,
    rule: Rule,
    scale: i128,
    e: ArcEnds,
    side: ArcVar,
    low: bool,
) -> bool
    requires within { IsFormWithin form.now }
    requires ends { AreBoxSides scale e }
    ensures { MatchBool result
        (CanShrink low (ends_at e side) (allows rule form.now scale e side low))
        (HasNoBest low (ends_at e side) (allows rule form.now scale e side low)) }
{
    match loosest(low, own_ends(e, side)) {
        None => false,
        Some(value) => allows(form, rule, scale, e, Aim { side, low, value }),
    }
}
