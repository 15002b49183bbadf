// The law of an arc: its kind and its state collapse to a form of law.
ghost use Rattle.std.specs.Prelude.{◌≡◌};
ghost use Rattle.gas_model.specs.declared.rows.ArcKind.TheVariants.{Valve};
ghost use Rattle.gas_model.specs.Laws.{form_of};
ghost use Rattle.box_rules.specs.ArcLimits.{opened_form, active_form};

use gas_model::{ArcKind, ArcState, LawForm, level};

// The law of a kind that has one state.
fn opened_form(form: LawForm, state: ArcState) -> LawForm
    ensures { result ≡ opened_form form state }
{
    match state {
        ArcState::Opened => form,
        ArcState::Shut | ArcState::Active | ArcState::Bypass => LawForm::Never,
    }
}

// The law of a kind that may be active, which then is this one.
fn active_form(form: LawForm, state: ArcState) -> LawForm
    ensures { result ≡ active_form form state }
{
    match state {
        ArcState::Active => form,
        ArcState::Bypass => LawForm::Equals,
        ArcState::Shut => LawForm::Shuts,
        ArcState::Opened => LawForm::Never,
    }
}

// The law of a valve.
fn valve_form(state: ArcState) -> LawForm
    ensures { result ≡ form_of Valve state }
{
    match state {
        ArcState::Opened => LawForm::Equals,
        ArcState::Shut => LawForm::Shuts,
        ArcState::Active | ArcState::Bypass => LawForm::Never,
    }
}

/// The law of a kind in a state.
pub fn form_of(kind: &ArcKind, state: ArcState) -> LawForm
    ensures { result ≡ form_of kind.now state }
{
    match kind {
        ArcKind::Pipe { law } | ArcKind::Resist { law } => {
            opened_form(LawForm::Drags(level(law)), state)
        }
        ArcKind::Short => opened_form(LawForm::Equals, state),
        ArcKind::Loss { low, high } => opened_form(
            LawForm::Loses {
                low: *low,
                high: *high,
            },
            state,
        ),
        ArcKind::Valve => valve_form(state),
        ArcKind::Control {
            in_min,
            out_max,
            red_min,
            red_max,
        } => active_form(
            LawForm::Reduces {
                in_min: *in_min,
                out_max: *out_max,
                red_min: *red_min,
                red_max: *red_max,
            },
            state,
        ),
        ArcKind::Station {
            in_min,
            out_max,
            ratio_num,
            ratio_den,
            rise_max,
        } => active_form(
            LawForm::Raises {
                in_min: *in_min,
                out_max: *out_max,
                ratio_num: *ratio_num,
                ratio_den: *ratio_den,
                rise_max: *rise_max,
            },
            state,
        ),
    }
}
