// What is tried in a box that settling leaves open.
ghost use Rattle.std.specs.Prelude.{◌≡◌, pos, ◌≤◌, ◌^◌, MatchOption, IfOk, IfSome};
ghost use Rattle.gas_model.specs.Choices.{PartFits};
ghost use Rattle.gas_model.specs.Near.{IsNear, SettingFits};
ghost use Rattle.box_ends.specs.Empty.{LeavesAll};
ghost use Rattle.probe_point.specs.Points.{IsProbe};
ghost use Rattle.box_pool.specs.Grid.{pool_scale};
ghost use Rattle.box_pool.specs.Pools.{ViewFits, box_of_view};
ghost use Rattle.nom_search.specs.Sought.{IsFar};
ghost use Rattle.nom_search.specs.LastChoices.{AreLast};

use box_pool::BoxView;
use element_laws::first_broken;
use gas_model::{NoMemory, PartState, Problem, Setting};
use probe_point::{Chosen, is_same_part, probe_chosen};
use std::alloc::Global;
use std::rc::Rc;

/// The choices of the probe that was made last, and the part state that they are of. Boxes that come by halves have the
/// part state of the box that they come from.
#[derive(Drop)]
pub struct LastChoices {
    pub part: Rc<PartState>,
    pub chosen: Chosen,
}

// The choices of a probe in a part state, worked out.
fn worked_out(alloc: Global, p: &Problem, part: &Rc<PartState>) -> Result<LastChoices, NoMemory>
    requires { PartFits p.now part.now.value }
    ensures kept { IfOk result (AreLast p.now) }
    ensures part { IfOk result (λ k. k.part.value ≡ part.now.value) }
{
    let chosen = Chosen::of(alloc, p, part)?;
    match part.clone() {
        Ok(part) => Ok(LastChoices { part, chosen }),
        Err(_) => Err(NoMemory),
    }
}

// The choices of a probe in a part state: those that were worked out last where they are of it.
fn choices_in(
    alloc: Global,
    p: &Problem,
    part: &Rc<PartState>,
    last: Option<LastChoices>,
) -> Result<LastChoices, NoMemory>
    requires part { PartFits p.now part.now.value }
    requires last { IfSome last (AreLast p.now) }
    ensures kept { IfOk result (AreLast p.now) }
    ensures part { IfOk result (λ k. k.part.value ≡ part.now.value) }
{
    let Some(kept) = last else {
        return worked_out(alloc, p, part);
    };
    if is_same_part(&kept.part, part) {
        Ok(kept)
    } else {
        worked_out(alloc, p, part)
    }
}

// The probe of a box. The choices that it is made with are kept.
fn probe_of(
    alloc: Global,
    p: &Problem,
    view: &BoxView,
    kept: &mut Option<LastChoices>,
) -> Result<Setting, NoMemory>
    requires fits { ViewFits p.now view.now }
    requires filled { LeavesAll view.now.bounds.value }
    requires kept { IfSome kept.old (AreLast p.now) }
    ensures kept { IfSome kept.new (AreLast p.now) }
    ensures probe { IfOk result (IsProbe pool_scale p.now view.now.part.value view.now.bounds.value) }
    ensures fits { IfOk result (λ s. SettingFits p.now s) }
{
    let now = choices_in(alloc, p, &view.part, kept.take())?;
    let setting = probe_chosen(alloc, p, &now.chosen, &view.bounds)?;
    *kept = Some(now);
    Ok(setting)
}

/// A setting that meets the problem within the tolerance, where one was found in a stable box: so far its probe alone is
/// tried. The choices are kept that it is made with, and those that were kept before serve where they are of the same part
/// state.
pub fn tried(
    alloc: Global,
    p: &Problem,
    view: &BoxView,
    kept: &mut Option<LastChoices>,
    tol: u64,
) -> Result<Option<Setting>, NoMemory>
    requires fits { ViewFits p.now view.now }
    requires filled { LeavesAll view.now.bounds.value }
    requires kept { IfSome kept.old (AreLast p.now) }
    requires tol { tol ≤ 10 ^ 16 }
    ensures kept { IfSome kept.new (AreLast p.now) }
    ensures tried { IfOk result (λ o. MatchOption o (IsFar p.now (pos tol) (box_of_view view.now)) (λ s. IsNear p.now (pos tol) s × SettingFits p.now s)) }
{
    let setting = probe_of(alloc, p, view, kept)?;
    match first_broken(p, &setting, i128::from(tol)) {
        None => Ok(Some(setting)),
        Some(_) => Ok(None),
    }
}
