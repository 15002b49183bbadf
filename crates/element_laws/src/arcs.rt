// The laws of arcs within a tolerance.
ghost use Rattle.std.specs.Prelude.{◌≡◌, ◌<◌, IsTrue, length};
ghost use Rattle.base_types.specs.declared.states.ArcState.TheVariants.{Opened, Shut, Active, Bypass};
ghost use Rattle.gas_model.specs.Limits.{is_kind_within};
ghost use Rattle.base_types.specs.Numbers.{is_flow, is_square};
ghost use Rattle.gas_model.specs.Laws.{form_of, nears_form};
ghost use Rattle.gas_model.specs.Near.{SettingFits};
ghost use Rattle.element_laws.specs.Failing.{IsFirstFailing};
ghost use Rattle.element_laws.specs.KeptLaws.{keeps_law};

use crate::active::{flows_down, flows_up, keeps_inner};
use crate::drags::nears_resistance;
use crate::falls::nears_loss;
use crate::numbers::{flow_at, square_at};
use gas_model::{ArcKind, ArcState, Problem, Setting, level};

// Whether the law of an open arc of this kind holds of its flow and of the squares at its ends.
fn nears_opened(kind: &ArcKind, tol: i128, q: i128, u: i128, v: i128) -> bool
    requires kind { IsTrue (is_kind_within kind.now) }
    requires tol { IsTrue (is_square tol) }
    requires flow { IsTrue (is_flow q) }
    requires from { IsTrue (is_square u) }
    requires to { IsTrue (is_square v) }
    ensures { result ≡ nears_form (form_of kind.now Opened) tol q u v }
{
    match kind {
        ArcKind::Pipe { law } | ArcKind::Resist { law } => {
            nears_resistance(&level(law), tol, q, u, v)
        }
        ArcKind::Short | ArcKind::Valve => u == v,
        ArcKind::Loss { low, high } => nears_loss(*low, *high, tol, q, u, v),
        ArcKind::Control { .. } | ArcKind::Station { .. } => false,
    }
}

// Whether the law of a shut arc of this kind holds of its flow.
fn nears_shut(kind: &ArcKind, tol: i128, q: i128, u: i128, v: i128) -> bool
    ensures { result ≡ nears_form (form_of kind.now Shut) tol q u v }
{
    match kind {
        ArcKind::Valve | ArcKind::Control { .. } | ArcKind::Station { .. } => q == 0,
        _ => false,
    }
}

// Whether the law of an active arc of this kind holds of its flow and of the squares at its ends.
fn nears_active(kind: &ArcKind, tol: i128, q: i128, u: i128, v: i128) -> bool
    requires kind { IsTrue (is_kind_within kind.now) }
    requires from { IsTrue (is_square u) }
    requires to { IsTrue (is_square v) }
    ensures { result ≡ nears_form (form_of kind.now Active) tol q u v }
{
    match kind {
        ArcKind::Control {
            in_min,
            out_max,
            red_min,
            red_max,
        } => { flows_down(*red_min, *red_max, q, u, v) && keeps_inner(*in_min, *out_max, u, v) }
        ArcKind::Station {
            in_min,
            out_max,
            ratio_num,
            ratio_den,
            rise_max,
        } => {
            flows_up(*ratio_num, *ratio_den, *rise_max, q, u, v)
                && keeps_inner(*in_min, *out_max, u, v)
        }
        _ => false,
    }
}

// Whether the law of a bypassed arc of this kind holds of the squares at its ends.
fn nears_bypass(kind: &ArcKind, tol: i128, q: i128, u: i128, v: i128) -> bool
    ensures { result ≡ nears_form (form_of kind.now Bypass) tol q u v }
{
    match kind {
        ArcKind::Control { .. } | ArcKind::Station { .. } => u == v,
        _ => false,
    }
}

// Whether the law of an arc of this kind and state holds of its flow and of the squares at its ends.
fn nears_arc(kind: &ArcKind, state: ArcState, tol: i128, q: i128, u: i128, v: i128) -> bool
    requires kind { IsTrue (is_kind_within kind.now) }
    requires tol { IsTrue (is_square tol) }
    requires flow { IsTrue (is_flow q) }
    requires from { IsTrue (is_square u) }
    requires to { IsTrue (is_square v) }
    ensures { result ≡ nears_form (form_of kind.now state) tol q u v }
{
    match state {
        ArcState::Opened => nears_opened(kind, tol, q, u, v),
        ArcState::Shut => nears_shut(kind, tol, q, u, v),
        ArcState::Active => nears_active(kind, tol, q, u, v),
        ArcState::Bypass => nears_bypass(kind, tol, q, u, v),
    }
}

// Whether the law of an arc holds within the tolerance.
fn keeps_law(p: &Problem, setting: &Setting, tol: i128, arc: usize) -> bool
    requires setting { SettingFits p.now setting.now }
    requires tol { IsTrue (is_square tol) }
    requires arc { arc < length p.now.arcs }
    ensures { result ≡ keeps_law p.now tol setting.now arc }
{
    let row = &p.arcs()[arc];
    let q = flow_at(setting, arc);
    let u = square_at(setting, row.from as usize);
    let v = square_at(setting, row.to as usize);
    nears_arc(&row.kind, setting.states.as_slice()[arc], tol, q, u, v)
}

// The first arc whose law doesn't hold within the tolerance.
pub fn first_law(p: &Problem, setting: &Setting, tol: i128) -> Option<u32>
    requires setting { SettingFits p.now setting.now }
    requires tol { IsTrue (is_square tol) }
    ensures { IsFirstFailing (keeps_law p.now tol setting.now) (length p.now.arcs) result }
{
    for arc in 0..p.arcs().len() {
        if !keeps_law(p, setting, tol, arc) {
            return Some(arc as u32);
        }
    }
    None
}
