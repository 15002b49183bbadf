// The bounds of flows and of squared pressures.
ghost use Rattle.std.specs.Prelude.{◌≡◌, ◌<◌, length};
ghost use Rattle.base_types.specs.Numbers.{between};
ghost use Rattle.gas_model.specs.Near.{SettingFits};
ghost use Rattle.element_laws.specs.Failing.{IsFirstFailing};
ghost use Rattle.element_laws.specs.KeptLaws.{keeps_flow_bound, keeps_pressure_bound};

use crate::numbers::{flow_at, square, square_at};
use gas_model::{Problem, Setting};

// Whether a number lies between two, either of which it may be.
pub fn is_between(low: i128, x: i128, high: i128) -> bool
    ensures { result ≡ between low x high }
{
    low <= x && x <= high
}

fn keeps_flow_bound(p: &Problem, setting: &Setting, arc: usize) -> bool
    requires setting { SettingFits p.now setting.now }
    requires arc { arc < length p.now.arcs }
    ensures { result ≡ keeps_flow_bound p.now setting.now arc }
{
    let row = &p.arcs()[arc];
    is_between(row.q_min as i128, flow_at(setting, arc), row.q_max as i128)
}

// The first arc whose flow lies outside its bounds.
pub fn first_flow_bound(p: &Problem, setting: &Setting) -> Option<u32>
    requires { SettingFits p.now setting.now }
    ensures { IsFirstFailing (keeps_flow_bound p.now setting.now) (length p.now.arcs) result }
{
    for arc in 0..p.arcs().len() {
        if !keeps_flow_bound(p, setting, arc) {
            return Some(arc as u32);
        }
    }
    None
}

fn keeps_pressure_bound(p: &Problem, setting: &Setting, node: usize) -> bool
    requires setting { SettingFits p.now setting.now }
    requires node { node < length p.now.nodes }
    ensures { result ≡ keeps_pressure_bound p.now setting.now node }
{
    let row = &p.nodes()[node];
    is_between(
        square(row.p_min),
        square_at(setting, node),
        square(row.p_max),
    )
}

// The first node whose square lies outside the squares of its pressure bounds.
pub fn first_pressure_bound(p: &Problem, setting: &Setting) -> Option<u32>
    requires { SettingFits p.now setting.now }
    ensures { IsFirstFailing (keeps_pressure_bound p.now setting.now) (length p.now.nodes) result }
{
    for node in 0..p.nodes().len() {
        if !keeps_pressure_bound(p, setting, node) {
            return Some(node as u32);
        }
    }
    None
}
