// The choices: a decision for each group, and a state for each arc.
ghost use Rattle.std.specs.Prelude.{◌≡◌, ◌<◌, ◌≤◌, length};
ghost use Rattle.gas_model.specs.Near.{SettingFits};
ghost use Rattle.element_laws.specs.Failing.{IsFirstFailing};
ghost use Rattle.element_laws.specs.KeptLaws.{keeps_choice};

use gas_model::{Problem, Setting};

// Whether an arc is in a state of its kind that the picked decisions allow.
fn keeps_choice(p: &Problem, setting: &Setting, arc: usize) -> bool
    requires setting { SettingFits p.now setting.now }
    requires arc { arc < length p.now.arcs }
    requires few { length p.now.arcs ≤ 2000 }
    ensures { result ≡ keeps_choice p.now setting.now arc }
{
    let state = setting.states.as_slice()[arc];
    p.may_be(setting.picks.as_slice(), arc as u32, state)
}

// The first arc that isn't in a state of its kind that the picked decisions allow.
pub fn first_choice(p: &Problem, setting: &Setting) -> Option<u32>
    requires { SettingFits p.now setting.now }
    ensures { IsFirstFailing (keeps_choice p.now setting.now) (length p.now.arcs) result }
{
    for arc in 0..p.arcs().len() {
        if !keeps_choice(p, setting, arc) {
            return Some(arc as u32);
        }
    }
    None
}
