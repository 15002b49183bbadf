// The balances of nodes.
ghost use Rattle.std.specs.Prelude.{◌≡◌, ◌<◌, ◌==◌, IsTrue, length, neg_ℤ, if◌then◌else◌};
ghost use Rattle.base_types.specs.Numbers.{is_flow};
ghost use Rattle.gas_model.specs.Points.{net_flow};
ghost use Rattle.gas_model.specs.Near.{SettingFits, number_at};
ghost use Rattle.element_laws.specs.Failing.{IsFirstFailing};
ghost use Rattle.element_laws.specs.KeptLaws.{keeps_balance};

use crate::bounds::is_between;
use crate::numbers::flow_at;
use gas_model::{ArcRow, Problem, Setting};

// What an arc at a node takes from it: its flow where it leaves the node, and else, as it enters, that flow negated.
fn taken_from(row: &ArcRow, node: u32, flow: i128) -> i128
    requires { IsTrue (is_flow flow) }
    ensures { result ≡ (if row.now.from == node then flow else neg_ℤ flow) }
{
    if row.from == node { flow } else { -flow }
}

// What leaves a node less what enters it.
fn net_flow(p: &Problem, setting: &Setting, node: u32) -> i128
    requires setting { SettingFits p.now setting.now }
    requires node { node < length p.now.nodes }
    ensures { result ≡ net_flow (number_at setting.now.flows) node p.now.arcs }
{
    let arcs = p.arcs();
    let at = p.arcs_at(node);
    let mut total: i128 = 0;
    for arc in at {
        let arc = *arc as usize;
        total += taken_from(&arcs[arc], node, flow_at(setting, arc));
    }
    total
}

fn keeps_balance(p: &Problem, setting: &Setting, node: usize) -> bool
    requires setting { SettingFits p.now setting.now }
    requires node { node < length p.now.nodes }
    ensures { result ≡ keeps_balance p.now setting.now node }
{
    let row = &p.nodes()[node];
    is_between(
        row.b_min as i128,
        net_flow(p, setting, node as u32),
        row.b_max as i128,
    )
}

// The first node at which the flows don't balance.
pub fn first_balance(p: &Problem, setting: &Setting) -> Option<u32>
    requires { SettingFits p.now setting.now }
    ensures { IsFirstFailing (keeps_balance p.now setting.now) (length p.now.nodes) result }
{
    for node in 0..p.nodes().len() {
        if !keeps_balance(p, setting, node) {
            return Some(node as u32);
        }
    }
    None
}
