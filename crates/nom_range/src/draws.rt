// What a setting draws at a node.
ghost use Rattle.std.specs.Prelude.{◌≡◌, ◌<◌, ◌==◌, ◌*◌, ◌^◌, IsTrue, length, neg_ℤ, true, if◌then◌else◌};
ghost use Rattle.std.specs.List.{list_all};
ghost use Rattle.integer_laws.specs.Sizes.{IsWithin};
ghost use Rattle.base_types.specs.Numbers.{is_flow};
ghost use Rattle.gas_model.specs.Points.{net_flow};
ghost use Rattle.gas_model.specs.Near.{number_at};
ghost use Rattle.nom_range.specs.Draws.{draw};

use gas_model::{ArcRow, Problem, Setting};

// The flow of an arc.
fn flow_at(setting: &Setting, arc: usize) -> i64
    requires arc { arc < length setting.now.flows }
    requires limit { list_all is_flow setting.now.flows ≡ true }
    ensures value { result ≡ number_at setting.now.flows arc }
    ensures limit { IsTrue (is_flow result) }
{
    setting.flows.as_slice()[arc]
}

// What an arc at a node takes from it: its flow where it leaves the node, and else, as it enters, that flow negated.
fn taken_from(row: &ArcRow, node: u32, flow: i64) -> i64
    requires { IsTrue (is_flow flow) }
    ensures { result ≡ (if row.now.from == node then flow else neg_ℤ flow) }
{
    if row.from == node { flow } else { -flow }
}

// What leaves a node less what enters it.
fn net_flow(p: &Problem, setting: &Setting, node: u32) -> i64
    requires flows { length setting.now.flows ≡ length p.now.arcs }
    requires limit { list_all is_flow setting.now.flows ≡ true }
    requires node { node < length p.now.nodes }
    ensures value { result ≡ net_flow (number_at setting.now.flows) node p.now.arcs }
    ensures size { IsWithin (2000 * 10 ^ 12) result }
{
    let arcs = p.arcs();
    let at = p.arcs_at(node);
    let mut total: i64 = 0;
    for arc in at {
        let arc = *arc as usize;
        total += taken_from(&arcs[arc], node, flow_at(setting, arc));
    }
    total
}

/// What a setting draws at a node, in l/h: the flows that enter it less those that leave it.
pub fn draw_at(p: &Problem, setting: &Setting, node: u32) -> i64
    requires flows { length setting.now.flows ≡ length p.now.arcs }
    requires limit { list_all is_flow setting.now.flows ≡ true }
    requires node { node < length p.now.nodes }
    ensures { result ≡ draw p.now node setting.now }
{
    let net = net_flow(p, setting, node);
    -net
}
