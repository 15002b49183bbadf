// The numbers of a setting, and the squares of pressures.
ghost use Rattle.std.specs.Prelude.{◌≡◌, ◌<◌, IsTrue, length, true};
ghost use Rattle.std.specs.List.{list_all};
ghost use Rattle.base_types.specs.Numbers.{is_flow, is_square};
ghost use Rattle.gas_model.specs.Curves.{square};
ghost use Rattle.gas_model.specs.Near.{number_at};

use gas_model::Setting;

// The flow of an arc.
pub fn flow_at(setting: &Setting, arc: usize) -> i128
    requires arc { arc < length setting.now.flows }
    requires limit { list_all is_flow setting.now.flows ≡ true }
    ensures value { result ≡ number_at setting.now.flows arc }
    ensures limit { IsTrue (is_flow result) }
{
    setting.flows.as_slice()[arc] as i128
}

// The squared pressure of a node.
pub fn square_at(setting: &Setting, node: usize) -> i128
    requires node { node < length setting.now.squares }
    requires limit { list_all is_square setting.now.squares ≡ true }
    ensures value { result ≡ number_at setting.now.squares node }
    ensures limit { IsTrue (is_square result) }
{
    setting.squares.as_slice()[node] as i128
}

// The square of a pressure.
pub fn square(pressure: i64) -> i128
    ensures { result ≡ square pressure }
{
    let pressure = pressure as i128;
    pressure * pressure
}
