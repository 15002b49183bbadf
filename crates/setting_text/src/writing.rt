// A setting as a line of JSON.
ghost use Rattle.std.specs.Prelude.{◌≡◌, ◌<◌, [], ◌∷◌, ◌++◌, Some, Ok, length, IfOk};
ghost use Rattle.serde_json.specs.Data.{string};
ghost use Rattle.serde_json.specs.Read.{read};
ghost use Rattle.serde_json.specs.View.{view};
ghost use Rattle.gas_model.specs.Choices.{ArePicks};
ghost use Rattle.gas_model.specs.Near.{SettingFits};
ghost use Rattle.gas_model.specs.Rows.{IsProblem};
ghost use Rattle.gas_model.specs.Within.{IsWithin};
ghost use Rattle.setting_text.specs.Reading.{setting_of, AreOfKinds, StandsFor};
ghost use Rattle.setting_text.specs.Writing.{decision_id, arc_data, group_data, node_data, arc_entries, entries, list, setting_data, setting_text};

use gas_model::{ArcRow, ArcState, Bytes, Group, NoMemory, NodeRow, Problem, Setting, state_word};
use serde_json::{Map, Value};
use std::alloc::Global;

// A text as a JSON string.
fn text_value(alloc: Global, text: &str) -> Result<Value, NoMemory>
    ensures { IfOk result (λ v. view v ≡ string text.now) }
{
    Ok(Value::String(String::from_str(alloc, text)?))
}

// An arc's id, the word of its state, and its flow.
fn arc_value(alloc: Global, arc: &ArcRow, state: ArcState, flow: i64) -> Result<Value, NoMemory>
    ensures { IfOk result (λ v. view v ≡ arc_data arc.now state flow) }
{
    let mut list = Vec::new(alloc);
    list.push(text_value(alloc, arc.id.as_str())?)?;
    list.push(text_value(alloc, state_word(state))?)?;
    list.push(Value::from(flow))?;
    Ok(Value::Array(list))
}

// The id of the decision at this place in the group.
#[tactic(auto, using(std::proofs::lemmas::Option::slice_get_read))]
fn decision_id(group: &Group, pick: u32) -> &str
    requires { pick < length group.now.decisions }
    ensures { result.now ≡ decision_id group.now pick }
{
    group.decisions.as_slice()[pick as usize].id.as_str()
}

// A group's id, and that of its picked decision.
fn group_value(alloc: Global, group: &Group, pick: u32) -> Result<Value, NoMemory>
    requires { pick < length group.now.decisions }
    ensures { IfOk result (λ v. view v ≡ group_data group.now pick) }
{
    let mut list = Vec::new(alloc);
    list.push(text_value(alloc, group.id.as_str())?)?;
    list.push(text_value(alloc, decision_id(group, pick))?)?;
    Ok(Value::Array(list))
}

// A node's id and its square.
fn node_value(alloc: Global, node: &NodeRow, square: i64) -> Result<Value, NoMemory>
    ensures { IfOk result (λ v. view v ≡ node_data node.now square) }
{
    let mut list = Vec::new(alloc);
    list.push(text_value(alloc, node.id.as_str())?)?;
    list.push(Value::from(square))?;
    Ok(Value::Array(list))
}

// An entry for each arc.
fn arcs_value(
    alloc: Global,
    arcs: &[ArcRow],
    states: &[ArcState],
    flows: &[i64],
) -> Result<Value, NoMemory>
    requires states { length states.now ≡ length arcs.now }
    requires flows { length flows.now ≡ length arcs.now }
    ensures { IfOk result (λ v. view v ≡ list (arc_entries arcs.now states.now flows.now)) }
{
    let mut values = Vec::new(alloc);
    for (i, arc) in arcs.iter().enumerate() {
        values.push(arc_value(alloc, arc, states[i], flows[i])?)?;
    }
    Ok(Value::Array(values))
}

// An entry for each group.
fn groups_value(alloc: Global, groups: &[Group], picks: &[u32]) -> Result<Value, NoMemory>
    requires { ArePicks groups.now picks.now }
    ensures { IfOk result (λ v. view v ≡ list (entries group_data groups.now picks.now)) }
{
    let mut values = Vec::new(alloc);
    for (k, group) in groups.iter().enumerate() {
        values.push(group_value(alloc, group, picks[k])?)?;
    }
    Ok(Value::Array(values))
}

// An entry for each node.
fn nodes_value(alloc: Global, nodes: &[NodeRow], squares: &[i64]) -> Result<Value, NoMemory>
    requires { length squares.now ≡ length nodes.now }
    ensures { IfOk result (λ v. view v ≡ list (entries node_data nodes.now squares.now)) }
{
    let mut values = Vec::new(alloc);
    for (i, node) in nodes.iter().enumerate() {
        values.push(node_value(alloc, node, squares[i])?)?;
    }
    Ok(Value::Array(values))
}

// The three lists under their keys.
fn setting_value(alloc: Global, p: &Problem, s: &Setting) -> Result<Value, NoMemory>
    requires { SettingFits p.now s.now }
    ensures data { IfOk result (λ v. view v ≡ setting_data p.now s.now) }
    ensures problem { IsProblem p.now }
    ensures within { IsWithin p.now }
{
    let arcs = arcs_value(alloc, p.arcs(), s.states.as_slice(), s.flows.as_slice())?;
    let decisions = groups_value(alloc, p.groups(), s.picks.as_slice())?;
    let nodes = nodes_value(alloc, p.nodes(), s.squares.as_slice())?;
    let mut map = Map::new(alloc);
    map.insert(String::from_str(alloc, "arcs")?, arcs)?;
    map.insert(String::from_str(alloc, "decisions")?, decisions)?;
    map.insert(String::from_str(alloc, "nodes")?, nodes)?;
    Ok(Value::Object(map))
}

// The text as a line.
fn line_of(alloc: Global, text: &str) -> Result<Bytes, NoMemory>
    ensures { IfOk result (λ t. t ≡ text.now ++ 10 ∷ []) }
{
    let mut line = Bytes::new(alloc);
    line.append(text.as_bytes())?;
    line.push(b'\n')?;
    Ok(line)
}

/// The one text of a setting of the problem: a line of compact JSON with the keys `arcs`, `decisions` and `nodes`, in
/// this order. Each is a list in the order of the problem: of an arc its id, the word of its state and its flow in
/// l/h; of a group its id and that of the decision picked; of a node its id and its squared pressure in Pa^2.
pub fn write_setting(alloc: Global, p: &Problem, s: &Setting) -> Result<Bytes, NoMemory>
    requires { SettingFits p.now s.now }
    ensures text { IfOk result (λ t. t ≡ setting_text p.now s.now) }
    // serde_json reads it as the setting's data.
    ensures reads { IfOk result (λ t. read t ≡ Some (setting_data p.now s.now)) }
    // It stands for the setting, and so is read back, where each state is one of its arc's kind.
    ensures stands { AreOfKinds p.now.arcs s.now.states → IfOk result (λ t. StandsFor p.now t s.now) }
    ensures read_back { AreOfKinds p.now.arcs s.now.states
        → IfOk result (λ t. setting_of p.now t ≡ Ok s.now) }
{
    let text = setting_value(alloc, p, s)?.to_string(alloc)?;
    line_of(alloc, text.as_str())
}
