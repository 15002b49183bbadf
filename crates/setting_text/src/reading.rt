// A setting from bytes of JSON.
ghost use Rattle.std.specs.Prelude.{◌≡◌, length, map, IfOk};
ghost use Rattle.gas_model.specs.declared.rows.Setting.{Setting};
ghost use Rattle.gas_model.specs.Rows.{IsProblem};
ghost use Rattle.serde_json.specs.View.{view};
ghost use Rattle.setting_text.specs.Reading.{Gives, arc_entry, group_entry, node_entry, read_each, HaveFewDecisions, entry_state, entry_flow, setting_in, setting_of, StandsFor, IsRead};

use crate::entries::{ArcEntry, arc_entry, group_entry, node_entry};
use crate::values::{array_of, is_whole, value_of};
use file_faults::{Key, SettingFault};
use gas_model::{ArcRow, ArcState, Group, List, NoMemory, NodeRow, Problem, Setting};
use serde_json::Value;
use std::alloc::Global;

fn arc_entries(
    alloc: Global,
    arcs: &[ArcRow],
    list: &[Value],
) -> Result<List<ArcEntry>, SettingFault>
    requires { length list.now ≡ length arcs.now }
    ensures { Gives (λ l. l) result (read_each arc_entry arcs.now (map view list.now)) }
{
    let mut entries = List::new(alloc);
    for (i, arc) in arcs.iter().enumerate() {
        let entry = arc_entry(arc, &list[i])?;
        entries.push(entry)?;
    }
    Ok(entries)
}

fn picks_in(alloc: Global, groups: &[Group], list: &[Value]) -> Result<List<u32>, SettingFault>
    requires few { HaveFewDecisions groups.now }
    requires len { length list.now ≡ length groups.now }
    ensures { Gives (λ l. l) result (read_each group_entry groups.now (map view list.now)) }
{
    let mut picks = List::new(alloc);
    for (i, group) in groups.iter().enumerate() {
        let pick = group_entry(group, &list[i])?;
        picks.push(pick)?;
    }
    Ok(picks)
}

fn squares_in(alloc: Global, nodes: &[NodeRow], list: &[Value]) -> Result<List<i64>, SettingFault>
    requires { length list.now ≡ length nodes.now }
    ensures { Gives (λ l. l) result (read_each node_entry nodes.now (map view list.now)) }
{
    let mut squares = List::new(alloc);
    for (i, node) in nodes.iter().enumerate() {
        let square = node_entry(node, &list[i])?;
        squares.push(square)?;
    }
    Ok(squares)
}

fn states_of(alloc: Global, entries: &[ArcEntry]) -> Result<List<ArcState>, NoMemory>
    ensures { IfOk result (λ l. l ≡ map entry_state entries.now) }
{
    let mut states = List::new(alloc);
    for entry in entries {
        states.push(entry.state)?;
    }
    Ok(states)
}

fn flows_of(alloc: Global, entries: &[ArcEntry]) -> Result<List<i64>, NoMemory>
    ensures { IfOk result (λ l. l ≡ map entry_flow entries.now) }
{
    let mut flows = List::new(alloc);
    for entry in entries {
        flows.push(entry.flow)?;
    }
    Ok(flows)
}

// The setting that a value is, or its first offence.
#[tactic(auto, unfolding(crate::specs::Reading::setting_in))]
fn setting_in(alloc: Global, p: &Problem, value: &Value) -> Result<Setting, SettingFault>
    ensures exact { Gives (λ s. s) result (setting_in p.now (view value.now)) }
    ensures problem { IsProblem p.now }
{
    let arcs = p.arcs();
    let groups = p.groups();
    let nodes = p.nodes();
    if !is_whole(value) {
        return Err(SettingFault::NotSetting { key: Key::Whole });
    }
    let arc_list = array_of(Key::Arcs, arcs.len(), value.get("arcs"))?;
    let entries = arc_entries(alloc, arcs, arc_list)?;
    let group_list = array_of(Key::Decisions, groups.len(), value.get("decisions"))?;
    let picks = picks_in(alloc, groups, group_list)?;
    let node_list = array_of(Key::Nodes, nodes.len(), value.get("nodes"))?;
    let squares = squares_in(alloc, nodes, node_list)?;
    let states = states_of(alloc, entries.as_slice())?;
    let flows = flows_of(alloc, entries.as_slice())?;
    Ok(Setting {
        picks,
        states,
        flows,
        squares,
    })
}

/// The setting of the problem that the bytes stand for, or their first offence.
///
/// They are UTF-8 and JSON: an object with just the keys `arcs`, `decisions` and `nodes`, in any order and with white
/// space as it comes. Of a key that stands twice the last counts. Each is a list in the order of the problem: of an arc
/// its id, the word of a state of its kind and its flow in l/h, within 10^12; of a group its id and that of one of its
/// decisions; of a node its id and its squared pressure in Pa^2, from 0 to 10^16.
///
/// Offences are looked for in this order: no JSON; not this object; then by key, arcs before decisions before nodes,
/// a list of another length, and entry by entry one of another form, id, decision or word, then a number that is read
/// as no whole one, or lies outside its limits.
#[tactic(auto, unfolding(crate::specs::Reading::setting_of))]
pub fn read_setting(alloc: Global, p: &Problem, bytes: &[u8]) -> Result<Setting, SettingFault>
    ensures exact { Gives (λ s. s) result (setting_of p.now bytes.now) }
    // What is read stands so: the setting fits the problem, and its states are of the arcs' kinds.
    ensures stands { IfOk result (λ s. StandsFor p.now bytes.now s) }
    // What stands so is read.
    ensures answered { (s : Setting) → StandsFor p.now bytes.now s → IsRead s result }
{
    let value = value_of(alloc, bytes)?;
    setting_in(alloc, p, &value)
}
