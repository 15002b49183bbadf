// The entries of a setting's lists.
ghost use Rattle.std.specs.Prelude.{◌≡◌, ◌≤◌, length, position, option_map};
ghost use Rattle.std.specs.Str.{bytes_eq};
ghost use Rattle.serde_json.specs.View.{view};
ghost use Rattle.setting_text.specs.Reading.{Gives, of_kind, state_at, arc_entry, decision_place, group_entry, node_entry};

use crate::values::{is_entry, number_at, text_at};
use file_faults::{Key, SettingFault};
use gas_model::{ArcKind, ArcRow, ArcState, Decision, Group, NodeRow, has_state, state_named};
use serde_json::Value;

/// The greatest flow either way, in l/h.
const MAX_FLOW: i64 = 1_000_000_000_000;

/// The greatest squared pressure, in Pa^2.
const MAX_SQUARE: i64 = 10_000_000_000_000_000;

// What an arc's entry says.
#[derive(Clone, Copy)]
pub(crate) struct ArcEntry {
    pub(crate) state: ArcState,
    pub(crate) flow: i64,
}

fn of_kind(kind: &ArcKind, state: ArcState) -> Option<ArcState>
    ensures { result ≡ of_kind kind.now state }
{
    if has_state(kind, state) {
        Some(state)
    } else {
        None
    }
}

// The state of this kind that the value names.
fn state_at(kind: &ArcKind, value: Option<&Value>) -> Result<ArcState, SettingFault>
    ensures { Gives (λ s. s) result
        (state_at kind.now (option_map (λ v. view v.now) value.entry)) }
{
    let Some(word) = text_at(value) else {
        return Err(SettingFault::NotSetting { key: Key::Arcs });
    };
    let Some(state) = state_named(word) else {
        return Err(SettingFault::NotSetting { key: Key::Arcs });
    };
    match of_kind(kind, state) {
        Some(state) => Ok(state),
        None => Err(SettingFault::NotSetting { key: Key::Arcs }),
    }
}

#[tactic(auto, unfolding(crate::specs::Reading::arc_entry))]
pub(crate) fn arc_entry(arc: &ArcRow, value: &Value) -> Result<ArcEntry, SettingFault>
    ensures { Gives (λ e. e) result (arc_entry arc.now (view value.now)) }
{
    if !is_entry(value, 3, arc.id.as_str()) {
        return Err(SettingFault::NotSetting { key: Key::Arcs });
    }
    let state = state_at(&arc.kind, value.get(1usize))?;
    let flow = number_at(Key::Arcs, -MAX_FLOW, MAX_FLOW, value.get(2usize))?;
    Ok(ArcEntry { state, flow })
}

fn place_of(decisions: &[Decision], id: &str) -> Option<usize>
    ensures { result ≡ position (λ x. bytes_eq id.now x.id) decisions.now }
{
    decisions.iter().position(|x| id == x.id.as_str())
}

// The place of a group's decision of this id.
fn decision_place(group: &Group, id: &str) -> Option<u32>
    requires { length group.now.decisions ≤ 1024 }
    ensures { result ≡ decision_place group.now id.now }
{
    match place_of(group.decisions.as_slice(), id) {
        Some(place) => Some(place as u32),
        None => None,
    }
}

#[tactic(auto, unfolding(crate::specs::Reading::group_entry))]
pub(crate) fn group_entry(group: &Group, value: &Value) -> Result<u32, SettingFault>
    requires { length group.now.decisions ≤ 1024 }
    ensures { Gives (λ j. j) result (group_entry group.now (view value.now)) }
{
    let fault = SettingFault::NotSetting {
        key: Key::Decisions,
    };
    if !is_entry(value, 2, group.id.as_str()) {
        return Err(fault);
    }
    let Some(id) = text_at(value.get(1usize)) else {
        return Err(fault);
    };
    match decision_place(group, id) {
        Some(place) => Ok(place),
        None => Err(fault),
    }
}

#[tactic(auto, unfolding(crate::specs::Reading::node_entry))]
pub(crate) fn node_entry(node: &NodeRow, value: &Value) -> Result<i64, SettingFault>
    ensures { Gives (λ z. z) result (node_entry node.now (view value.now)) }
{
    if !is_entry(value, 2, node.id.as_str()) {
        return Err(SettingFault::NotSetting { key: Key::Nodes });
    }
    number_at(Key::Nodes, 0, MAX_SQUARE, value.get(1usize))
}
