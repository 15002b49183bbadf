// Settings that fit a problem, and are near.
ghost use Rattle.std.specs.Prelude.{◌≡◌, pos, ◌≤◌, ◌^◌, length, IfOk, IfSome, IsTrue};
ghost use Rattle.std.specs.List.{list_all};
ghost use Rattle.gas_model.specs.Choices.{ArePicks};
ghost use Rattle.base_types.specs.Numbers.{is_flow, is_square};
ghost use Rattle.gas_model.specs.Near.{SettingFits};
ghost use Rattle.proposer.specs.Proposed.{HasLengths, IsProposed};

use crate::choice::Choice;
use base_types::{is_flow, is_square};
use element_laws::first_broken;
use gas_model::{Group, List, NoMemory, Problem, Setting};
use std::alloc::Global;

fn are_flows(list: &[i64]) -> bool
    ensures { result ≡ list_all is_flow list.now }
{
    list.iter().all(|x| is_flow(*x))
}

fn are_squares(list: &[i64]) -> bool
    ensures { result ≡ list_all is_square list.now }
{
    list.iter().all(|x| is_square(*x))
}

fn are_picks(groups: &[Group], picks: &[u32]) -> bool
    ensures { IsTrue result → ArePicks groups.now picks.now }
{
    if groups.len() != picks.len() {
        return false;
    }
    for k in 0..groups.len() {
        if picks[k] as usize >= groups[k].decisions.as_slice().len() {
            return false;
        }
    }
    true
}

// Whether the lists of a setting have the lengths of a problem.
fn has_lengths(p: &Problem, setting: &Setting) -> bool
    ensures { IsTrue result → HasLengths p.now setting.now }
{
    if setting.states.as_slice().len() != p.arcs().len() {
        return false;
    }
    if setting.flows.as_slice().len() != p.arcs().len() {
        return false;
    }
    setting.squares.as_slice().len() == p.nodes().len()
}

// Whether a setting fits a problem: its lists have the problem's lengths, its picks are in range, its numbers within the
// limits.
fn fits(p: &Problem, setting: &Setting) -> bool
    ensures { IsTrue result → SettingFits p.now setting.now }
{
    if !has_lengths(p, setting) {
        return false;
    }
    if !are_picks(p.groups(), setting.picks.as_slice()) {
        return false;
    }
    if !are_flows(setting.flows.as_slice()) {
        return false;
    }
    are_squares(setting.squares.as_slice())
}

/// The setting of a choice with these flows and squares, where it fits the problem and is near within the tolerance, in
/// Pa^2.
pub fn judged(
    alloc: Global,
    p: &Problem,
    choice: &Choice,
    flows: &[i64],
    squares: &[i64],
    tol: u64,
) -> Result<Option<Setting>, NoMemory>
    requires { tol ≤ 10 ^ 16 }
    ensures { IfOk result (λ o. IfSome o (IsProposed p.now tol)) }
{
    let setting = Setting {
        picks: List::of(alloc, &choice.picks)?,
        states: List::of(alloc, &choice.states)?,
        flows: List::of(alloc, flows)?,
        squares: List::of(alloc, squares)?,
    };
    if !fits(p, &setting) {
        return Ok(None);
    }
    match first_broken(p, &setting, i128::from(tol)) {
        None => Ok(Some(setting)),
        Some(_) => Ok(None),
    }
}
