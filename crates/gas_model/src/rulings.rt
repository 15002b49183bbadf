// What the decisions of groups say of each arc.
ghost use Rattle.std.specs.Prelude.{◌≡◌, ◌<◌, ◌≤◌, ℕ, [], length, map, Some, IfOk, OnOk, Option, is_some};
ghost use Rattle.std.specs.List.{list_all};
ghost use Rattle.gas_model.specs.Rulings.{rulings_in, rulings_by, one_ruling, all_leave, word_allows, pick_in, pick_for, AreInOrder, Grew, KeepsRulings, NameArcs, DecideArcs, GroupsDecideArcs};
ghost use Rattle.base_types.specs.declared.states.ArcState.{ArcState};

use crate::rows::{Decision, Group, Ruling};
use crate::states::pick_in;
use base_types::{Allow, NoMemory};
use std::alloc::Global;

// Adds a ruling to the list of an arc.
fn note(lists: &mut Vec<Vec<Ruling>>, arc: u32, ruling: Ruling) -> Result<(), NoMemory>
    requires { arc < length lists.old.items }
    ensures { OnOk result (Grew (one_ruling arc ruling) (map (λ v. v.items) lists.old.items) (map (λ v. v.items) lists.new.items)) }
{
    lists[arc as usize].push(ruling)?;
    Ok(())
}

// Adds the rulings of a decision.
fn note_sets(
    lists: &mut Vec<Vec<Ruling>>,
    group: u32,
    decision: u32,
    sets: &[(u32, Allow)],
) -> Result<(), NoMemory>
    requires { NameArcs (length lists.old.items) sets.now }
    ensures { OnOk result (Grew (λ a. rulings_in a group decision sets.now) (map (λ v. v.items) lists.old.items) (map (λ v. v.items) lists.new.items)) }
{
    for (arc, allow) in sets {
        let ruling = Ruling {
            group,
            decision,
            allow: *allow,
        };
        note(lists, *arc, ruling)?;
    }
    Ok(())
}

// Adds the rulings of the decisions of a group.
fn note_decisions(
    lists: &mut Vec<Vec<Ruling>>,
    group: u32,
    decisions: &[Decision],
) -> Result<(), NoMemory>
    requires arcs { DecideArcs (length lists.old.items) decisions.now }
    requires few { length decisions.now ≤ 1024 }
    ensures { OnOk result (Grew (λ a. rulings_by a group 0 decisions.now) (map (λ v. v.items) lists.old.items) (map (λ v. v.items) lists.new.items)) }
{
    for (j, decision) in decisions.iter().enumerate() {
        note_sets(lists, group, j as u32, decision.sets.as_slice())?;
    }
    Ok(())
}

// As many empty lists.
fn empty_lists(alloc: Global, count: usize) -> Result<Vec<Vec<Ruling>>, NoMemory>
    ensures { IfOk result (λ lists. KeepsRulings (map (λ v. v.items) lists.items) count []) }
{
    let mut lists = Vec::new(alloc);
    for _n in 0..count {
        lists.push(Vec::new(alloc))?;
    }
    Ok(lists)
}

// What the groups say of each of so many arcs, in order.
pub fn rulings_of_arcs(
    alloc: Global,
    arcs: usize,
    groups: &[Group],
) -> Result<Vec<Vec<Ruling>>, NoMemory>
    requires arcs { GroupsDecideArcs arcs groups.now }
    requires few { length groups.now ≤ 256 }
    ensures { IfOk result (λ lists. KeepsRulings (map (λ v. v.items) lists.items) arcs groups.now) }
{
    let mut lists = empty_lists(alloc, arcs)?;
    for (k, group) in groups.iter().enumerate() {
        note_decisions(&mut lists, k as u32, group.decisions.as_slice())?;
    }
    Ok(lists)
}

// The word of a decision among rulings of its group.
fn word_of(rulings: &[Ruling], decision: u32) -> Option<Allow>
    requires { AreInOrder rulings.now }
    ensures { (pick : ℕ → Option ℕ) (state : ArcState) → pick_for pick rulings.now ≡ Some decision
        → word_allows result state ≡ all_leave pick state rulings.now }
{
    match rulings.binary_search_by_key(&decision, |ruling| ruling.decision) {
        Ok(place) => Some(rulings[place].allow),
        Err(_) => None,
    }
}

/// The word that the picked decision of their group has, of rulings in order: `pick` is that decision, where one is
/// picked and there are rulings.
pub fn picked_word(rulings: &[Ruling], pick: Option<u32>) -> Option<Allow>
    requires { AreInOrder rulings.now }
    ensures { (picks : ℕ → Option ℕ) (state : ArcState) → pick_for picks rulings.now ≡ pick
        → word_allows result state ≡ all_leave picks state rulings.now }
{
    word_of(rulings, pick?)
}

// Whether a decision of a group is picked.
fn is_picked(picks: &[Option<u32>], group: u32) -> bool
    ensures { result ≡ is_some (pick_in picks.now group) }
{
    pick_in(picks, group).is_some()
}

/// Whether each group that says one of the rulings is picked.
pub fn are_picked(picks: &[Option<u32>], rulings: &[Ruling]) -> bool
    ensures { result ≡ list_all (λ r. is_some (pick_in picks.now r.group)) rulings.now }
{
    rulings.iter().all(|ruling| is_picked(picks, ruling.group))
}
