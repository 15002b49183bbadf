// Groups with the positions of their arcs, or the first offence of groups.
ghost use Rattle.std.specs.Prelude.{◌≡◌, None, IfOk, IfErr, OnOk, [], ◌∷◌, ◌++◌, ◌≤◌, length, map, nat_le};
ghost use Rattle.std.specs.List.{list_all};
ghost use Rattle.gas_model.specs.Rows.{text_ids, set_key, set_of, set_fault, decision_key, decision_of, decision_fault, decided_in, group_of, group_fault_after, group_ids, groups_fault, group_count_fault, first_offence, Tells};
ghost use Rattle.base_types.specs.Names.{SameNames};

use crate::faults::{empty_group, no_such_arc, not_active, over_limit, twice_decided, twice_named};
use crate::rows::{ArcText, Decision, DecisionText, Group, GroupText, Many, ModelFault, SetText};
use crate::states::takes;
use base_types::{Allow, List, Name, NoMemory, is_id};
use name_places::NamePlaces;
use std::alloc::Global;

const MAX_GROUPS: usize = 256;

const MAX_DECISIONS: usize = 1_024;

// The place of the arc that a set names, whose kind takes the set's word.
fn arc_of_set(
    alloc: Global,
    arcs: &[ArcText],
    ids: &NamePlaces<'_>,
    group: &Name,
    set: &SetText,
) -> Result<u32, ModelFault>
    requires ids { ids.now ≡ text_ids arcs.now }
    requires few { length arcs.now ≤ 2000 }
    ensures place { IfOk result (λ arc. arc ≡ (set_of (text_ids arcs.now) set.now).0) }
    ensures clean { OnOk result (set_fault arcs.now group.now [] [] set.now ≡ None) }
    ensures err { IfErr result (λ e. Tells e (set_fault arcs.now group.now [] [] set.now)) }
{
    let Some(arc) = ids.place(set.arc.as_str()) else {
        return Err(no_such_arc(alloc, group, &set.arc));
    };
    if !takes(&arcs[arc].kind, set.allow) {
        return Err(not_active(alloc, group, &set.arc));
    }
    Ok(arc as u32)
}

// A set with the place of its arc, after sets of the arcs in `earlier`, and after groups that decide those in `decided`.
fn add_set<'a>(
    alloc: Global,
    arcs: &[ArcText],
    ids: &NamePlaces<'_>,
    group: &Name,
    decided: &NamePlaces<'_>,
    earlier: &mut NamePlaces<'a>,
    set: &'a SetText,
) -> Result<(u32, Allow), ModelFault>
    requires ids { ids.now ≡ text_ids arcs.now }
    requires few { length arcs.now ≤ 2000 }
    ensures set { IfOk result (λ x. x ≡ set_of (text_ids arcs.now) set.now) }
    ensures earlier { OnOk result (earlier.new ≡ earlier.old ++ set_key set.now ∷ []) }
    ensures clean { OnOk result (set_fault arcs.now group.now decided.now earlier.old set.now ≡ None) }
    ensures err { IfErr result (λ e. Tells e (set_fault arcs.now group.now decided.now earlier.old set.now)) }
{
    let arc = arc_of_set(alloc, arcs, ids, group, set)?;
    if !earlier.add(set.arc.as_str())? {
        return Err(twice_decided(alloc, &set.arc));
    }
    if decided.holds(set.arc.as_str()) {
        return Err(twice_decided(alloc, &set.arc));
    }
    Ok((arc, set.allow))
}

// The sets of a decision with the places of their arcs.
fn place_sets(
    alloc: Global,
    arcs: &[ArcText],
    ids: &NamePlaces<'_>,
    group: &Name,
    decided: &NamePlaces<'_>,
    sets: &[SetText],
) -> Result<List<(u32, Allow)>, ModelFault>
    requires ids { ids.now ≡ text_ids arcs.now }
    requires few { length arcs.now ≤ 2000 }
    ensures sets { IfOk result (λ x. x ≡ map (set_of (text_ids arcs.now)) sets.now) }
    ensures clean { OnOk result (first_offence set_key (set_fault arcs.now group.now decided.now) [] sets.now ≡ None) }
    ensures err { IfErr result (λ e. Tells e (first_offence set_key (set_fault arcs.now group.now decided.now) [] sets.now)) }
{
    let mut earlier = NamePlaces::new(alloc);
    let mut placed = List::new(alloc);
    for set in sets {
        placed.push(add_set(alloc, arcs, ids, group, decided, &mut earlier, set)?)?;
    }
    Ok(placed)
}

// A decision with the places of its arcs, after decisions of the ids in `earlier` in its group.
fn add_decision<'a>(
    alloc: Global,
    arcs: &[ArcText],
    ids: &NamePlaces<'_>,
    group: &Name,
    decided: &NamePlaces<'_>,
    earlier: &mut NamePlaces<'a>,
    decision: &'a DecisionText,
) -> Result<Decision, ModelFault>
    requires ids { ids.now ≡ text_ids arcs.now }
    requires few { length arcs.now ≤ 2000 }
    ensures decision { IfOk result (λ d. d ≡ decision_of (text_ids arcs.now) decision.now) }
    ensures earlier { OnOk result (earlier.new ≡ earlier.old ++ decision_key decision.now ∷ []) }
    ensures clean { OnOk result (decision_fault arcs.now group.now decided.now earlier.old decision.now ≡ None) }
    ensures err { IfErr result (λ e. Tells e (decision_fault arcs.now group.now decided.now earlier.old decision.now)) }
{
    if !is_id(decision.id.as_str()) {
        return Err(over_limit(alloc, &decision.id));
    }
    if !earlier.add(decision.id.as_str())? {
        return Err(twice_named(alloc, &decision.id));
    }
    let sets = place_sets(alloc, arcs, ids, group, decided, decision.sets.as_slice())?;
    let id = decision.id.copy(alloc)?;
    Ok(Decision { id, sets })
}

// The decisions of a group with the places of their arcs.
fn place_decisions(
    alloc: Global,
    arcs: &[ArcText],
    ids: &NamePlaces<'_>,
    decided: &NamePlaces<'_>,
    group: &GroupText,
) -> Result<List<Decision>, ModelFault>
    requires ids { ids.now ≡ text_ids arcs.now }
    requires few { length arcs.now ≤ 2000 }
    ensures decisions { IfOk result (λ ds. ds ≡ map (decision_of (text_ids arcs.now)) group.now.decisions) }
    ensures clean { OnOk result (first_offence decision_key (decision_fault arcs.now group.now.id decided.now) [] group.now.decisions ≡ None) }
    ensures err { IfErr result (λ e. Tells e (first_offence decision_key (decision_fault arcs.now group.now.id decided.now) [] group.now.decisions)) }
{
    let mut earlier = NamePlaces::new(alloc);
    let mut placed = List::new(alloc);
    let decisions = group.decisions.as_slice();
    for decision in decisions {
        placed.push(add_decision(alloc, arcs, ids, &group.id, decided, &mut earlier, decision)?)?;
    }
    Ok(placed)
}

// A group with the places of its arcs, after groups of the ids in `earlier` that decide the arcs in `decided`.
fn add_group<'a>(
    alloc: Global,
    arcs: &[ArcText],
    ids: &NamePlaces<'_>,
    decided: &NamePlaces<'_>,
    earlier: &mut NamePlaces<'a>,
    group: &'a GroupText,
) -> Result<Group, ModelFault>
    requires ids { ids.now ≡ text_ids arcs.now }
    requires few { length arcs.now ≤ 2000 }
    ensures group { IfOk result (λ g. g ≡ group_of (text_ids arcs.now) group.now) }
    ensures earlier { OnOk result (earlier.new ≡ earlier.old ++ group.now.id ∷ []) }
    ensures clean { OnOk result (group_fault_after arcs.now earlier.old decided.now group.now ≡ None) }
    ensures err { IfErr result (λ e. Tells e (group_fault_after arcs.now earlier.old decided.now group.now)) }
{
    if !is_id(group.id.as_str()) {
        return Err(over_limit(alloc, &group.id));
    }
    if !earlier.add(group.id.as_str())? {
        return Err(twice_named(alloc, &group.id));
    }
    if group.decisions.as_slice().is_empty() {
        return Err(empty_group(alloc, &group.id));
    }
    let decisions = place_decisions(alloc, arcs, ids, decided, group)?;
    let id = group.id.copy(alloc)?;
    Ok(Group { id, decisions })
}

// Adds the arcs that these sets name.
fn note_sets<'a>(decided: &mut NamePlaces<'a>, sets: &'a [SetText]) -> Result<(), NoMemory>
    ensures { OnOk result (SameNames decided.new (decided.old ++ map set_key sets.now)) }
{
    for set in sets {
        decided.add(set.arc.as_str())?;
    }
    Ok(())
}

// Adds the arcs of which a group speaks.
fn note_group<'a>(decided: &mut NamePlaces<'a>, group: &'a GroupText) -> Result<(), NoMemory>
    ensures { OnOk result (SameNames decided.new (decided.old ++ decided_in group.now)) }
{
    let decisions = group.decisions.as_slice();
    for decision in decisions {
        note_sets(decided, decision.sets.as_slice())?;
    }
    Ok(())
}

// All groups with the places of their arcs.
pub fn place_groups(
    alloc: Global,
    arcs: &[ArcText],
    ids: &NamePlaces<'_>,
    groups: &[GroupText],
) -> Result<List<Group>, ModelFault>
    requires ids { ids.now ≡ text_ids arcs.now }
    requires few { length arcs.now ≤ 2000 }
    ensures groups { IfOk result (λ gs. gs ≡ map (group_of (text_ids arcs.now)) groups.now) }
    ensures clean { OnOk result (groups_fault arcs.now groups.now ≡ None) }
    ensures err { IfErr result (λ e. Tells e (groups_fault arcs.now groups.now)) }
{
    let mut decided = NamePlaces::new(alloc);
    let mut earlier = NamePlaces::new(alloc);
    let mut placed = List::new(alloc);
    for group in groups {
        placed.push(add_group(alloc, arcs, ids, &decided, &mut earlier, group)?)?;
        note_group(&mut decided, group)?;
    }
    Ok(placed)
}

fn has_few_decisions(groups: &[GroupText]) -> bool
    ensures { result ≡ list_all (λ g. nat_le (length g.decisions) 1024) groups.now }
{
    groups
        .iter()
        .all(|group| group.decisions.as_slice().len() <= MAX_DECISIONS)
}

// The counts of groups and of their decisions.
pub fn count_groups(groups: &[GroupText]) -> Result<(), ModelFault>
    ensures clean { OnOk result (group_count_fault groups.now ≡ None) }
    ensures err { IfErr result (λ e. Tells e (group_count_fault groups.now)) }
{
    if groups.len() > MAX_GROUPS {
        return Err(ModelFault::TooMany { what: Many::Groups });
    }
    if !has_few_decisions(groups) {
        return Err(ModelFault::TooMany {
            what: Many::Decisions,
        });
    }
    Ok(())
}
