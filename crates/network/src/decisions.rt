// Decisions, against the connections of which they speak.
ghost use Rattle.std.specs.Prelude.{◌≡◌, None, IfOk, IfErr, OnOk, map};
ghost use Rattle.name_places.specs.ByName.{look};
ghost use Rattle.network.specs.Faults.{Tells};
ghost use Rattle.network.specs.Decisions.{arc_word, is_called, set_fault, decision_fault, group_fault, groups_fault, set_text, decision_text, group_text};

use crate::faults::wrong_type;
use cdf_reader::{ActiveWord, CdfDecision, CdfGroup, CdfSet};
use gas_model::{DecisionText, GroupText, List, NoMemory, SetText};
use name_places::{ByName, keep_first, no_values, value_of};
use net_reader::{ArcWord, NetArc};
use problem_faults::JoinFault;
use std::alloc::Global;

/// What connections are; of two of one id, the first.
pub fn arc_words(alloc: Global, arcs: &[NetArc]) -> Result<ByName<'_, ArcWord>, NoMemory>
    ensures { IfOk result (λ words. look words ≡ arc_word arcs.now) }
{
    let mut words = no_values(alloc);
    for arc in arcs {
        keep_first(&mut words, arc.id.as_str(), arc.word)?;
    }
    Ok(words)
}

// Whether a decision file calls a connection so.
fn is_called(word: ActiveWord, arc: ArcWord) -> bool
    ensures { result ≡ is_called word arc }
{
    match arc {
        ArcWord::Valve => word == ActiveWord::Valve,
        ArcWord::Control { .. } => word == ActiveWord::Control,
        ArcWord::Station { .. } => word == ActiveWord::Station,
        ArcWord::Pipe | ArcWord::Short | ArcWord::Resistor { .. } => false,
    }
}

fn check_set(alloc: Global, words: &ByName<'_, ArcWord>, set: &CdfSet) -> Result<(), JoinFault>
    ensures clean { OnOk result (set_fault (look words.now) set.now ≡ None) }
    ensures err { IfErr result (λ e. Tells e (set_fault (look words.now) set.now)) }
{
    match value_of(words, set.arc.as_str()) {
        Some(arc) => {
            if is_called(set.word, arc) {
                Ok(())
            } else {
                Err(wrong_type(alloc, &set.arc))
            }
        }
        None => Ok(()),
    }
}

fn check_decision(
    alloc: Global,
    words: &ByName<'_, ArcWord>,
    decision: &CdfDecision,
) -> Result<(), JoinFault>
    ensures clean { OnOk result (decision_fault (look words.now) decision.now ≡ None) }
    ensures err { IfErr result (λ e. Tells e (decision_fault (look words.now) decision.now)) }
{
    let sets = decision.sets.as_slice();
    for set in sets {
        check_set(alloc, words, set)?;
    }
    Ok(())
}

fn check_group(
    alloc: Global,
    words: &ByName<'_, ArcWord>,
    group: &CdfGroup,
) -> Result<(), JoinFault>
    ensures clean { OnOk result (group_fault (look words.now) group.now ≡ None) }
    ensures err { IfErr result (λ e. Tells e (group_fault (look words.now) group.now)) }
{
    let decisions = group.decisions.as_slice();
    for decision in decisions {
        check_decision(alloc, words, decision)?;
    }
    Ok(())
}

/// That each connection of which a decision speaks is called so, if there is one.
pub fn check_groups(
    alloc: Global,
    words: &ByName<'_, ArcWord>,
    groups: &[CdfGroup],
) -> Result<(), JoinFault>
    ensures clean { OnOk result (groups_fault (look words.now) groups.now ≡ None) }
    ensures err { IfErr result (λ e. Tells e (groups_fault (look words.now) groups.now)) }
{
    for group in groups {
        check_group(alloc, words, group)?;
    }
    Ok(())
}

fn set_texts(alloc: Global, sets: &[CdfSet]) -> Result<List<SetText>, NoMemory>
    ensures { IfOk result (λ texts. texts ≡ map set_text sets.now) }
{
    let mut texts = List::new(alloc);
    for set in sets {
        texts.push(SetText {
            arc: set.arc.copy(alloc)?,
            allow: set.allow,
        })?;
    }
    Ok(texts)
}

fn decision_text(alloc: Global, decision: &CdfDecision) -> Result<DecisionText, NoMemory>
    ensures { IfOk result (λ text. text ≡ decision_text decision.now) }
{
    Ok(DecisionText {
        id: decision.id.copy(alloc)?,
        sets: set_texts(alloc, decision.sets.as_slice())?,
    })
}

fn decision_texts(alloc: Global, decisions: &[CdfDecision]) -> Result<List<DecisionText>, NoMemory>
    ensures { IfOk result (λ texts. texts ≡ map decision_text decisions.now) }
{
    let mut texts = List::new(alloc);
    for decision in decisions {
        texts.push(decision_text(alloc, decision)?)?;
    }
    Ok(texts)
}

fn group_text(alloc: Global, group: &CdfGroup) -> Result<GroupText, NoMemory>
    ensures { IfOk result (λ text. text ≡ group_text group.now) }
{
    Ok(GroupText {
        id: group.id.copy(alloc)?,
        decisions: decision_texts(alloc, group.decisions.as_slice())?,
    })
}

/// All groups, with what their decisions say.
pub fn group_texts(alloc: Global, groups: &[CdfGroup]) -> Result<List<GroupText>, NoMemory>
    ensures { IfOk result (λ texts. texts ≡ map group_text groups.now) }
{
    let mut texts = List::new(alloc);
    for group in groups {
        texts.push(group_text(alloc, group)?)?;
    }
    Ok(texts)
}
