// The choices of a probe: what is open takes its first option.
ghost use Rattle.std.specs.Prelude.{◌≡◌, ◌<◌, length, map, Some, IfOk, slice_index_or};
ghost use Rattle.gas_model.specs.Choices.{PartFits};
ghost use Rattle.topo.specs.Graphs.{no_arc};
ghost use Rattle.probe_point.specs.Chosen.{picks_of, with_picks, all_chosen, first_left, chosen_state, AreChosen};

use gas_model::{ArcKind, ArcState, List, NoMemory, PartState, Problem};
use std::alloc::Global;

/// The picked decision of each group, or its first one.
pub fn picks_of(alloc: Global, part: &PartState) -> Result<List<u32>, NoMemory>
    ensures { IfOk result (λ picks. picks ≡ picks_of part.now) }
{
    let mut picks = List::new(alloc);
    for pick in part.picks.as_slice() {
        picks.push(pick.unwrap_or(0))?;
    }
    Ok(picks)
}

/// Each of these, as one that is there.
fn all_there<T: Copy + Drop>(alloc: Global, items: &[T]) -> Result<List<Option<T>>, NoMemory>
    ensures { IfOk result (λ all. all ≡ map Some items.now) }
{
    let mut all = List::new(alloc);
    for item in items {
        all.push(Some(*item))?;
    }
    Ok(all)
}

/// The same items once more.
pub fn copied<T: Copy + Drop>(alloc: Global, items: &[T]) -> Result<List<T>, NoMemory>
    ensures { IfOk result (λ copy. copy ≡ items.now) }
{
    let mut copy = List::new(alloc);
    for item in items {
        copy.push(*item)?;
    }
    Ok(copy)
}

/// The part state in which these decisions are picked.
pub fn with_picks(alloc: Global, part: &PartState, picks: &[u32]) -> Result<PartState, NoMemory>
    ensures { IfOk result (λ whole. whole ≡ with_picks picks.now part.now) }
{
    Ok(PartState {
        picks: all_there(alloc, picks)?,
        states: copied(alloc, part.states.as_slice())?,
    })
}

/// The part state in which these decisions are picked, and these states named.
pub fn all_chosen(alloc: Global, picks: &[u32], states: &[ArcState]) -> Result<PartState, NoMemory>
    ensures { IfOk result (λ whole. whole ≡ all_chosen picks.now states.now) }
{
    Ok(PartState {
        picks: all_there(alloc, picks)?,
        states: all_there(alloc, states)?,
    })
}

/// The first of the states that are left to an arc.
fn first_left(kind: &ArcKind, left: &[ArcState]) -> ArcState
    ensures { result ≡ first_left kind.now left.now }
{
    match (left.first(), kind) {
        (Some(state), _) => *state,
        (None, ArcKind::Control { .. } | ArcKind::Station { .. }) => ArcState::Active,
        (None, _) => ArcState::Opened,
    }
}

/// The state of an arc that is fixed, or the first one that the picked decisions allow.
fn chosen_state(p: &Problem, part: &PartState, arc: u32) -> Result<ArcState, NoMemory>
    requires fits { PartFits p.now part.now }
    requires within { arc < length p.now.arcs }
    ensures { IfOk result (λ state. state ≡ chosen_state p.now part.now arc (slice_index_or p.now.arcs arc no_arc)) }
{
    if let Some(state) = p.state_of(part, arc) {
        return Ok(state);
    }
    let left = p.allowed_states(part, arc)?;
    Ok(first_left(&p.arcs()[arc as usize].kind, left.as_slice()))
}

/// The state of each arc that is fixed, or the first one that the picked decisions allow.
pub fn chosen_states(
    alloc: Global,
    p: &Problem,
    part: &PartState,
) -> Result<List<ArcState>, NoMemory>
    requires { PartFits p.now part.now }
    ensures { IfOk result (λ states. AreChosen p.now part.now states) }
{
    let mut states = List::new(alloc);
    for arc in 0..p.arcs().len() {
        states.push(chosen_state(p, part, arc as u32)?)?;
    }
    Ok(states)
}
