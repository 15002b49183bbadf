// Changes of a choice.
use crate::choice::{Choice, Grouped, Work, group_of, kind_of, state_under};
use clamped::{index_of, put_index};
use flow_guess::may_be;
use gas_model::{ArcState, NoMemory, Problem, states_of};
use std::alloc::Global;

/// A change of a choice: another state of an arc, or another decision of a group.
#[derive(Clone, Copy, Debug)]
pub enum Move {
    State { arc: u32, state: ArcState },
    Pick { group: u32, decision: u32 },
}

impl Move {
    /// The choice after this change.
    pub fn made(
        self,
        alloc: Global,
        p: &Problem,
        grouped: &Grouped,
        choice: &Choice,
    ) -> Result<Choice, NoMemory> {
        let mut next = choice.copy(alloc)?;
        match self {
            Move::State { arc, state } => next.put(arc, state),
            Move::Pick { group, decision } => next.pick(p, grouped, group, decision),
        }
        Ok(next)
    }
}

// The other states of an arc that the picks allow.
fn add_states(
    p: &Problem,
    choice: &Choice,
    arc: u32,
    moves: &mut Vec<Move>,
) -> Result<(), NoMemory> {
    let kind = kind_of(p, arc);
    let own = choice.states.get(arc as usize).copied();
    for state in states_of(&kind) {
        let state = *state;
        if own != Some(state) && may_be(p, &choice.picks, arc, state) {
            moves.push(Move::State { arc, state })?;
        }
    }
    Ok(())
}

// How many arcs of a group change their state under these picks; many more where this arc doesn't.
fn distance(p: &Problem, choice: &Choice, arcs: &[u32], picks: &[u32], about: u32) -> u64 {
    let mut far: u64 = 0;
    for arc in arcs {
        let Some(state) = choice.states.get(*arc as usize).copied() else {
            continue;
        };
        let changes = state_under(p, picks, *arc, state) != state;
        if changes {
            far = far.saturating_add(1);
        } else if *arc == about {
            far = far.saturating_add(100);
        }
    }
    far
}

// The other decisions of a group, with their distances.
fn distances(
    alloc: Global,
    p: &Problem,
    choice: &Choice,
    arcs: &[u32],
    group: u32,
    about: u32,
) -> Result<Vec<(u64, u32)>, NoMemory> {
    let mut list = Vec::new(alloc);
    let mut picks = choice.picks.to_vec(alloc)?;
    let own = choice.picks.get(group as usize).copied();
    let decisions = match p.groups().get(group as usize) {
        Some(group) => index_of(group.decisions.as_slice().len()),
        None => 0,
    };
    for decision in 0..decisions {
        if own != Some(decision) {
            put_index(&mut picks, group as usize, decision);
            list.push((distance(p, choice, arcs, &picks, about), decision))?;
        }
    }
    Ok(list)
}

// The other decisions of the group of an arc, those with the fewest changed states first, and those behind that leave this
// arc as it is.
fn add_picks(
    alloc: Global,
    p: &Problem,
    grouped: &Grouped,
    choice: &Choice,
    work: &mut Work,
    arc: u32,
    moves: &mut Vec<Move>,
) -> Result<(), NoMemory> {
    let Some(group) = group_of(p, arc) else {
        return Ok(());
    };
    let arcs = grouped.arcs(group);
    let mut list = distances(alloc, p, choice, arcs, group, arc)?;
    work.take((list.len() as u64).saturating_mul(arcs.len() as u64) / 4);
    list.sort_unstable();
    for (_, decision) in &list {
        let decision = *decision;
        moves.push(Move::Pick { group, decision })?;
    }
    Ok(())
}

/// The changes of an arc, the first to be tried last: its other states, then the other decisions of its group.
pub fn moves_of(
    alloc: Global,
    p: &Problem,
    grouped: &Grouped,
    choice: &Choice,
    work: &mut Work,
    arc: u32,
) -> Result<Vec<Move>, NoMemory> {
    let mut moves = Vec::new(alloc);
    add_states(p, choice, arc, &mut moves)?;
    add_picks(alloc, p, grouped, choice, work, arc, &mut moves)?;
    moves.reverse();
    Ok(moves)
}
