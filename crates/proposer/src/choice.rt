// Choices: a decision for each group, and a state for each arc.
use clamped::{index_of, put_index};
use flow_guess::{may_be, stranded};
use gas_model::{Allow, ArcKind, ArcState, Decision, NoMemory, Problem, states_of};
use std::alloc::Global;

/// A decision for each group, and a state for each arc.
#[derive(Debug, PartialEq, Eq, Drop)]
pub struct Choice {
    pub picks: Vec<u32>,
    pub states: Vec<ArcState>,
}

/// The arcs of which each group has a word.
#[derive(Debug, Drop)]
pub struct Grouped {
    arcs: Vec<Vec<u32>>,
}

// So often groups are gone through for decisions that strand less supply.
const SWEEPS: u32 = 4;

/// What proposing may take, in units of a node or an arc that is touched in a round, and what it took.
#[derive(Clone, Copy, Debug)]
pub struct Work {
    pub done: u64,
    pub most: u64,
}

impl Work {
    /// Takes so much.
    pub fn take(&mut self, by: u64) {
        self.done = self.done.saturating_add(by);
    }

    /// Whether all was taken.
    pub fn is_spent(&self) -> bool {
        self.done > self.most
    }
}

/// How much it takes to go once over a problem.
pub fn size_of(p: &Problem) -> u64 {
    let nodes = p.nodes().len() as u64;
    nodes.saturating_add(p.arcs().len() as u64)
}

impl Grouped {
    /// The arcs of the groups of a problem.
    pub fn of(alloc: Global, p: &Problem) -> Result<Grouped, NoMemory> {
        let mut arcs = no_arcs(alloc, p.groups().len())?;
        for arc in 0..index_of(p.arcs().len()) {
            if let Some(group) = group_of(p, arc) {
                if let Some(list) = arcs.get_mut(group as usize) {
                    list.push(arc)?;
                }
            }
        }
        Ok(Grouped { arcs })
    }

    /// The arcs of a group.
    pub fn arcs(&self, group: u32) -> &[u32] {
        match self.arcs.get(group as usize) {
            Some(arcs) => arcs,
            None => &[],
        }
    }
}

fn no_arcs(alloc: Global, count: usize) -> Result<Vec<Vec<u32>>, NoMemory> {
    let mut lists = Vec::new(alloc);
    for _ in 0..count {
        lists.push(Vec::new(alloc))?;
    }
    Ok(lists)
}

/// The group that has a word for an arc.
pub fn group_of(p: &Problem, arc: u32) -> Option<u32> {
    if arc as usize >= p.arcs().len() {
        return None;
    }
    let ruling = p.rulings_at(arc).first()?;
    Some(ruling.group)
}

/// The kind of an arc.
pub fn kind_of(p: &Problem, arc: u32) -> ArcKind {
    match p.arcs().get(arc as usize) {
        Some(row) => row.kind,
        None => ArcKind::Short,
    }
}

// The first state of an arc that the picks allow.
fn first_state(p: &Problem, picks: &[u32], arc: u32) -> Option<ArcState> {
    let kind = kind_of(p, arc);
    for state in states_of(&kind) {
        if may_be(p, picks, arc, *state) {
            return Some(*state);
        }
    }
    None
}

/// The state of an arc under these picks: the one that it has, where they allow it, or else the first that they allow.
pub fn state_under(p: &Problem, picks: &[u32], arc: u32, state: ArcState) -> ArcState {
    if may_be(p, picks, arc, state) {
        return state;
    }
    match first_state(p, picks, arc) {
        Some(first) => first,
        None => state,
    }
}

// How much a word of a decision shuts.
fn cost(word: Allow) -> u64 {
    match word {
        Allow::Shut => 4,
        Allow::Bypass => 1,
        _ => 0,
    }
}

fn cost_of(decision: &Decision) -> u64 {
    let mut total: u64 = 0;
    for (_, word) in decision.sets.as_slice() {
        total = total.saturating_add(cost(*word));
    }
    total
}

// The decision of a group that shuts least.
fn open_most(decisions: &[Decision]) -> u32 {
    let mut best = 0;
    let mut least = u64::MAX;
    for (j, decision) in decisions.iter().enumerate() {
        let cost = cost_of(decision);
        if cost < least {
            best = index_of(j);
            least = cost;
        }
    }
    best
}

fn first_states(alloc: Global, p: &Problem) -> Result<Vec<ArcState>, NoMemory> {
    let mut states = Vec::new(alloc);
    for row in p.arcs() {
        let state = states_of(&row.kind).first().copied();
        states.push(state.unwrap_or(ArcState::Opened))?;
    }
    Ok(states)
}

impl Choice {
    /// The same choice once more.
    pub fn copy(&self, alloc: Global) -> Result<Choice, NoMemory> {
        Ok(Choice {
            picks: self.picks.to_vec(alloc)?,
            states: self.states.to_vec(alloc)?,
        })
    }

    /// Puts an arc into a state.
    pub fn put(&mut self, arc: u32, state: ArcState) {
        if let Some(own) = self.states.get_mut(arc as usize) {
            *own = state;
        }
    }

    /// Picks a decision of a group; its arcs keep their states where that allows them.
    pub fn pick(&mut self, p: &Problem, grouped: &Grouped, group: u32, decision: u32) {
        put_index(&mut self.picks, group as usize, decision);
        for arc in grouped.arcs(group) {
            if let Some(state) = self.states.get(*arc as usize).copied() {
                let next = state_under(p, &self.picks, *arc, state);
                self.put(*arc, next);
            }
        }
    }

    // Each arc in its first state, each group with the decision that shuts least.
    fn open(alloc: Global, p: &Problem, grouped: &Grouped) -> Result<Choice, NoMemory> {
        let mut choice = Choice {
            picks: vec![in alloc; 0u32; p.groups().len()]?,
            states: first_states(alloc, p)?,
        };
        for (k, group) in p.groups().iter().enumerate() {
            choice.pick(
                p,
                grouped,
                index_of(k),
                open_most(group.decisions.as_slice()),
            );
        }
        Ok(choice)
    }

    // Takes a decision of a group where it strands less supply than this; how much is stranded then.
    fn try_pick(
        &mut self,
        alloc: Global,
        p: &Problem,
        grouped: &Grouped,
        group: u32,
        decision: u32,
        least: i64,
    ) -> Result<i64, NoMemory> {
        let mut other = self.copy(alloc)?;
        other.pick(p, grouped, group, decision);
        let left = stranded(alloc, p, &other.states)?;
        if left >= least {
            return Ok(least);
        }
        *self = other;
        Ok(left)
    }

    fn try_group(
        &mut self,
        alloc: Global,
        p: &Problem,
        grouped: &Grouped,
        work: &mut Work,
        group: u32,
        least: i64,
    ) -> Result<i64, NoMemory> {
        let mut least = least;
        let decisions = match p.groups().get(group as usize) {
            Some(group) => index_of(group.decisions.as_slice().len()),
            None => 0,
        };
        for decision in 0..decisions {
            if least == 0 || work.is_spent() {
                break;
            }
            work.take(size_of(p));
            least = self.try_pick(alloc, p, grouped, group, decision, least)?;
        }
        Ok(least)
    }

    fn sweep(
        &mut self,
        alloc: Global,
        p: &Problem,
        grouped: &Grouped,
        work: &mut Work,
        least: i64,
    ) -> Result<i64, NoMemory> {
        let mut least = least;
        for group in 0..index_of(p.groups().len()) {
            least = self.try_group(alloc, p, grouped, work, group, least)?;
        }
        Ok(least)
    }

    /// The choice that is proposed first: each arc in its first state and each group with the decision that shuts least,
    /// then decisions that strand less supply.
    pub fn first(
        alloc: Global,
        p: &Problem,
        grouped: &Grouped,
        work: &mut Work,
    ) -> Result<Choice, NoMemory> {
        let mut choice = Choice::open(alloc, p, grouped)?;
        let mut least = stranded(alloc, p, &choice.states)?;
        for _ in 0..SWEEPS {
            let before = least;
            least = choice.sweep(alloc, p, grouped, work, least)?;
            if least == before {
                break;
            }
        }
        Ok(choice)
    }
}
