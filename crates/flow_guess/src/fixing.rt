// Arcs whose flow lies outside of its bounds, and what may be done about them.
use crate::supplies::Supply;
use crate::way::{Way, flow_bounds, may_be};
use clamped::{index_of, number_at};
use gas_model::{ArcKind, ArcRow, ArcState, NoMemory, Problem};
use star_mesh::Parts;
use std::alloc::Global;

// What an arc is put into, with the way in which it then takes part.
#[derive(Clone, Copy)]
struct Remedy {
    state: ArcState,
    way: Way,
}

fn has_choices(kind: &ArcKind) -> bool {
    matches!(
        kind,
        ArcKind::Valve | ArcKind::Control { .. } | ArcKind::Station { .. }
    )
}

// An arc that carries so much in a state, where that lies outside of the bounds.
#[derive(Clone, Copy)]
struct Strayed {
    arc: u32,
    state: ArcState,
    flow: i64,
}

fn is_station(row: &ArcRow) -> bool {
    matches!(row.kind, ArcKind::Station { .. })
}

// Where the whole flow of an active arc may go through its bypass.
fn bypassed(p: &Problem, picks: &[u32], of: Strayed, row: &ArcRow) -> bool {
    of.state == ArcState::Active
        && may_be(p, picks, of.arc, ArcState::Bypass)
        && row.q_min <= of.flow
        && of.flow <= row.q_max
}

// Whether a station, which is a check valve, is held without flow.
fn held(p: &Problem, picks: &[u32], of: Strayed, row: &ArcRow) -> bool {
    let (low, high) = flow_bounds(row, of.state);
    is_station(row) && may_be(p, picks, of.arc, ArcState::Active) && of.flow.max(low).min(high) == 0
}

fn shut(p: &Problem, picks: &[u32], of: Strayed, row: &ArcRow) -> bool {
    let holds = is_station(row) && may_be(p, picks, of.arc, ArcState::Active);
    !holds && may_be(p, picks, of.arc, ArcState::Shut)
}

fn remedy_for(p: &Problem, picks: &[u32], of: Strayed) -> Option<Remedy> {
    let row = p.arcs().get(of.arc as usize)?;
    if bypassed(p, picks, of, row) {
        let (state, way) = (ArcState::Bypass, Way::Exact);
        return Some(Remedy { state, way });
    }
    if held(p, picks, of, row) {
        let (state, way) = (ArcState::Active, Way::Held);
        return Some(Remedy { state, way });
    }
    if shut(p, picks, of, row) {
        let (state, way) = (ArcState::Shut, Way::Shut);
        return Some(Remedy { state, way });
    }
    None
}

// The parts that arcs with flow join, without this one.
fn without(alloc: Global, p: &Problem, ways: &[Way], arc: u32) -> Result<Parts, NoMemory> {
    let mut parts = Parts::new(alloc, index_of(p.nodes().len()))?;
    for (i, row) in p.arcs().iter().enumerate() {
        let is_dead = ways.get(i).is_none_or(|way| way.is_dead());
        if index_of(i) != arc && !is_dead {
            parts.join(row.from, row.to);
        }
    }
    Ok(parts)
}

// Whether the supplies still meet without this arc.
fn meet_without(alloc: Global, p: &Problem, ways: &[Way], arc: u32) -> Result<bool, NoMemory> {
    let parts = without(alloc, p, ways, arc)?;
    Ok(Supply::of(alloc, p, &parts)?.stranded() == 0)
}

// An arc with choices whose flow strays.
fn stray_at(
    p: &Problem,
    states: &[ArcState],
    ways: &[Way],
    flows: &[i64],
    arc: u32,
) -> Option<Strayed> {
    let place = arc as usize;
    let row = p.arcs().get(place)?;
    let state = *states.get(place)?;
    if ways.get(place)?.is_dead() || !has_choices(&row.kind) {
        return None;
    }
    let flow = number_at(flows, place);
    let (low, high) = flow_bounds(row, state);
    if low <= flow && flow <= high {
        return None;
    }
    Some(Strayed { arc, state, flow })
}

fn put(states: &mut [ArcState], ways: &mut [Way], arc: u32, remedy: Remedy) {
    if let Some(state) = states.get_mut(arc as usize) {
        *state = remedy.state;
    }
    if let Some(way) = ways.get_mut(arc as usize) {
        *way = remedy.way;
    }
}

fn fix_arc(
    alloc: Global,
    p: &Problem,
    picks: &[u32],
    states: &mut [ArcState],
    ways: &mut [Way],
    of: Strayed,
) -> Result<bool, NoMemory> {
    let Some(remedy) = remedy_for(p, picks, of) else {
        return Ok(false);
    };
    if remedy.way.is_dead() && !meet_without(alloc, p, ways, of.arc)? {
        return Ok(false);
    }
    put(states, ways, of.arc, remedy);
    Ok(true)
}

/// Changes arcs that carry flow past their bounds, as far as the picked decisions allow it: an active arc goes into its
/// bypass, a station is held without flow, another arc is shut, where the supplies still meet without it. How many were
/// tried, and whether one was changed.
pub fn fix(
    alloc: Global,
    p: &Problem,
    picks: &[u32],
    states: &mut [ArcState],
    ways: &mut [Way],
    flows: &[i64],
) -> Result<(u32, bool), NoMemory> {
    let mut tried: u32 = 0;
    let mut changed = false;
    for arc in 0..index_of(p.arcs().len()) {
        if let Some(of) = stray_at(p, states, ways, flows, arc) {
            tried = tried.saturating_add(1);
            changed = fix_arc(alloc, p, picks, states, ways, of)? || changed;
        }
    }
    Ok((tried, changed))
}
