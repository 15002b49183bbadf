// How an arc takes part in a network of flows.
use gas_model::{ArcKind, ArcRow, ArcState, Problem};

/// How an arc takes part: its ends have equal squares, or it drops them by a resistance or by a constant loss, or it is
/// active and leaves room, or it is active without flow, or shut.
#[derive(Clone, Copy, Debug, PartialEq, Eq)]
pub enum Way {
    Exact,
    Drag,
    Loss,
    Active,
    Held,
    Shut,
}

fn opened(kind: &ArcKind) -> Way {
    match kind {
        ArcKind::Pipe { .. } | ArcKind::Resist { .. } => Way::Drag,
        ArcKind::Loss { .. } => Way::Loss,
        _ => Way::Exact,
    }
}

impl Way {
    /// The way of a kind in a state.
    pub fn of(kind: &ArcKind, state: ArcState) -> Way {
        match state {
            ArcState::Shut => Way::Shut,
            ArcState::Active => Way::Active,
            ArcState::Bypass => Way::Exact,
            ArcState::Opened => opened(kind),
        }
    }

    /// Whether no flow goes that way.
    pub fn is_dead(self) -> bool {
        self == Way::Held || self == Way::Shut
    }
}

/// Whether an arc may be in a state under these picks.
pub fn may_be(p: &Problem, picks: &[u32], arc: u32, state: ArcState) -> bool {
    (arc as usize) < p.arcs().len() && p.may_be(picks, arc, state)
}

/// The least and the greatest flow of an arc in a state.
pub fn flow_bounds(row: &ArcRow, state: ArcState) -> (i64, i64) {
    match state {
        ArcState::Shut => (0, 0),
        ArcState::Active => (row.q_min.max(0), row.q_max),
        _ => (row.q_min, row.q_max),
    }
}
