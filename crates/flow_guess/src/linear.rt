// Laws made linear at a flow.
use crate::plan::size_of;
use clamped::{difference, portion, scaled, share, share_of_product, square_over, sum};
use gas_model::Drag;

/// A linear law: the flow that a difference of squares drives is its product with the conductance, and what is kept. The
/// conductance is in units of 2^-60 l/h and Pa^2, what is kept in units of 2^-8 l/h.
#[derive(Clone, Copy, Debug)]
pub struct Linear {
    pub conductance: i64,
    pub kept: i64,
}

/// The conductance of an arc that leaves room, and of a constant loss whose flow is known.
pub const EASY: i64 = 1 << 52;

// The offset of the squares along an active arc, in Pa^2.
const OFFSET: i64 = 1 << 24;

// The least drop of a constant loss, in Pa^2.
const LEAST_DROP: i64 = 1 << 16;

fn limited(conductance: i64) -> i64 {
    conductance.clamp(1 << 8, 1 << 57)
}

// A flow in units of 2^-8 l/h.
pub fn fine(flow: i64) -> i64 {
    scaled(flow, 1 << 8, 0)
}

/// The drop of the squares along a resistance at a flow, at the middle of its interval.
pub fn drop_of(law: &Drag, flow: i64) -> i64 {
    let drop = square_over(sum(law.lo, law.hi), flow, sum(law.den, law.den));
    if flow < 0 { difference(0, drop) } else { drop }
}

/// The law of an active arc: its last flow is kept, so that in the end only a small offset is left between the squares.
pub fn active_law(flow: i64, rises: bool) -> Linear {
    let offset = if rises { OFFSET } else { -OFFSET };
    Linear {
        conductance: EASY,
        kept: sum(fine(flow.max(0)), offset),
    }
}

/// The law of a resistance before a flow is known.
pub fn first_drag(law: &Drag, typical: i64) -> Linear {
    let of_drag = share_of_product(law.den, sum(law.lo, law.hi), typical);
    Linear {
        conductance: limited(of_drag),
        kept: 0,
    }
}

/// The law of a resistance at a flow.
pub fn drag_law(law: &Drag, flow: i64, typical: i64) -> Linear {
    let size = size_of(flow).max(typical >> 12);
    let conductance = first_drag(law, size).conductance;
    let driven = scaled(conductance, drop_of(law, flow), 52);
    Linear {
        conductance,
        kept: difference(fine(flow), driven),
    }
}

// The middle drop of the squares along a constant loss that works near a pressure.
fn loss_drop(low: i64, high: i64, level: i64) -> i64 {
    let loss = sum(low, high) / 2;
    sum(scaled(sum(loss, loss), level, 0), scaled(loss, loss, 0)).max(LEAST_DROP)
}

/// The law of a constant loss whose flow has no known sign: a conductance that drives a flow of this size.
pub fn rough_loss(low: i64, high: i64, level: i64, size: i64) -> Linear {
    Linear {
        conductance: limited(share(size, loss_drop(low, high, level))),
        kept: 0,
    }
}

/// The law of a constant loss at a flow.
pub fn calm_loss(low: i64, high: i64, level: i64, flow: i64) -> Linear {
    let drop = loss_drop(low, high, level);
    let drop = if flow > 0 { drop } else { difference(0, drop) };
    Linear {
        conductance: EASY,
        kept: difference(fine(flow), drop),
    }
}

/// The flow of a linear law at a difference of squares, in l/h.
pub fn flow_at(law: Linear, fall: i64) -> i64 {
    let flow = sum(law.kept, scaled(law.conductance, fall, 52));
    portion(flow, 1, 1 << 8)
}
