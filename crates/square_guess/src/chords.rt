// What is left over on arcs outside of the forest.
use crate::heights::Heights;
use crate::room::FARTHEST;
use clamped::{difference, number_at, square_over, sum};
use flow_guess::{Guess, Way};
use gas_model::{ArcKind, ArcRow, Drag, Problem};

// The least and the greatest drop of the squares along a resistance at a flow.
fn drops(law: &Drag, flow: i64) -> (i64, i64) {
    let low = square_over(law.lo, flow, law.den);
    let high = square_over(law.hi, flow, law.den);
    if flow < 0 {
        (difference(0, high), difference(0, low))
    } else {
        (low, high)
    }
}

// How far a number lies outside of two others, and of a tolerance around them.
fn outside(low: i64, x: i64, high: i64, tol: i64) -> i64 {
    let below = difference(difference(low, tol), x);
    let above = difference(difference(x, high), tol);
    below.max(above).max(0)
}

// How far the squares at the ends of an arc miss its law, in Pa^2.
fn missed(row: &ArcRow, way: Way, flow: i64, fall: i64, tol: i64) -> i64 {
    match (row.kind, way) {
        (ArcKind::Pipe { law } | ArcKind::Resist { law }, Way::Drag) => {
            let (low, high) = drops(&law, flow);
            outside(low, fall, high, tol)
        }
        _ => outside(0, fall, 0, 0),
    }
}

fn missed_on(p: &Problem, guess: &Guess, heights: &Heights, tol: i64, arc: usize) -> i64 {
    let (Some(row), Some(way)) = (p.arcs().get(arc), guess.ways.get(arc)) else {
        return 0;
    };
    let is_chord = !guess.net.forest.has(arc) && matches!(way, Way::Drag | Way::Exact);
    if !is_chord || heights.part(row.from) != heights.part(row.to) {
        return 0;
    }
    let fall = difference(heights.above(row.from), heights.above(row.to));
    missed(row, *way, number_at(&guess.flows, arc), fall, tol).min(FARTHEST)
}

/// How far the squares miss the laws of arcs that lie outside of the forest and within one part, in Pa^2.
pub fn missed_on_chords(p: &Problem, guess: &Guess, heights: &Heights, tol: i64) -> i64 {
    let mut total = 0;
    for arc in 0..p.arcs().len() {
        total = sum(total, missed_on(p, guess, heights, tol, arc));
    }
    total
}
