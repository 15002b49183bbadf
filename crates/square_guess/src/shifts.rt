// The least shifts of parts that meet all bounds, and the laws of arcs that leave room.
use crate::heights::{Heights, is_cut};
use crate::room::{FARTHEST, Room, square};
use clamped::{difference, index_at, index_of, number_at, put_index, put_number, sum};
use flow_guess::{Guess, Way};
use gas_model::{ArcKind, ArcRow, NoMemory, NodeRow, Problem};
use std::alloc::Global;

// So often lower ends are raised.
const SWEEPS: u32 = 64;

// The greatest pressure, in Pa.
const MOST_PRESSURE: i64 = 100_000_000;

/// No node or arc.
pub const NOBODY: u32 = u32::MAX;

/// An arc whose law leaves room, with the node that its flow leaves and the one that it enters.
#[derive(Clone, Copy, Debug)]
pub struct Cut {
    pub arc: u32,
    pub first: u32,
    pub second: u32,
    pub room: Room,
    pub in_min: i64,
    pub out_max: i64,
}

/// The least and the greatest shift of each part by the bounds, the shift that the laws raise it to, which node gave each of
/// the ends, and which arc raised it last.
#[derive(Debug, Drop)]
pub struct Shifts {
    pub shift: Vec<i64>,
    pub high: Vec<i64>,
    pub low_by: Vec<u32>,
    pub high_by: Vec<u32>,
    pub pulled_by: Vec<u32>,
}

fn loss_cut(low: i64, high: i64) -> (Room, i64, i64) {
    (Room::Fall { low, high }, 0, MOST_PRESSURE)
}

// The room of a kind, and the bounds of the pressures before and behind it.
fn room_of(kind: &ArcKind) -> Option<(Room, i64, i64)> {
    match kind {
        ArcKind::Loss { low, high } => Some(loss_cut(*low, *high)),
        ArcKind::Control {
            in_min,
            out_max,
            red_min,
            red_max,
        } => {
            let (low, high) = (*red_min, *red_max);
            Some((Room::Fall { low, high }, *in_min, *out_max))
        }
        ArcKind::Station {
            in_min,
            out_max,
            ratio_num,
            ratio_den,
            rise_max,
        } => {
            let (num, den, rise) = (*ratio_num, *ratio_den, *rise_max);
            Some((Room::Rise { num, den, rise }, *in_min, *out_max))
        }
        _ => None,
    }
}

fn cut_at(row: &ArcRow, arc: u32, turned: bool) -> Option<Cut> {
    let (room, in_min, out_max) = room_of(&row.kind)?;
    let (first, second) = if turned {
        (row.to, row.from)
    } else {
        (row.from, row.to)
    };
    Some(Cut {
        arc,
        first,
        second,
        room,
        in_min,
        out_max,
    })
}

/// The arcs at which the network is cut.
pub fn cuts_of(alloc: Global, p: &Problem, guess: &Guess) -> Result<Vec<Cut>, NoMemory> {
    let mut cuts = Vec::new(alloc);
    for (arc, row) in p.arcs().iter().enumerate() {
        let is_loss = guess.ways.get(arc) == Some(&Way::Loss);
        let turned = is_loss && number_at(&guess.flows, arc) < 0;
        if is_cut(guess, arc) {
            if let Some(cut) = cut_at(row, index_of(arc), turned) {
                cuts.push(cut)?;
            }
        }
    }
    Ok(cuts)
}

impl Shifts {
    fn raise_low(&mut self, heights: &Heights, node: u32, least: i64) {
        let part = heights.part(node);
        let least = difference(least, heights.above(node));
        if least > number_at(&self.shift, part) {
            put_number(&mut self.shift, part, least);
            put_index(&mut self.low_by, part, node);
        }
    }

    fn lower_high(&mut self, heights: &Heights, node: u32, most: i64) {
        let part = heights.part(node);
        let most = difference(most, heights.above(node));
        if most < number_at(&self.high, part) {
            put_number(&mut self.high, part, most);
            put_index(&mut self.high_by, part, node);
        }
    }

    fn bound_nodes(&mut self, heights: &Heights, nodes: &[NodeRow]) {
        for (i, node) in nodes.iter().enumerate() {
            self.raise_low(heights, index_of(i), square(node.p_min));
            self.lower_high(heights, index_of(i), square(node.p_max));
        }
    }

    fn bound_cuts(&mut self, heights: &Heights, cuts: &[Cut]) {
        for cut in cuts {
            self.raise_low(heights, cut.first, square(cut.in_min));
            self.lower_high(heights, cut.second, square(cut.out_max));
        }
    }

    /// The square of a node at the shift of its part, which counts as its cap at most.
    fn square_of(&self, heights: &Heights, node: u32) -> i64 {
        let part = heights.part(node);
        let shift = number_at(&self.shift, part).min(number_at(&self.high, part));
        sum(shift, heights.above(node))
    }

    // Raises the part of a node so far that its square is at least this; whether it moved.
    fn raise(&mut self, heights: &Heights, cut: Cut, node: u32, least: i64) -> bool {
        let part = heights.part(node);
        let least = difference(least, heights.above(node));
        if least <= number_at(&self.shift, part) {
            return false;
        }
        put_number(&mut self.shift, part, least);
        put_index(&mut self.low_by, part, node);
        put_index(&mut self.pulled_by, part, cut.arc);
        true
    }

    // Squares grow together within a part: the ratio of a station may be met further up; another law is met or isn't.
    fn raise_inner(
        &mut self,
        heights: &Heights,
        cut: Cut,
        is_first: bool,
        need: i64,
        has: i64,
    ) -> bool {
        let may = !is_first && matches!(cut.room, Room::Rise { .. }) && need > has;
        may && self.raise(heights, cut, cut.first, need)
    }

    fn raise_by(&mut self, heights: &Heights, cut: Cut, is_first: bool) -> bool {
        let first = self.square_of(heights, cut.first);
        let second = self.square_of(heights, cut.second);
        let need = cut.room.least_first(second);
        if heights.part(cut.first) == heights.part(cut.second) {
            return self.raise_inner(heights, cut, is_first, need, first);
        }
        let moved = self.raise(heights, cut, cut.first, need);
        self.raise(heights, cut, cut.second, cut.room.least_second(first)) || moved
    }

    fn sweep(&mut self, heights: &Heights, cuts: &[Cut], is_first: bool) -> bool {
        let mut moved = false;
        for cut in cuts {
            moved = self.raise_by(heights, *cut, is_first) || moved;
        }
        moved
    }

    /// The shifts of the parts.
    pub fn of(
        alloc: Global,
        p: &Problem,
        heights: &Heights,
        cuts: &[Cut],
    ) -> Result<Shifts, NoMemory> {
        let count = p.nodes().len();
        let mut shifts = Shifts {
            shift: vec![in alloc; -FARTHEST; count]?,
            high: vec![in alloc; FARTHEST; count]?,
            low_by: vec![in alloc; NOBODY; count]?,
            high_by: vec![in alloc; NOBODY; count]?,
            pulled_by: vec![in alloc; NOBODY; count]?,
        };
        shifts.bound_nodes(heights, p.nodes());
        shifts.bound_cuts(heights, cuts);
        for number in 0..SWEEPS {
            let moved = shifts.sweep(heights, cuts, number == 0);
            if !moved && number > 0 {
                break;
            }
        }
        Ok(shifts)
    }

    /// How far the shift of a part exceeds its cap, in Pa^2.
    pub fn excess(&self, part: usize) -> i64 {
        difference(number_at(&self.shift, part), number_at(&self.high, part)).max(0)
    }

    /// The node that asks for the shift of a part, the node that caps it, and the arc that raised it last.
    pub fn sides(&self, part: usize) -> (u32, u32, u32) {
        (
            index_at(&self.low_by, part),
            index_at(&self.high_by, part),
            index_at(&self.pulled_by, part),
        )
    }

    /// The square of a node, within its bounds.
    pub fn bounded(&self, heights: &Heights, node: u32, row: &NodeRow) -> i64 {
        self.square_of(heights, node)
            .max(square(row.p_min))
            .min(square(row.p_max))
    }
}
