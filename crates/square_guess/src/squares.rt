// The squares, and what they miss.
use crate::chords::missed_on_chords;
use crate::heights::Heights;
use crate::shifts::{Cut, NOBODY, Shifts, cuts_of};
use clamped::{difference, index_of, number_at, sum};
use flow_guess::Guess;
use gas_model::{ArcKind, NoMemory, Problem};
use std::alloc::Global;

/// A part whose shift exceeds its cap, by so much in Pa^2: the node that asks for it, the node that caps it, and the arc
/// that raised it last.
#[derive(Clone, Copy, Debug)]
pub struct Clash {
    pub excess: i64,
    pub low: Option<u32>,
    pub high: Option<u32>,
    pub pulled_by: Option<u32>,
}

/// An arc whose law the squares at its ends miss, by so much in Pa^2.
#[derive(Clone, Copy, Debug)]
pub struct Missed {
    pub excess: i64,
    pub arc: u32,
}

/// A square for each node in Pa^2, within its bounds, and what the squares miss.
#[derive(Debug, Drop)]
pub struct Squares {
    pub squares: Vec<i64>,
    /// All that is missed, in Pa^2.
    pub excess: i64,
    /// What constant losses miss.
    pub by_losses: i64,
    pub clashes: Vec<Clash>,
    pub missed: Vec<Missed>,
}

fn somebody(place: u32) -> Option<u32> {
    if place == NOBODY { None } else { Some(place) }
}

fn is_loss(p: &Problem, arc: u32) -> bool {
    match p.arcs().get(arc as usize) {
        Some(row) => matches!(row.kind, ArcKind::Loss { .. }),
        None => false,
    }
}

fn clash_of(shifts: &Shifts, part: usize, excess: i64) -> Clash {
    let (low, high, pulled_by) = shifts.sides(part);
    Clash {
        excess,
        low: somebody(low),
        high: somebody(high),
        pulled_by: somebody(pulled_by),
    }
}

impl Squares {
    /// The squares for the flows of a guess, with a tolerance in Pa^2.
    pub fn of(alloc: Global, p: &Problem, guess: &Guess, tol: i64) -> Result<Squares, NoMemory> {
        let heights = Heights::of(alloc, p, guess)?;
        let cuts = cuts_of(alloc, p, guess)?;
        let shifts = Shifts::of(alloc, p, &heights, &cuts)?;
        let mut squares = Squares {
            squares: bounded(alloc, p, &heights, &shifts)?,
            excess: missed_on_chords(p, guess, &heights, tol),
            by_losses: 0,
            clashes: Vec::new(alloc),
            missed: Vec::new(alloc),
        };
        squares.clash(p, &heights, &shifts)?;
        squares.miss(p, &heights, &cuts, tol)?;
        Ok(squares)
    }

    fn clash(&mut self, p: &Problem, heights: &Heights, shifts: &Shifts) -> Result<(), NoMemory> {
        for node in 0..p.nodes().len() {
            let excess = shifts.excess(node);
            if heights.part(index_of(node)) == node && excess > 0 {
                self.excess = sum(self.excess, excess);
                self.clashes.push(clash_of(shifts, node, excess))?;
            }
        }
        Ok(())
    }

    // How far the squares at the ends of a cut miss its law.
    fn missed_at(&self, p: &Problem, cut: Cut, tol: i64) -> i64 {
        let first = number_at(&self.squares, cut.first as usize);
        let second = number_at(&self.squares, cut.second as usize);
        let slack = if is_loss(p, cut.arc) { tol } else { 0 };
        let below = difference(cut.room.least_first(second), sum(first, slack));
        let above = difference(cut.room.least_second(difference(first, slack)), second);
        below.max(above)
    }

    fn miss(
        &mut self,
        p: &Problem,
        heights: &Heights,
        cuts: &[Cut],
        tol: i64,
    ) -> Result<(), NoMemory> {
        for cut in cuts {
            let within = heights.part(cut.first) == heights.part(cut.second);
            let excess = self.missed_at(p, *cut, tol);
            if excess > 0 && (within || self.clashes.is_empty()) {
                self.note(
                    p,
                    Missed {
                        excess,
                        arc: cut.arc,
                    },
                )?;
            }
        }
        Ok(())
    }

    fn note(&mut self, p: &Problem, missed: Missed) -> Result<(), NoMemory> {
        self.excess = sum(self.excess, missed.excess);
        if is_loss(p, missed.arc) {
            self.by_losses = sum(self.by_losses, missed.excess);
        }
        self.missed.push(missed)?;
        Ok(())
    }
}

fn bounded(
    alloc: Global,
    p: &Problem,
    heights: &Heights,
    shifts: &Shifts,
) -> Result<Vec<i64>, NoMemory> {
    let mut squares = Vec::new(alloc);
    for (node, row) in p.nodes().iter().enumerate() {
        squares.push(shifts.bounded(heights, index_of(node), row))?;
    }
    Ok(squares)
}
