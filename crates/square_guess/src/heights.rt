// Squares within each part, up to one shift.
use crate::room::FARTHEST;
use clamped::{difference, index_at, index_of, number_at, put_index, put_number, sum};
use flow_guess::{Branch, Guess, Way, drop_of};
use gas_model::{ArcKind, ArcRow, NoMemory, Problem};
use std::alloc::Global;

/// The part of each node, by the node that it begins at, and how far its square lies above the square there, in Pa^2.
#[derive(Debug, Drop)]
pub struct Heights {
    part: Vec<u32>,
    above: Vec<i64>,
}

/// Whether the network is cut at an arc: its law leaves room.
pub fn is_cut(guess: &Guess, arc: usize) -> bool {
    match guess.ways.get(arc) {
        Some(Way::Active | Way::Held) => true,
        Some(Way::Loss) => number_at(&guess.flows, arc) != 0,
        _ => false,
    }
}

// What the squares drop by along an arc within a part, from its `from` to its `to`.
fn drop_along(row: &ArcRow, way: Option<&Way>, flow: i64) -> i64 {
    match (row.kind, way) {
        (ArcKind::Pipe { law } | ArcKind::Resist { law }, Some(Way::Drag)) => drop_of(&law, flow),
        _ => 0,
    }
}

fn own_parts(alloc: Global, count: usize) -> Result<Vec<u32>, NoMemory> {
    let mut part = Vec::new(alloc);
    for node in 0..count {
        part.push(index_of(node))?;
    }
    Ok(part)
}

impl Heights {
    /// The parts that the forest of a guess has between cuts.
    pub fn of(alloc: Global, p: &Problem, guess: &Guess) -> Result<Heights, NoMemory> {
        let count = p.nodes().len();
        let mut heights = Heights {
            part: own_parts(alloc, count)?,
            above: vec![in alloc; 0i64; count]?,
        };
        for branch in guess.net.forest.walk() {
            if !is_cut(guess, branch.arc as usize) {
                heights.climb(p, guess, *branch);
            }
        }
        Ok(heights)
    }

    fn climb(&mut self, p: &Problem, guess: &Guess, branch: Branch) {
        let arc = branch.arc as usize;
        let Some(row) = p.arcs().get(arc) else {
            return;
        };
        let drop = drop_along(row, guess.ways.get(arc), number_at(&guess.flows, arc));
        let rise = if row.from == branch.near {
            difference(0, drop)
        } else {
            drop
        };
        let above = sum(self.above(branch.near), rise).clamp(-FARTHEST, FARTHEST);
        let part = index_at(&self.part, branch.near as usize);
        put_number(&mut self.above, branch.far as usize, above);
        put_index(&mut self.part, branch.far as usize, part);
    }

    /// The part of a node.
    pub fn part(&self, node: u32) -> usize {
        index_at(&self.part, node as usize) as usize
    }

    /// How far the square of a node lies above that of its part, in Pa^2.
    pub fn above(&self, node: u32) -> i64 {
        number_at(&self.above, node as usize)
    }
}
