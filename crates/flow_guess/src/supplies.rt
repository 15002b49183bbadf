// Supplies that meet within each part.
use clamped::{add_number, difference, index_of, number_at, portion, put_number, sum};
use gas_model::{ArcState, NoMemory, NodeRow, Problem};
use star_mesh::Parts;
use std::alloc::Global;

/// The least and the greatest supply of each part, at the node that stands for it, and the least where each sink takes as
/// little as it may.
#[derive(Debug, Drop)]
pub struct Supply {
    low: Vec<i64>,
    high: Vec<i64>,
    least: Vec<i64>,
}

/// The parts that arcs join which aren't shut.
pub fn joined(alloc: Global, p: &Problem, states: &[ArcState]) -> Result<Parts, NoMemory> {
    let mut parts = Parts::new(alloc, index_of(p.nodes().len()))?;
    for (row, state) in p.arcs().iter().zip(states.iter()) {
        if *state != ArcState::Shut {
            parts.join(row.from, row.to);
        }
    }
    Ok(parts)
}

// The supply of a node where sinks take as little as they may.
fn spared(node: &NodeRow) -> i64 {
    if node.b_max <= 0 {
        node.b_max
    } else {
        node.b_min
    }
}

impl Supply {
    /// The supplies of parts.
    pub fn of(alloc: Global, p: &Problem, parts: &Parts) -> Result<Supply, NoMemory> {
        let count = p.nodes().len();
        let mut low = vec![in alloc; 0i64; count]?;
        let mut high = vec![in alloc; 0i64; count]?;
        let mut least = vec![in alloc; 0i64; count]?;
        for (i, node) in p.nodes().iter().enumerate() {
            let part = parts.of(index_of(i)) as usize;
            add_number(&mut low, part, node.b_min);
            add_number(&mut high, part, node.b_max);
            add_number(&mut least, part, spared(node));
        }
        Ok(Supply { low, high, least })
    }

    /// Whether the supplies of the part that a node stands for can't be balanced.
    pub fn is_stranded(&self, part: u32) -> bool {
        number_at(&self.low, part as usize) > 0 || number_at(&self.high, part as usize) < 0
    }

    /// How much supply stays where it is, over all parts, in l/h.
    pub fn stranded(&self) -> i64 {
        let mut total = 0;
        for (low, high) in self.low.iter().zip(self.high.iter()) {
            total = sum(total, difference((*low).max(0), (*high).min(0)));
        }
        total
    }

    // Whether a node is a sink that takes as little as it may.
    fn is_pinned(&self, node: &NodeRow, part: usize) -> bool {
        node.b_max <= 0 && number_at(&self.least, part) <= 0
    }

    // Takes the room of pinned sinks out of the sums.
    fn pin(&mut self, p: &Problem, parts: &Parts) {
        for (i, node) in p.nodes().iter().enumerate() {
            let part = parts.of(index_of(i)) as usize;
            if self.is_pinned(node, part) {
                add_number(&mut self.low, part, difference(node.b_max, node.b_min));
            }
        }
    }

    // The supply of a node at the share of its bounds that all nodes of its part have.
    fn shared(&self, node: &NodeRow, part: usize) -> i64 {
        if self.is_pinned(node, part) {
            return node.b_max;
        }
        let low = number_at(&self.low, part);
        let room = difference(number_at(&self.high, part), low).max(0);
        let above = difference(0, low).clamp(0, room);
        let own = difference(node.b_max, node.b_min).max(0);
        sum(node.b_min, portion(own, above, room))
    }

    // The supply of each node, and what is left over in each part.
    fn share_out(
        &self,
        p: &Problem,
        parts: &Parts,
        supplies: &mut Vec<i64>,
        left: &mut [i64],
    ) -> Result<(), NoMemory> {
        for (i, node) in p.nodes().iter().enumerate() {
            let part = parts.of(index_of(i)) as usize;
            let supply = self.shared(node, part);
            supplies.push(supply)?;
            add_number(left, part, difference(0, supply));
        }
        Ok(())
    }

    /// A supply for each node, which meet in each part where they can: sinks take as little as they may where the sources
    /// can be that low, and each other supply stands at the same share of its bounds.
    pub fn balanced(
        mut self,
        alloc: Global,
        p: &Problem,
        parts: &Parts,
    ) -> Result<Vec<i64>, NoMemory> {
        self.pin(p, parts);
        let mut supplies = Vec::new(alloc);
        let mut left = vec![in alloc; 0i64; p.nodes().len()]?;
        self.share_out(p, parts, &mut supplies, &mut left)?;
        round_off(p, parts, &mut supplies, &mut left);
        Ok(supplies)
    }
}

// Gives what rounding left over to the first nodes that have room.
fn round_off(p: &Problem, parts: &Parts, supplies: &mut [i64], left: &mut [i64]) {
    for (i, node) in p.nodes().iter().enumerate() {
        let part = parts.of(index_of(i)) as usize;
        let supply = number_at(supplies, i);
        let less = difference(node.b_min, supply).min(0);
        let more = difference(node.b_max, supply).max(0);
        let change = number_at(left, part).max(less).min(more);
        put_number(supplies, i, sum(supply, change));
        add_number(left, part, difference(0, change));
    }
}

/// How much supply stays where it is, over all parts that arcs join which aren't shut, in l/h.
pub fn stranded(alloc: Global, p: &Problem, states: &[ArcState]) -> Result<i64, NoMemory> {
    let parts = joined(alloc, p, states)?;
    Ok(Supply::of(alloc, p, &parts)?.stranded())
}
