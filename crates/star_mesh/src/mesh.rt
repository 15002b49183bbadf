// Potentials by elimination.
use crate::draft::Draft;
use clamped::{add_number, number_at, portion, put_number, scaled, share, sum};
use std::alloc::{AllocError, Global};

// Potentials lie within this.
const FARTHEST: i64 = 1 << 56;

/// The order in which the nodes of a network are eliminated: for each step the node, its neighbours with the slots of their
/// conductances, and the slots of pairs of neighbours, all in flat lists.
#[derive(Debug, Drop)]
pub struct Mesh {
    pub(crate) order: Vec<u32>,
    pub(crate) start: Vec<u32>,
    pub(crate) near: Vec<u32>,
    pub(crate) slot: Vec<u32>,
    pub(crate) pair_start: Vec<u32>,
    pub(crate) pair: Vec<u32>,
    pub(crate) slots: u32,
}

// What belongs to a step of the order, in a flat list.
fn part<'a>(list: &'a [u32], start: &[u32], step: usize) -> &'a [u32] {
    let (Some(from), Some(to)) = (start.get(step), start.get(step.saturating_add(1))) else {
        return &[];
    };
    match list.get(*from as usize..*to as usize) {
        Some(x) => x,
        None => &[],
    }
}

// Where that begins.
fn begin(start: &[u32], step: usize) -> usize {
    match start.get(step) {
        Some(x) => *x as usize,
        None => 0,
    }
}

fn whole_of(slots: &[u32], w: &[i64]) -> i64 {
    let mut whole = 0;
    for slot in slots {
        whole = sum(whole, number_at(w, *slot as usize));
    }
    whole
}

// Joins a neighbour, which has this share of the conductances of an eliminated node, to the neighbours that come after it.
fn join_pairs(share: i64, after: &[u32], pairs: &[u32], w: &mut [i64]) {
    for (slot, pair) in after.iter().zip(pairs.iter()) {
        let more = scaled(share, number_at(w, *slot as usize), 60);
        add_number(w, *pair as usize, more);
    }
}

impl Mesh {
    /// The order for a network of so many nodes with these edges, and the slot of each edge. Edges between the same two
    /// nodes share a slot. Its time and memory grow as what is joined in all steps.
    pub fn of(
        alloc: Global,
        nodes: u32,
        edges: &[(u32, u32)],
    ) -> Result<(Mesh, Vec<u32>), AllocError> {
        let mut draft = Draft::new(alloc, nodes)?;
        let slot_of = draft.link_all(alloc, edges)?;
        Ok((draft.finish(alloc)?, slot_of))
    }

    /// How many slots there are for conductances.
    pub fn slots(&self) -> usize {
        self.slots as usize
    }

    /// How many neighbours there are in all steps.
    pub fn reach(&self) -> usize {
        self.near.len()
    }

    /// The work of a solution, in units of a slot that is touched.
    pub fn work(&self) -> u64 {
        let pairs = self.pair.len() as u64;
        pairs.saturating_add((self.near.len() as u64).saturating_mul(6))
    }

    // Spreads what a node has over its neighbours; what is left is how far it lies above their mean.
    fn spread(&self, step: usize, node: u32, w: &[i64], b: &mut [i64], shares: &mut [i64]) {
        let slots = part(&self.slot, &self.start, step);
        let near = part(&self.near, &self.start, step);
        let whole = whole_of(slots, w);
        let own = number_at(b, node as usize);
        let mut at = begin(&self.start, step);
        for (j, slot) in near.iter().zip(slots.iter()) {
            let share = share(number_at(w, *slot as usize), whole);
            put_number(shares, at, share);
            add_number(b, *j as usize, scaled(own, share, 60));
            at = at.saturating_add(1);
        }
        put_number(b, node as usize, portion(own, 1 << 52, whole));
    }

    // Joins each pair of the neighbours of a node.
    fn join(&self, step: usize, w: &mut [i64], shares: &[i64]) {
        let slots = part(&self.slot, &self.start, step);
        let mut pairs = part(&self.pair, &self.pair_start, step);
        let mut at = begin(&self.start, step);
        for i in 0..slots.len() {
            let after = &slots[i + 1..];
            join_pairs(number_at(shares, at), after, pairs, w);
            pairs = pairs.get(after.len()..).unwrap_or(&[]);
            at = at.saturating_add(1);
        }
    }

    // The potential of a node, by those of the neighbours that it had when it went.
    fn potential(&self, step: usize, own: i64, shares: &[i64], s: &[i64]) -> i64 {
        let near = part(&self.near, &self.start, step);
        let mut at = begin(&self.start, step);
        let mut of = own;
        for j in near {
            let more = scaled(number_at(shares, at), number_at(s, *j as usize), 60);
            of = sum(of, more);
            at = at.saturating_add(1);
        }
        of.clamp(-FARTHEST, FARTHEST)
    }

    fn forth(&self, w: &mut [i64], b: &mut [i64], shares: &mut [i64]) {
        for (step, node) in self.order.iter().enumerate() {
            self.spread(step, *node, w, b, shares);
            self.join(step, w, shares);
        }
    }

    fn back(&self, b: &[i64], shares: &[i64], s: &mut [i64]) {
        for step in (0..self.order.len()).rev() {
            let node = self.order[step] as usize;
            let own = number_at(b, node);
            let of = self.potential(step, own, shares, s);
            put_number(s, node, of);
        }
    }

    /// Puts into `s` the potentials that send `b`, in units of 2^-8, through the conductances `w`, in units of 2^-60; they
    /// lie within 2^56, and the last node of each part has 0. `w` and `b` are used up, and `shares` has room for `reach`.
    pub fn solve(&self, w: &mut [i64], b: &mut [i64], shares: &mut [i64], s: &mut [i64]) {
        self.forth(w, b, shares);
        self.back(b, shares, s);
    }
}
