// A spanning forest of the arcs that carry flow.
use crate::way::Way;
use clamped::{add_number, difference, flag_at, index_of, number_at, put_flag, put_number};
use gas_model::{NoMemory, Problem};
use star_mesh::Parts;
use std::alloc::Global;

// Flows lie within this, in l/h; past it none is allowed anyway.
pub const MOST_FLOW: i64 = 1 << 41;

/// An arc of a tree, with its node nearer to the root and the one farther from it.
#[derive(Clone, Copy, Debug)]
pub struct Branch {
    pub arc: u32,
    pub near: u32,
    pub far: u32,
}

/// A spanning forest: which arcs are in it, and its branches from the roots outward. Easy arcs come first, so that what
/// rounding leaves over ends up on them, and active ones last.
#[derive(Debug, Drop)]
pub struct Forest {
    in_tree: Vec<bool>,
    walk: Vec<Branch>,
}

// Joins what arcs of one way join, in the given order.
fn grow(
    p: &Problem,
    arcs: &[u32],
    ways: &[Way],
    way: Way,
    parts: &mut Parts,
    in_tree: &mut [bool],
) {
    for arc in arcs {
        let arc = *arc as usize;
        if let (Some(row), Some(own)) = (p.arcs().get(arc), ways.get(arc)) {
            if *own == way && parts.join(row.from, row.to) {
                put_flag(in_tree, arc, true);
            }
        }
    }
}

// What is walked so far.
#[derive(Drop)]
struct Walker {
    seen: Vec<bool>,
    queue: Vec<u32>,
    walk: Vec<Branch>,
}

impl Walker {
    fn enter(&mut self, p: &Problem, near: u32, arc: u32) -> Result<(), NoMemory> {
        let Some(row) = p.arcs().get(arc as usize) else {
            return Ok(());
        };
        let far = if row.from == near { row.to } else { row.from };
        if !flag_at(&self.seen, far as usize) {
            put_flag(&mut self.seen, far as usize, true);
            self.queue.push(far)?;
            self.walk.push(Branch { arc, near, far })?;
        }
        Ok(())
    }

    fn visit(&mut self, p: &Problem, in_tree: &[bool], node: u32) -> Result<(), NoMemory> {
        if node as usize >= p.nodes().len() {
            return Ok(());
        }
        for arc in p.arcs_at(node) {
            if flag_at(in_tree, *arc as usize) {
                self.enter(p, node, *arc)?;
            }
        }
        Ok(())
    }

    fn spread(&mut self, p: &Problem, in_tree: &[bool], root: u32) -> Result<(), NoMemory> {
        if flag_at(&self.seen, root as usize) {
            return Ok(());
        }
        put_flag(&mut self.seen, root as usize, true);
        let first = self.queue.len();
        self.queue.push(root)?;
        for step in 0..p.nodes().len() {
            let Some(node) = self.queue.get(first.saturating_add(step)).copied() else {
                break;
            };
            self.visit(p, in_tree, node)?;
        }
        Ok(())
    }
}

fn walk_of(alloc: Global, p: &Problem, in_tree: &[bool]) -> Result<Vec<Branch>, NoMemory> {
    let count = p.nodes().len();
    let mut walker = Walker {
        seen: vec![in alloc; false; count]?,
        queue: Vec::new(alloc),
        walk: Vec::new(alloc),
    };
    for root in 0..count {
        walker.spread(p, in_tree, index_of(root))?;
    }
    let Walker { walk, .. } = walker;
    Ok(walk)
}

impl Forest {
    /// The forest of a network, and the parts that its exact arcs join.
    pub fn of(
        alloc: Global,
        p: &Problem,
        easy: &[u32],
        ways: &[Way],
    ) -> Result<(Forest, Parts), NoMemory> {
        let count = index_of(p.nodes().len());
        let mut in_tree = vec![in alloc; false; p.arcs().len()]?;
        let mut exact = Parts::new(alloc, count)?;
        grow(p, easy, ways, Way::Exact, &mut exact, &mut in_tree);
        let mut parts = Parts::new(alloc, count)?;
        grow(p, easy, ways, Way::Exact, &mut parts, &mut in_tree);
        grow(p, easy, ways, Way::Drag, &mut parts, &mut in_tree);
        grow(p, easy, ways, Way::Loss, &mut parts, &mut in_tree);
        grow(p, easy, ways, Way::Active, &mut parts, &mut in_tree);
        let walk = walk_of(alloc, p, &in_tree)?;
        Ok((Forest { in_tree, walk }, exact))
    }

    /// Whether an arc is in the forest.
    pub fn has(&self, arc: usize) -> bool {
        flag_at(&self.in_tree, arc)
    }

    /// The branches from the roots outward.
    pub fn walk(&self) -> &[Branch] {
        &self.walk
    }

    // What the flows outside of the forest leave over at each node.
    fn left_over(&self, p: &Problem, supplies: &[i64], flows: &[i64], left: &mut [i64]) {
        for (arc, row) in p.arcs().iter().enumerate() {
            let flow = number_at(flows, arc);
            if flow != 0 && !self.has(arc) {
                add_number(left, row.from as usize, difference(0, flow));
                add_number(left, row.to as usize, flow);
            }
        }
    }

    fn carry(&self, p: &Problem, flows: &mut [i64], left: &mut [i64]) {
        for branch in self.walk.iter().rev() {
            let arc = branch.arc as usize;
            let over = number_at(left, branch.far as usize);
            let flow = over.clamp(-MOST_FLOW, MOST_FLOW);
            if let Some(row) = p.arcs().get(arc) {
                let flow = if row.from == branch.far {
                    flow
                } else {
                    difference(0, flow)
                };
                put_number(flows, arc, flow);
            }
            add_number(left, branch.near as usize, over);
        }
    }

    /// Gives the arcs of the forest, from the leaves inward, the flow that balances their far node. `left` has room for all
    /// nodes.
    pub fn balance(&self, p: &Problem, supplies: &[i64], flows: &mut [i64], left: &mut [i64]) {
        for (left, supply) in left.iter_mut().zip(supplies.iter()) {
            *left = *supply;
        }
        self.left_over(p, supplies, flows, left);
        self.carry(p, flows, left);
    }
}
