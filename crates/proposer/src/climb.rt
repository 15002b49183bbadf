// Paths in a forest.
use clamped::{index_at, put_index};
use flow_guess::Forest;
use gas_model::NoMemory;
use std::alloc::Global;

/// The arc from each node towards its root, the node behind that arc, and how many arcs it is to the root.
#[derive(Debug, Drop)]
pub struct Climb {
    arc: Vec<u32>,
    near: Vec<u32>,
    depth: Vec<u32>,
}

impl Climb {
    /// The ways up in a forest of so many nodes.
    pub fn of(alloc: Global, forest: &Forest, nodes: usize) -> Result<Climb, NoMemory> {
        let mut climb = Climb {
            arc: vec![in alloc; 0u32; nodes]?,
            near: vec![in alloc; 0u32; nodes]?,
            depth: vec![in alloc; 0u32; nodes]?,
        };
        for branch in forest.walk() {
            climb.put(branch.far as usize, branch.arc, branch.near);
        }
        Ok(climb)
    }

    fn put(&mut self, far: usize, arc: u32, near: u32) {
        let depth = index_at(&self.depth, near as usize).saturating_add(1);
        put_index(&mut self.arc, far, arc);
        put_index(&mut self.near, far, near);
        put_index(&mut self.depth, far, depth);
    }

    fn depth(&self, node: u32) -> u32 {
        index_at(&self.depth, node as usize)
    }

    // The next arc of the path between two nodes, and the two nodes after it.
    fn step(&self, x: u32, y: u32) -> Option<(u32, u32, u32)> {
        if x == y {
            return None;
        }
        let at = if self.depth(x) >= self.depth(y) { x } else { y };
        if self.depth(at) == 0 {
            return None;
        }
        let arc = index_at(&self.arc, at as usize);
        let near = index_at(&self.near, at as usize);
        if at == x {
            Some((arc, near, y))
        } else {
            Some((arc, x, near))
        }
    }

    /// The arcs of the path between two nodes of a tree; from the nodes of two trees, those up to their roots.
    pub fn path(&self, alloc: Global, x: u32, y: u32) -> Result<Vec<u32>, NoMemory> {
        let (mut x, mut y) = (x, y);
        let mut path = Vec::new(alloc);
        for _ in 0..self.arc.len() {
            let Some((arc, next_x, next_y)) = self.step(x, y) else {
                break;
            };
            path.push(arc)?;
            x = next_x;
            y = next_y;
        }
        Ok(path)
    }
}
