// Sets of nodes that grow together.
use clamped::{index_at, put_index};
use std::alloc::{AllocError, Global};

// No set lies deeper than this, since each is at least as large as what is joined to it.
const DEEPEST: u32 = 32;

/// Nodes in sets: each begins alone, and sets are joined.
#[derive(Debug, Drop)]
pub struct Parts {
    up: Vec<u32>,
    size: Vec<u32>,
}

impl Parts {
    /// So many nodes, each alone.
    pub fn new(alloc: Global, count: u32) -> Result<Parts, AllocError> {
        let mut up = Vec::new(alloc);
        for node in 0..count {
            up.push(node)?;
        }
        let size = vec![in alloc; 1u32; count as usize]?;
        Ok(Parts { up, size })
    }

    /// The node that stands for the set of a node.
    pub fn of(&self, node: u32) -> u32 {
        let mut at = node;
        for _ in 0..DEEPEST {
            let up = index_at(&self.up, at as usize);
            if up == at {
                break;
            }
            at = up;
        }
        at
    }

    /// Joins the sets of two nodes; `false` where they are one set already.
    pub fn join(&mut self, x: u32, y: u32) -> bool {
        let (x, y) = (self.of(x), self.of(y));
        if x == y {
            return false;
        }
        let (m, n) = (
            index_at(&self.size, x as usize),
            index_at(&self.size, y as usize),
        );
        let (small, great) = if m < n { (x, y) } else { (y, x) };
        put_index(&mut self.up, small as usize, great);
        put_index(&mut self.size, great as usize, m.saturating_add(n));
        true
    }
}
