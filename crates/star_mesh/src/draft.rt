// The order of elimination, while it is made.
use crate::mesh::Mesh;
use clamped::index_of;
use std::alloc::{AllocError, Global};
use std::mem;

// No more nodes are looked at than this, over all steps.
const LONGEST: u64 = 1 << 40;

// A neighbour, and the slot of the conductance to it.
#[derive(Clone, Copy, Debug)]
struct Link {
    node: u32,
    slot: u32,
}

// The node whose neighbours were marked last, and the slot of its conductance to this one.
#[derive(Clone, Copy, Debug)]
struct Mark {
    by: u32,
    slot: u32,
}

const NOBODY: u32 = u32::MAX;

// The neighbours of the nodes that are left, and the nodes by how many they have. A node stands in more than one place; only
// that of its number counts.
#[derive(Debug, Drop)]
pub struct Draft {
    links: Vec<Vec<Link>>,
    by_degree: Vec<Vec<u32>>,
    gone: Vec<bool>,
    marks: Vec<Mark>,
    least: usize,
    mesh: Mesh,
}

fn empty_mesh(alloc: Global) -> Result<Mesh, AllocError> {
    Ok(Mesh {
        order: Vec::new(alloc),
        start: vec![in alloc; 0u32]?,
        near: Vec::new(alloc),
        slot: Vec::new(alloc),
        pair_start: vec![in alloc; 0u32]?,
        pair: Vec::new(alloc),
        slots: 0,
    })
}

fn no_links(alloc: Global, count: u32) -> Result<Vec<Vec<Link>>, AllocError> {
    let mut lists = Vec::new(alloc);
    for _ in 0..count {
        lists.push(Vec::new(alloc))?;
    }
    Ok(lists)
}

fn no_nodes(alloc: Global, count: u32) -> Result<Vec<Vec<u32>>, AllocError> {
    let mut lists = Vec::new(alloc);
    for _ in 0..count {
        lists.push(Vec::new(alloc))?;
    }
    Ok(lists)
}

fn slot_to(links: &[Link], node: u32) -> Option<u32> {
    let link = links.iter().find(|link| link.node == node)?;
    Some(link.slot)
}

impl Draft {
    // So many nodes without an edge.
    pub fn new(alloc: Global, nodes: u32) -> Result<Draft, AllocError> {
        let mark = Mark {
            by: NOBODY,
            slot: 0,
        };
        Ok(Draft {
            links: no_links(alloc, nodes)?,
            by_degree: no_nodes(alloc, nodes.saturating_add(1))?,
            gone: vec![in alloc; false; nodes as usize]?,
            marks: vec![in alloc; mark; nodes as usize]?,
            least: 0,
            mesh: empty_mesh(alloc)?,
        })
    }

    fn degree(&self, node: u32) -> usize {
        match self.links.get(node as usize) {
            Some(links) => links.len(),
            None => 0,
        }
    }

    fn slot_between(&self, x: u32, y: u32) -> Option<u32> {
        let (near, far) = if self.degree(x) <= self.degree(y) {
            (x, y)
        } else {
            (y, x)
        };
        slot_to(self.links.get(near as usize)?, far)
    }

    fn note(&mut self, node: u32, link: Link) -> Result<(), AllocError> {
        if let Some(links) = self.links.get_mut(node as usize) {
            links.push(link)?;
        }
        Ok(())
    }

    // A new slot between two nodes.
    fn add(&mut self, x: u32, y: u32) -> Result<u32, AllocError> {
        let slot = self.mesh.slots;
        self.mesh.slots = slot.saturating_add(1);
        self.note(x, Link { node: y, slot })?;
        self.note(y, Link { node: x, slot })?;
        Ok(slot)
    }

    fn link(&mut self, x: u32, y: u32) -> Result<u32, AllocError> {
        match self.slot_between(x, y) {
            Some(slot) => Ok(slot),
            None => self.add(x, y),
        }
    }

    // The slot of each edge.
    pub fn link_all(
        &mut self,
        alloc: Global,
        edges: &[(u32, u32)],
    ) -> Result<Vec<u32>, AllocError> {
        let mut slots = Vec::new(alloc);
        for (x, y) in edges {
            slots.push(self.link(*x, *y)?)?;
        }
        Ok(slots)
    }

    // Puts a node where its number of neighbours says.
    fn file(&mut self, node: u32) -> Result<(), AllocError> {
        let degree = self.degree(node);
        if let Some(nodes) = self.by_degree.get_mut(degree) {
            nodes.push(node)?;
        }
        self.least = self.least.min(degree);
        Ok(())
    }

    fn file_all(&mut self) -> Result<(), AllocError> {
        for node in (0..self.links.len()).rev() {
            self.file(index_of(node))?;
        }
        Ok(())
    }

    fn is_left(&self, node: u32, degree: usize) -> bool {
        match self.gone.get(node as usize) {
            Some(gone) => !*gone && self.degree(node) == degree,
            None => false,
        }
    }

    // The next node with the fewest neighbours.
    fn next(&mut self) -> Option<u32> {
        for _ in 0..LONGEST {
            let nodes = self.by_degree.get_mut(self.least)?;
            match nodes.pop() {
                None => self.least = self.least.saturating_add(1),
                Some(node) => {
                    if self.is_left(node, self.least) {
                        return Some(node);
                    }
                }
            }
        }
        None
    }

    // Takes the neighbours of a node that goes.
    fn take(&mut self, alloc: Global, node: u32) -> Vec<Link> {
        if let Some(gone) = self.gone.get_mut(node as usize) {
            *gone = true;
        }
        match self.links.get_mut(node as usize) {
            Some(links) => mem::replace(links, Vec::new(alloc)),
            None => Vec::new(alloc),
        }
    }

    fn unlink(&mut self, node: u32, from: u32) {
        if let Some(links) = self.links.get_mut(node as usize) {
            if let Some(place) = links.iter().position(|link| link.node == from) {
                links.swap_remove(place);
            }
        }
    }

    fn mark(&mut self, node: u32) {
        if let Some(links) = self.links.get(node as usize) {
            for link in links {
                if let Some(mark) = self.marks.get_mut(link.node as usize) {
                    *mark = Mark {
                        by: node,
                        slot: link.slot,
                    };
                }
            }
        }
    }

    // The slot between a node whose neighbours are marked and another one.
    fn marked(&mut self, node: u32, other: u32) -> Result<u32, AllocError> {
        match self.marks.get(other as usize) {
            Some(mark) if mark.by == node => Ok(mark.slot),
            _ => self.add(node, other),
        }
    }

    fn pair(&mut self, node: u32, others: &[Link]) -> Result<(), AllocError> {
        self.mark(node);
        for other in others {
            let slot = self.marked(node, other.node)?;
            self.mesh.pair.push(slot)?;
        }
        Ok(())
    }

    fn pair_all(&mut self, node: u32, links: &[Link]) -> Result<(), AllocError> {
        for (i, link) in links.iter().enumerate() {
            self.unlink(link.node, node);
            self.pair(link.node, &links[i + 1..])?;
        }
        Ok(())
    }

    // Records the neighbours of a node that goes.
    fn record(&mut self, links: &[Link]) -> Result<(), AllocError> {
        for link in links {
            self.mesh.near.push(link.node)?;
            self.mesh.slot.push(link.slot)?;
            self.file(link.node)?;
        }
        Ok(())
    }

    fn eliminate(&mut self, alloc: Global, node: u32) -> Result<(), AllocError> {
        let links = self.take(alloc, node);
        self.pair_all(node, &links)?;
        self.record(&links)?;
        self.mesh.order.push(node)?;
        let near = u32::try_from(self.mesh.near.len()).unwrap_or(u32::MAX);
        self.mesh.start.push(near)?;
        let pairs = u32::try_from(self.mesh.pair.len()).unwrap_or(u32::MAX);
        self.mesh.pair_start.push(pairs)?;
        Ok(())
    }

    // Eliminates all nodes.
    pub fn finish(mut self, alloc: Global) -> Result<Mesh, AllocError> {
        self.file_all()?;
        for _ in 0..self.links.len() {
            let Some(node) = self.next() else {
                break;
            };
            self.eliminate(alloc, node)?;
        }
        Ok(self.mesh)
    }
}
