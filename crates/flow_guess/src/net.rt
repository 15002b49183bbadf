// The network of a choice of states, where exact arcs are drawn to one place.
use crate::forest::Forest;
use crate::plan::Plan;
use crate::way::Way;
use clamped::{index_at, index_of, put_index};
use gas_model::{NoMemory, Problem};
use star_mesh::{Mesh, Parts};
use std::alloc::Global;

/// An arc between two places.
#[derive(Clone, Copy, Debug)]
pub struct Edge {
    pub arc: u32,
    pub from: u32,
    pub to: u32,
}

/// A network: its forest, the place of each node, and the arcs between places with the order in which places are eliminated.
/// Where no arc lies outside of the forest, balance alone tells the flows.
#[derive(Debug, Drop)]
pub struct Net {
    pub forest: Forest,
    pub edges: Vec<Edge>,
    pub slot_of: Vec<u32>,
    pub mesh: Mesh,
    pub has_loops: bool,
    place_of: Vec<u32>,
}

const UNNAMED: u32 = u32::MAX;

// A number for each part, in the order of the nodes; and how many there are.
fn places(alloc: Global, count: usize, parts: &Parts) -> Result<(Vec<u32>, u32), NoMemory> {
    let mut names = vec![in alloc; UNNAMED; count]?;
    let mut place_of = Vec::new(alloc);
    let mut places: u32 = 0;
    for node in 0..count {
        let part = parts.of(index_of(node)) as usize;
        if index_at(&names, part) == UNNAMED {
            put_index(&mut names, part, places);
            places = places.saturating_add(1);
        }
        place_of.push(index_at(&names, part))?;
    }
    Ok((place_of, places))
}

fn carries(way: Way) -> bool {
    matches!(way, Way::Drag | Way::Loss | Way::Active)
}

fn edges_of(
    alloc: Global,
    p: &Problem,
    ways: &[Way],
    place_of: &[u32],
) -> Result<Vec<Edge>, NoMemory> {
    let mut edges = Vec::new(alloc);
    for (arc, row) in p.arcs().iter().enumerate() {
        let from = index_at(place_of, row.from as usize);
        let to = index_at(place_of, row.to as usize);
        let joins = ways.get(arc).is_some_and(|way| carries(*way));
        if joins && from != to {
            let arc = index_of(arc);
            edges.push(Edge { arc, from, to })?;
        }
    }
    Ok(edges)
}

fn ends_of(alloc: Global, edges: &[Edge]) -> Result<Vec<(u32, u32)>, NoMemory> {
    let mut ends = Vec::new(alloc);
    for edge in edges {
        ends.push((edge.from, edge.to))?;
    }
    Ok(ends)
}

fn has_loops(edges: &[Edge], forest: &Forest) -> bool {
    edges.iter().any(|edge| !forest.has(edge.arc as usize))
}

impl Net {
    /// The network in which arcs take part in these ways.
    pub fn of(alloc: Global, p: &Problem, plan: &Plan, ways: &[Way]) -> Result<Net, NoMemory> {
        let (forest, exact) = Forest::of(alloc, p, &plan.easy, ways)?;
        let (place_of, places) = places(alloc, p.nodes().len(), &exact)?;
        let edges = edges_of(alloc, p, ways, &place_of)?;
        let has_loops = has_loops(&edges, &forest);
        let ends = if has_loops {
            ends_of(alloc, &edges)?
        } else {
            Vec::new(alloc)
        };
        let places = if has_loops { places } else { 0 };
        let (mesh, slot_of) = Mesh::of(alloc, places, &ends)?;
        Ok(Net {
            forest,
            edges,
            slot_of,
            mesh,
            has_loops,
            place_of,
        })
    }

    /// The place of a node.
    pub fn place_of(&self, node: u32) -> usize {
        index_at(&self.place_of, node as usize) as usize
    }
}
