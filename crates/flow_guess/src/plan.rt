// What is worked out once for a problem.
use clamped::{difference, index_of, portion, sum};
use gas_model::{ArcKind, NoMemory, Problem};
use std::alloc::Global;

// No flow counts as less typical than this, in l/h.
const LEAST_TYPICAL: i64 = 1 << 14;

/// What the flows of a problem are guessed by: the tolerance in Pa^2, a typical flow in l/h, and the arcs by resistance,
/// the least first.
#[derive(Debug, Drop)]
pub struct Plan {
    pub tol: i64,
    pub typical: i64,
    pub easy: Vec<u32>,
}

/// The size of a number.
pub fn size_of(x: i64) -> i64 {
    x.max(difference(0, x))
}

fn resistance(kind: &ArcKind) -> i64 {
    match kind {
        ArcKind::Pipe { law } | ArcKind::Resist { law } => {
            portion(sum(law.lo, law.hi), 1 << 22, law.den)
        }
        _ => 0,
    }
}

fn total_supply(p: &Problem) -> i64 {
    let mut total = 0;
    for node in p.nodes() {
        total = sum(total, size_of(sum(node.b_min, node.b_max)) / 2);
    }
    total
}

fn by_resistance(alloc: Global, p: &Problem) -> Result<Vec<u32>, NoMemory> {
    let mut keyed = Vec::new(alloc);
    for (arc, row) in p.arcs().iter().enumerate() {
        keyed.push((resistance(&row.kind), index_of(arc)))?;
    }
    keyed.sort_unstable();
    let mut arcs = Vec::new(alloc);
    for (_, arc) in &keyed {
        arcs.push(*arc)?;
    }
    Ok(arcs)
}

impl Plan {
    /// The plan of a problem, with a tolerance in Pa^2.
    pub fn of(alloc: Global, p: &Problem, tol: i64) -> Result<Plan, NoMemory> {
        let nodes = (p.nodes().len() as i64).max(1);
        let typical = portion(total_supply(p), 1, nodes).max(LEAST_TYPICAL);
        Ok(Plan {
            tol,
            typical,
            easy: by_resistance(alloc, p)?,
        })
    }
}
