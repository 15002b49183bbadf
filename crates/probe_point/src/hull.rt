// The whole hull of a box.
ghost use Rattle.std.specs.Prelude.{◌≡◌, ◌≤◌, ◌≤ℤ◌, length, IfOk};
ghost use Rattle.gas_model.specs.BoxLimits.{IsScale, AreFlowEnds, AreSquareEnds};
ghost use Rattle.box_ends.specs.Empty.{LeavesAll};
ghost use Rattle.probe_point.specs.Probes.{AreFlowBoxes};
ghost use Rattle.probe_point.specs.Squares.{AreSquareBoxes};
ghost use Rattle.probe_point.specs.Hulls.{IsHull, AreHulls};

use box_ends::ScaledBox;
use gas_model::{Ends, NoMemory, Var};
use gas_units::{ceil_div, floor_div};
use std::alloc::Global;

/// The whole numbers next to two ends, outward. Ends that count ones are whole, and need no quotient.
fn hull_of(scale: i128, ends: Ends) -> Ends
    requires { IsScale scale }
    ensures { IsHull scale ends result }
{
    if scale == 1 {
        return ends;
    }
    Ends {
        lo: floor_div(ends.lo, scale),
        hi: ceil_div(ends.hi, scale),
    }
}

/// The hulls of the flows of a box in which no variable is empty.
pub fn flow_hulls(alloc: Global, b: &ScaledBox, arcs: usize) -> Result<Vec<Ends>, NoMemory>
    requires count { arcs ≡ length b.now.bounds.flows }
    requires few { arcs ≤ 2000 }
    requires all { LeavesAll b.now.bounds }
    ensures hulls { IfOk result (λ hulls. AreHulls b.now.scale b.now.bounds.flows hulls.items) }
    ensures limits { IfOk result (λ hulls. AreFlowBoxes hulls.items) }
{
    let mut hulls = Vec::with_capacity(alloc, arcs)?;
    for arc in 0..arcs {
        hulls.push(hull_of(b.scale(), b.ends(Var::Flow(arc as u32))))?;
    }
    Ok(hulls)
}

/// The hulls of the squares of a box in which no variable is empty.
pub fn square_hulls(alloc: Global, b: &ScaledBox, nodes: usize) -> Result<Vec<Ends>, NoMemory>
    requires count { nodes ≡ length b.now.bounds.squares }
    requires few { nodes ≤ 2000 }
    requires all { LeavesAll b.now.bounds }
    ensures hulls { IfOk result (λ hulls. AreHulls b.now.scale b.now.bounds.squares hulls.items) }
    ensures limits { IfOk result (λ hulls. AreSquareBoxes hulls.items) }
{
    let mut hulls = Vec::with_capacity(alloc, nodes)?;
    for node in 0..nodes {
        hulls.push(hull_of(b.scale(), b.ends(Var::Square(node as u32))))?;
    }
    Ok(hulls)
}
