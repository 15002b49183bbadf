// The ends of one variable, and lists of them.
ghost use Rattle.std.specs.Prelude.{◌≡◌, ◌≤◌, ◌^◌, ◌*ℤ◌, length, map, position, IfOk, OnOk, IsTrue};
ghost use Rattle.base_types.specs.Numbers.{is_difference, is_flow, is_pressure};
ghost use Rattle.gas_model.specs.Curves.{square};
ghost use Rattle.gas_model.specs.Boxes.{flow_ends, square_ends, with_end, is_empty};
ghost use Rattle.gas_model.specs.BoxLimits.{IsScale, AreFlowEnds, AreSquareEnds};
ghost use Rattle.gas_model.specs.Within.{IsWithin as AreWithin};
ghost use Rattle.integer_laws.specs.Sizes.{IsWithin};
ghost use Rattle.box_ends.specs.Scaled.{AreHeld};
ghost use Rattle.box_ends.specs.Middle.{middle};

use gas_model::{ArcRow, Ends, NoMemory, NodeRow, Problem};
use std::alloc::Global;

// The bounds of a flow, in units of 1/scale.
fn flow_ends(scale: i128, row: &ArcRow) -> Ends
    requires scale { IsScale scale }
    requires low { IsTrue (is_flow row.now.q_min) }
    requires high { IsTrue (is_flow row.now.q_max) }
    ensures { result ≡ flow_ends scale row.now }
{
    Ends {
        lo: scale * row.q_min as i128,
        hi: scale * row.q_max as i128,
    }
}

/// The square of a pressure in Pa, in units of 1/scale of a Pa^2. The pressure lies from 0 to 4 * 10^8, and the scale is 1
/// or 16.
pub fn scaled_square(scale: i128, pressure: i64) -> i128
    requires scale { IsScale scale }
    requires pressure { IsTrue (is_difference pressure) }
    ensures { result ≡ scale *ℤ square pressure }
{
    let pressure = pressure as i128;
    scale * (pressure * pressure)
}

// The squares of the bounds of a pressure, in units of 1/scale.
fn square_ends(scale: i128, node: &NodeRow) -> Ends
    requires scale { IsScale scale }
    requires low { IsTrue (is_pressure node.now.p_min) }
    requires high { IsTrue (is_pressure node.now.p_max) }
    ensures { result ≡ square_ends scale node.now }
{
    Ends {
        lo: scaled_square(scale, node.p_min),
        hi: scaled_square(scale, node.p_max),
    }
}

// The bounds of all flows.
pub fn all_flow_ends(alloc: Global, scale: i128, p: &Problem) -> Result<Vec<Ends>, NoMemory>
    requires { IsScale scale }
    ensures value { IfOk result (λ all. all.items ≡ map (flow_ends scale) p.now.arcs) }
    ensures held { IfOk result (λ all. AreHeld (AreFlowEnds scale) all.items) }
    ensures within { OnOk result (AreWithin p.now) }
{
    let mut all = Vec::new(alloc);
    for row in p.arcs() {
        all.push(flow_ends(scale, row))?;
    }
    Ok(all)
}

// The squares of the bounds of all pressures.
pub fn all_square_ends(alloc: Global, scale: i128, p: &Problem) -> Result<Vec<Ends>, NoMemory>
    requires { IsScale scale }
    ensures value { IfOk result (λ all. all.items ≡ map (square_ends scale) p.now.nodes) }
    ensures held { IfOk result (λ all. AreHeld (AreSquareEnds scale) all.items) }
{
    let mut all = Vec::new(alloc);
    for node in p.nodes() {
        all.push(square_ends(scale, node))?;
    }
    Ok(all)
}

/// The ends, of which the lower (`low`) or the upper one becomes `value`.
pub fn with_end(low: bool, value: i128, ends: Ends) -> Ends
    ensures { result ≡ with_end low value ends }
{
    if low {
        Ends { lo: value, ..ends }
    } else {
        Ends { hi: value, ..ends }
    }
}

// The first ends of which the lower one is above the upper one.
fn first_empty(all: &[Ends]) -> Option<usize>
    ensures { result ≡ position is_empty all.now }
{
    all.iter().position(|ends| ends.hi < ends.lo)
}

// The place of the first ends of which the lower one is above the upper one.
pub fn place_of_empty(all: &[Ends]) -> Option<u32>
    requires { length all.now ≤ 2000 }
    ensures { result ≡ position is_empty all.now }
{
    let place = first_empty(all)?;
    Some(place as u32)
}

/// Half of both ends, rounded down. Each end lies within 2^100.
pub fn middle(ends: Ends) -> i128
    requires low { IsWithin (2 ^ 100) ends.lo }
    requires high { IsWithin (2 ^ 100) ends.hi }
    ensures { result ≡ middle ends }
{
    (ends.lo + ends.hi).div_euclid(2)
}
